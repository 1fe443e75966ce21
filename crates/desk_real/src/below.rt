//! A runtime whose programs know that they run below a caller that has a slot.

use crate::variable::VARIABLE;
use std::alloc::{Alloc, AllocError, Allocator};
use std::env::{Env, FillError};
use std::fmt::Display;
use std::fs::{Metadata, OpenOptions, Permissions};
use std::io::{self, Eprint, PipeReader, PipeWriter};
use std::path::PathBuf;
use std::process::{Child, Command, Processes, Stdio};
use std::random::RandomSource;
use std::rt::{Clock, Files};
use std::time::Duration;

/// A runtime that gives each program which it starts another value of `FARM_SHARE`, if it has one. All else is done by the runtime below.
#[derive(Clone, Copy)]
pub struct Below<'a, R> {
    rt: R,
    value: Option<&'a str>,
}

impl<'a, R> Below<'a, R> {
    /// Over this runtime, with this value.
    pub fn new(rt: R, value: Option<&'a str>) -> Below<'a, R> {
        Below { rt, value }
    }
}

impl<'a, R: Processes> Processes for Below<'a, R> {
    type Started = R::Started;

    fn spawn<B: Allocator + Clone>(
        &self,
        command: &Command<B>,
        stdin: &Stdio,
        stdout: &Stdio,
        stderr: &Stdio,
    ) -> io::Result<Child<R::Started>> {
        let Some(value) = self.value else {
            return self.rt.spawn(command, stdin, stdout, stderr);
        };
        let mut marked = Command::new(command.allocator().clone()?, command.get_program())?;
        complete(&mut marked, command, value)?;
        self.rt.spawn(&marked, stdin, stdout, stderr)
    }
}

// Gives a command, which has its program only, the rest of another one and this value of the variable.
fn complete<B: Allocator + Clone>(
    marked: &mut Command<B>,
    command: &Command<B>,
    value: &str,
) -> Result<(), AllocError> {
    for word in command.get_args() {
        marked.arg(word)?;
    }
    for (name, value) in command.get_envs() {
        match value {
            Some(value) => marked.env(name, value)?,
            None => marked.env_remove(name)?,
        };
    }
    if let Some(folder) = command.get_current_dir() {
        marked.current_dir(folder)?;
    }
    marked.env(VARIABLE, value)?;
    Ok(())
}

impl<'a, R: Files> Files for Below<'a, R> {
    type File = R::File;

    type Dir = R::Dir;

    fn open_file(&self, how: &OpenOptions, path: &str) -> io::Result<R::File> {
        self.rt.open_file(how, path)
    }

    fn open_dir(&self, path: &str) -> io::Result<R::Dir> {
        self.rt.open_dir(path)
    }

    fn metadata(&self, path: &str) -> io::Result<Metadata> {
        self.rt.metadata(path)
    }

    fn symlink_metadata(&self, path: &str) -> io::Result<Metadata> {
        self.rt.symlink_metadata(path)
    }

    fn copy(&self, from: &str, to: &str) -> io::Result<u64> {
        self.rt.copy(from, to)
    }

    fn rename(&self, from: &str, to: &str) -> io::Result<()> {
        self.rt.rename(from, to)
    }

    fn remove_file(&self, path: &str) -> io::Result<()> {
        self.rt.remove_file(path)
    }

    fn create_dir(&self, path: &str) -> io::Result<()> {
        self.rt.create_dir(path)
    }

    fn remove_dir(&self, path: &str) -> io::Result<()> {
        self.rt.remove_dir(path)
    }

    fn remove_dir_all<B: Allocator>(&self, alloc: B, path: &str) -> io::Result<()> {
        self.rt.remove_dir_all(alloc, path)
    }

    fn canonicalize<B: Allocator>(&self, alloc: B, path: &str) -> io::Result<PathBuf<B>> {
        self.rt.canonicalize(alloc, path)
    }

    fn read_link<B: Allocator>(&self, alloc: B, path: &str) -> io::Result<PathBuf<B>> {
        self.rt.read_link(alloc, path)
    }

    fn hard_link(&self, original: &str, link: &str) -> io::Result<()> {
        self.rt.hard_link(original, link)
    }

    fn set_permissions(&self, path: &str, permissions: Permissions) -> io::Result<()> {
        self.rt.set_permissions(path, permissions)
    }

    fn symlink(&self, original: &str, link: &str) -> io::Result<()> {
        self.rt.symlink(original, link)
    }

    fn pipe(&self) -> io::Result<(PipeReader, PipeWriter)> {
        self.rt.pipe()
    }

    fn chown(&self, path: &str, user: Option<u32>, group: Option<u32>) -> io::Result<()> {
        self.rt.chown(path, user, group)
    }

    fn lchown(&self, path: &str, user: Option<u32>, group: Option<u32>) -> io::Result<()> {
        self.rt.lchown(path, user, group)
    }

    fn create_dir_with_mode(&self, path: &str, mode: u32) -> io::Result<()> {
        self.rt.create_dir_with_mode(path, mode)
    }
}

impl<'a, R: Env> Env for Below<'a, R> {
    fn arg(&self, place: usize, room: &mut [u8]) -> Result<usize, FillError> {
        self.rt.arg(place, room)
    }

    fn var(&self, name: &str, room: &mut [u8]) -> Result<usize, FillError> {
        self.rt.var(name, room)
    }

    fn var_at(&self, place: usize, room: &mut [u8]) -> Result<usize, FillError> {
        self.rt.var_at(place, room)
    }

    fn current_dir(&self, room: &mut [u8]) -> io::Result<usize> {
        self.rt.current_dir(room)
    }

    fn set_current_dir(&self, path: &str) -> io::Result<()> {
        self.rt.set_current_dir(path)
    }
}

impl<'a, R: Alloc> Alloc for Below<'a, R> {
    type A = R::A;

    fn alloc(&self) -> R::A {
        self.rt.alloc()
    }
}

impl<'a, R: RandomSource> RandomSource for Below<'a, R> {
    fn fill_bytes(&self, room: &mut [u8]) -> io::Result<()> {
        self.rt.fill_bytes(room)
    }
}

impl<'a, R: Eprint> Eprint for Below<'a, R> {
    fn eprint<D: Display + Drop>(&self, value: D) -> io::Result<()> {
        self.rt.eprint(value)
    }

    fn eprintln<D: Display + Drop>(&self, value: D) -> io::Result<()> {
        self.rt.eprintln(value)
    }
}

impl<'a, R: Clock> Clock for Below<'a, R> {
    fn monotonic(&self) -> io::Result<Duration> {
        self.rt.monotonic()
    }

    fn since_1970(&self) -> io::Result<Duration> {
        self.rt.since_1970()
    }

    fn sleep(&self, duration: Duration) {
        self.rt.sleep(duration)
    }
}
