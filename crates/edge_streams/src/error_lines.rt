// Lines on the standard error that nobody waits for: if its reader has stopped, they are dropped and counted.
use mio::unix::SourceFd;
use mio::{Events, Interest, Poll, Token};
use std::alloc::{AllocError, Allocator, Global};
use std::fmt::Display;
use std::fs::{Metadata, OpenOptions};
use std::io::{self, Eprint};
use std::net::{Net, SocketAddr};
use std::os::fd::RawFd;
use std::process::{Child, Command, Processes, Stdio};
use std::random::RandomSource;
use std::rt::{Clock, Files};
use std::sync::atomic::{AtomicU64, Ordering};
use std::sync::{Mutex, Wait};
use std::thread::yield_now;
use std::time::Duration;

/// The standard error, as threads share it that may not be held up by who reads it.
#[derive(Drop)]
pub struct ErrorLines {
    /// Says whether a line can be written at once. None for a file, which takes each line, or if the system has no poll
    /// for it.
    stream: Mutex<Option<Watched>>,
    dropped: AtomicU64,
}

#[derive(Drop)]
struct Watched {
    poll: Poll,
    events: Events,
}

/// The number of the standard error.
const STANDARD_ERROR: RawFd = 2;

/// How often a thread looks whether another one has written its line.
const TURNS: u32 = 10_000;

impl ErrorLines {
    /// No line was dropped yet.
    ///
    /// # Errors
    /// Memory ran out.
    pub fn new<R: Net>(rt: &R, alloc: Global) -> Result<ErrorLines, AllocError> {
        let events = Events::with_capacity(alloc, 1)?;
        Ok(ErrorLines {
            stream: Mutex::new(look_at(rt, events)),
            dropped: AtomicU64::new(0),
        })
    }

    /// Writes a line if that can be done at once, after one that says how many were dropped before.
    fn tell<R: Eprint, D: Display + Drop>(&self, rt: &R, line: D) -> io::Result<()> {
        for _ in 0..TURNS {
            let Some(mut stream) = self.stream.try_lock() else {
                yield_now();
                continue;
            };
            if !is_writable(&mut *stream) {
                break;
            }
            let written = self.write(rt, line);
            if written.is_err() {
                break;
            }
            return written;
        }
        self.dropped.fetch_add(1, Ordering::SeqCst);
        Ok(())
    }

    /// Writes a line after one that says how many were dropped before. Those are counted until that line is written.
    fn write<R: Eprint, D: Display + Drop>(&self, rt: &R, line: D) -> io::Result<()> {
        let dropped = self.dropped.load(Ordering::SeqCst);
        if dropped > 0 {
            rt.eprintln(format_args!("{dropped} lines dropped"))?;
            self.dropped.fetch_sub(dropped, Ordering::SeqCst);
        }
        rt.eprintln(line)
    }
}

fn look_at<R: Net>(rt: &R, events: Events) -> Option<Watched> {
    let poll = Poll::new(rt).ok()?;
    let mut source = SourceFd(&STANDARD_ERROR);
    poll.registry()
        .register(&mut source, Token(0), Interest::WRITABLE)
        .ok()?;
    Some(Watched { poll, events })
}

/// Whether the stream takes a line at once, by what the system says of it at this moment.
fn is_writable(stream: &mut Option<Watched>) -> bool {
    let Some(watched) = stream else {
        return true;
    };
    let mut source = SourceFd(&STANDARD_ERROR);
    let asked = watched
        .poll
        .registry()
        .reregister(&mut source, Token(0), Interest::WRITABLE);
    if asked.is_err()
        || watched
            .poll
            .poll(&mut watched.events, Some(Duration::ZERO))
            .is_err()
    {
        return false;
    }
    !watched.events.is_empty()
}

/// A runtime whose lines on the standard error hold nobody up.
#[derive(Clone, Copy)]
pub struct Unhindered<'a, R> {
    rt: R,
    lines: &'a ErrorLines,
}

impl<'a, R> Unhindered<'a, R> {
    /// This runtime, with these lines.
    pub fn new(rt: R, lines: &'a ErrorLines) -> Unhindered<'a, R> {
        Unhindered { rt, lines }
    }
}

impl<R: Eprint> Eprint for Unhindered<'_, R> {
    fn eprint<D: Display + Drop>(&self, value: D) -> io::Result<()> {
        self.rt.eprint(value)
    }

    fn eprintln<D: Display + Drop>(&self, value: D) -> io::Result<()> {
        self.lines.tell(&self.rt, value)
    }
}

impl<R: Wait> Wait for Unhindered<'_, R> {}

impl<R: Clock> Clock for Unhindered<'_, R> {
    fn monotonic(&self) -> io::Result<Duration> {
        self.rt.monotonic()
    }

    fn since_1970(&self) -> io::Result<Duration> {
        self.rt.since_1970()
    }

    fn sleep(&self, duration: Duration) {
        self.rt.sleep(duration)
    }
}

impl<R: RandomSource> RandomSource for Unhindered<'_, R> {
    fn fill_bytes(&self, room: &mut [u8]) -> io::Result<()> {
        self.rt.fill_bytes(room)
    }
}

impl<R: Processes> Processes for Unhindered<'_, R> {
    type Started = R::Started;

    fn spawn<B: Allocator + Clone>(
        &self,
        command: &Command<B>,
        stdin: &Stdio,
        stdout: &Stdio,
        stderr: &Stdio,
    ) -> io::Result<Child<R::Started>> {
        self.rt.spawn(command, stdin, stdout, stderr)
    }
}

impl<R: Net> Net for Unhindered<'_, R> {
    type Stream = R::Stream;

    type Listener = R::Listener;

    fn bind(&self, addr: SocketAddr) -> io::Result<R::Listener> {
        self.rt.bind(addr)
    }

    fn connect(&self, addr: SocketAddr) -> io::Result<R::Stream> {
        self.rt.connect(addr)
    }
}

impl<R: Files> Files for Unhindered<'_, R> {
    type File = R::File;

    type Dir = R::Dir;

    fn open_file(&self, how: &OpenOptions, path: &str) -> io::Result<R::File> {
        self.rt.open_file(how, path)
    }

    fn open_dir(&self, path: &str) -> io::Result<R::Dir> {
        self.rt.open_dir(path)
    }

    fn metadata(&self, path: &str) -> io::Result<Metadata> {
        self.rt.metadata(path)
    }

    fn symlink_metadata(&self, path: &str) -> io::Result<Metadata> {
        self.rt.symlink_metadata(path)
    }

    fn copy(&self, from: &str, to: &str) -> io::Result<u64> {
        self.rt.copy(from, to)
    }

    fn rename(&self, from: &str, to: &str) -> io::Result<()> {
        self.rt.rename(from, to)
    }

    fn remove_file(&self, path: &str) -> io::Result<()> {
        self.rt.remove_file(path)
    }

    fn create_dir(&self, path: &str) -> io::Result<()> {
        self.rt.create_dir(path)
    }

    fn create_dir_with_mode(&self, path: &str, mode: u32) -> io::Result<()> {
        self.rt.create_dir_with_mode(path, mode)
    }

    fn remove_dir(&self, path: &str) -> io::Result<()> {
        self.rt.remove_dir(path)
    }

    fn remove_dir_all<B: Allocator>(&self, alloc: B, path: &str) -> io::Result<()> {
        self.rt.remove_dir_all(alloc, path)
    }
}
