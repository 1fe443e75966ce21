//! The start and the end of a desk's process, as its parent sees it.

use crate::variable::{VARIABLE, parse_variable, variable_text};
use std::alloc::{AllocError, Global};
use std::env::{self, Env};
use std::io::{self, ErrorKind, Read, Write};
use std::process::{Child, Command, OpenProcess, Processes, Stdio};
use std::rt::Files;
use std::{fs, str};

/// The word by which this program is the desk, after `share`.
pub const DESK_WORD: &str = "--desk";

/// A desk that was started. It ends with this process.
#[derive(Drop)]
pub struct StartedDesk<P: OpenProcess + Drop> {
    child: Child<P>,
    /// The value of `FARM_SHARE` for the command.
    pub variable: String,
}

/// How long the line of a desk may be that says where it is.
const LINE_MOST: usize = 64;

/// Starts this program again, as the desk of a host list, and waits until it says where it is.
///
/// # Errors
/// It can't be started, or it ended without that.
pub fn start_desk<R: Processes + Files + Env>(
    rt: &R,
    alloc: Global,
    hosts: &str,
) -> io::Result<StartedDesk<R::Started>> {
    let mut command = own_command(rt, alloc)?;
    name_desk(&mut command, hosts)?;
    let mut child = command.spawn(rt)?;
    match read_place(&mut child, alloc)? {
        Some(variable) => Ok(StartedDesk { child, variable }),
        None => {
            let _ = child.kill();
            let _ = child.wait();
            Err(io::Error::from(ErrorKind::UnexpectedEof))
        }
    }
}

// Gives the command of this program the words, the environment and the streams of a desk.
fn name_desk(command: &mut Command, hosts: &str) -> Result<(), AllocError> {
    command.args(["share", DESK_WORD])?;
    command.env("DISTCC_HOSTS", hosts)?;
    command.env_remove(VARIABLE)?;
    command
        .stdin(Stdio::piped())
        .stdout(Stdio::piped())
        .stderr(Stdio::null());
    Ok(())
}

impl<P: OpenProcess + Drop> StartedDesk<P> {
    /// Says which process is the command's. If this process ends first, the desk ends that one.
    pub fn name_command(&mut self, alloc: Global, process: u32) {
        if let (Ok(line), Some(stdin)) = (
            format!(in alloc; "{process}\n"),
            self.child.stdin.as_mut(),
        ) {
            let _ = stdin.write_all(line.as_bytes());
        }
    }

    /// Ends it. The command has ended.
    pub fn end(mut self) {
        if self.child.kill().is_ok() {
            let _ = self.child.wait();
        }
    }
}

// The words that run this program again. What runs it, as a loader by its name, comes first.
fn own_command<R: Files + Env>(rt: &R, alloc: Global) -> io::Result<Command> {
    let line = fs::read(&(rt, alloc), "/proc/self/cmdline")?;
    let own = env::args(&(rt, alloc))?.count();
    Ok(command_before(alloc, line.as_slice(), own)?)
}

// The words of a command line that come before its last ones, of which there are so many. Each ends with a zero byte.
fn command_before(alloc: Global, line: &[u8], last: usize) -> Result<Command, AllocError> {
    let words = line.split(|byte| *byte == 0).count();
    let before = words.saturating_sub(1).saturating_sub(last);
    let mut command = Command::new(alloc, "/proc/self/exe")?;
    for word in line.split(|byte| *byte == 0).skip(1).take(before) {
        command.arg(str::from_utf8(word).unwrap_or(""))?;
    }
    Ok(command)
}

// The place of the desk, as it says on its standard output.
fn read_place<P: OpenProcess>(child: &mut Child<P>, alloc: Global) -> io::Result<Option<String>> {
    let Some(mut stdout) = child.stdout.take() else {
        return Ok(None);
    };
    let mut text: Vec<u8> = Vec::new(alloc);
    let mut room = [0u8; LINE_MOST];
    for _ in 0..LINE_MOST {
        let count = match stdout.read(&mut room) {
            Ok(0) => return Ok(None),
            Ok(count) => count,
            Err(error) if error.kind() == ErrorKind::Interrupted => continue,
            Err(error) => return Err(error),
        };
        text.extend_from_slice(room.get(..count).unwrap_or(&[]))?;
        if text.len() > LINE_MOST {
            return Ok(None);
        }
        if text.as_slice().last() == Some(&b'\n') {
            return Ok(place_in(alloc, text.as_slice())?);
        }
    }
    Ok(None)
}

fn place_in(alloc: Global, line: &[u8]) -> Result<Option<String>, AllocError> {
    let Ok(text) = str::from_utf8(line) else {
        return Ok(None);
    };
    let Some((port, token)) = text.trim().split_once(':') else {
        return Ok(None);
    };
    let Ok(port) = port.parse::<u16>() else {
        return Ok(None);
    };
    let variable = variable_text(alloc, port, token)?;
    if parse_variable(variable.as_str()).is_none() {
        return Ok(None);
    }
    Ok(Some(variable))
}
