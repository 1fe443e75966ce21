//! A caller's side: it asks the desk for a place, and says how that ended.

use crate::variable::SharedRun;
use desk_words::{Answer, Asked, Told, greeting, parse_answer, told_text};
use farm_types::Bytes;
use std::alloc::{AllocError, Global};
use std::io::{self, ErrorKind, Write};
use std::net::{Ipv4Addr, Net, OpenStream, SocketAddr, SocketAddrV4, TcpStream};
use std::time::Duration;

/// Where the desk lets a caller have its command done.
#[derive(Drop)]
pub enum Granted {
    /// By this entry of the host list.
    Host(Bytes),
    /// On this machine.
    Here,
    /// Wherever the caller can: the desk knows too many callers.
    Alone,
}

/// A connection to the desk. It holds what the caller was given while it is open.
#[derive(Drop)]
pub struct Seat<S> {
    stream: S,
}

/// How long the desk has to take a connection.
const DIAL_SECS: u64 = 1;

/// How long a caller waits for a place.
const PLACE_SECS: u64 = 600;

/// How long a line of the desk may be.
const LINE_MOST: usize = 400;

/// How often a caller asks whose connection was closed unanswered: too many others came at once.
const TRIES: u32 = 3;

/// Asks the desk of this run for a place, and waits for it. None if there is no desk, or none that answers as one does.
pub fn ask<R: Net>(
    rt: &R,
    alloc: Global,
    run: &SharedRun<'_>,
    asked: Asked,
) -> Result<Option<(Granted, Seat<R::Stream>)>, AllocError> {
    let mut line = greeting(alloc, run.token, asked)?;
    line.push_str("\n")?;
    for _ in 0..TRIES {
        let Some(mut stream) = dial(rt, run.port) else {
            return Ok(None);
        };
        match answer_to(alloc, &mut stream, line.as_str())? {
            Read::Line(answer) => {
                let granted = granted_by(alloc, answer.as_slice())?;
                return Ok(granted.map(|granted| (granted, Seat { stream })));
            }
            Read::End => {}
            Read::Failed => return Ok(None),
        }
    }
    Ok(None)
}

// Sends a line, and reads the answer.
fn answer_to<S: io::Read + Write>(
    alloc: Global,
    stream: &mut S,
    line: &str,
) -> Result<Read, AllocError> {
    match stream.write_all(line.as_bytes()) {
        Ok(()) => read_line(alloc, stream),
        Err(_) => Ok(Read::End),
    }
}

fn dial<R: Net>(rt: &R, port: u16) -> Option<R::Stream> {
    let place = SocketAddr::V4(SocketAddrV4::new(Ipv4Addr::LOCALHOST, port));
    let limit = Duration::from_secs(DIAL_SECS);
    let stream = TcpStream::connect_timeout(rt, &place, limit).ok()?;
    let _ = stream.set_nodelay(true);
    stream
        .set_read_timeout(Some(Duration::from_secs(PLACE_SECS)))
        .ok()?;
    Some(stream)
}

fn granted_by(alloc: Global, answer: &[u8]) -> Result<Option<Granted>, AllocError> {
    Ok(match parse_answer(answer) {
        Some(Answer::Host(entry)) => Some(Granted::Host(Bytes::from_slice(alloc, entry)?)),
        Some(Answer::Here) => Some(Granted::Here),
        Some(Answer::Alone) => Some(Granted::Alone),
        None => None,
    })
}

// What is read of an answer.
#[derive(Drop)]
enum Read {
    /// A line, without its line feed.
    Line(Bytes),
    /// The connection was closed.
    End,
    /// No line came in time, or one that is too long.
    Failed,
}

fn read_line<S: io::Read>(alloc: Global, stream: &mut S) -> Result<Read, AllocError> {
    let mut room = [0u8; LINE_MOST];
    let mut line = Bytes::new(alloc);
    for _ in 0..LINE_MOST {
        let count = match stream.read(&mut room) {
            Ok(0) => return Ok(Read::End),
            Ok(count) => count,
            Err(error) if error.kind() == ErrorKind::Interrupted => continue,
            Err(error) if error.kind() == ErrorKind::ConnectionReset => return Ok(Read::End),
            Err(_) => return Ok(Read::Failed),
        };
        let piece = room.get(..count).unwrap_or(&[]);
        if let Some((b'\n', front)) = piece.split_last() {
            line.try_extend(front)?;
            return Ok(Read::Line(line));
        }
        line.try_extend(piece)?;
        if line.len() > LINE_MOST {
            return Ok(Read::Failed);
        }
    }
    Ok(Read::Failed)
}

impl<S: Write + Drop> Seat<S> {
    /// Says how it ended, and gives the place back.
    pub fn leave(mut self, told: Told) {
        let _ = self.stream.write_all(told_text(told).as_bytes());
        let _ = self.stream.write_all(b"\n");
    }
}
