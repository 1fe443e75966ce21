//! One connection of the desk.

use std::alloc::{AllocError, Global};
use std::io::{ErrorKind, Read, Write};
use std::time::Duration;

/// How many bytes a line may have, with its line feed.
pub const LINE_MOST: usize = 64;

/// A connection. It is a caller's from its first line on.
#[derive(Drop)]
pub struct Place<S> {
    pub stream: S,
    /// The caller's number.
    pub caller: u32,
    /// The moment of the monotonic clock when it was accepted.
    pub begun: Duration,
    /// Whether it has said a line.
    pub has_spoken: bool,
    /// Whether the system reported something that wasn't read yet.
    pub has_news: bool,
    /// Whether it was answered.
    is_answered: bool,
    has_ended: bool,
    /// What came of a line so far.
    text: [u8; LINE_MOST],
    count: usize,
}

/// What a connection has.
#[derive(Drop)]
pub enum Found {
    /// A whole line, without its line feed.
    Line(Vec<u8>),
    /// Its end, or what no caller says.
    End,
    /// Nothing yet.
    Nothing,
}

impl<S> Place<S> {
    /// One that was accepted at this moment.
    pub fn new(stream: S, caller: u32, begun: Duration) -> Place<S> {
        Place {
            stream,
            caller,
            begun,
            has_spoken: false,
            has_news: true,
            is_answered: false,
            has_ended: false,
            text: [0; LINE_MOST],
            count: 0,
        }
    }

    /// Whether it may have something at once.
    pub fn is_ready(&self) -> bool {
        self.has_news || self.has_ended
    }

    /// Whether it waits for an answer, or has time left for its first line.
    pub fn awaits(&self) -> bool {
        !self.is_answered
    }

    /// Ends it.
    pub fn end(&mut self) {
        self.has_ended = true;
    }

    // The first line of what came, which is taken out.
    fn take_line(&mut self, alloc: Global) -> Result<Option<Vec<u8>>, AllocError> {
        let came = self.text.get(..self.count).unwrap_or(&[]);
        let Some(at) = came.iter().position(|byte| *byte == b'\n') else {
            return Ok(None);
        };
        let line = Vec::from_slice(alloc, came.get(..at).unwrap_or(&[]))?;
        let rest = at.saturating_add(1);
        let left = self.count.saturating_sub(rest);
        for place in 0..left {
            if let (Some(byte), Some(to)) = (
                self.text.get(place.saturating_add(rest)).copied(),
                self.text.get_mut(place),
            ) {
                *to = byte;
            }
        }
        self.count = left;
        Ok(Some(line))
    }
}

impl<S: Read> Place<S> {
    /// Reads what came. If memory runs out, the connection ends.
    pub fn look(&mut self, alloc: Global) -> Found {
        if self.has_ended {
            return Found::End;
        }
        for _ in 0..LINE_MOST {
            match self.take_line(alloc) {
                Ok(Some(line)) => {
                    self.has_spoken = true;
                    return Found::Line(line);
                }
                Ok(None) if self.count < LINE_MOST => {}
                _ => return Found::End,
            }
            let Some(room) = self.text.get_mut(self.count..) else {
                return Found::End;
            };
            match self.stream.read(room) {
                Ok(0) => return Found::End,
                Ok(count) => self.count = self.count.saturating_add(count).min(LINE_MOST),
                Err(error) if error.kind() == ErrorKind::Interrupted => {}
                Err(error) if error.kind() == ErrorKind::WouldBlock => {
                    self.has_news = false;
                    return Found::Nothing;
                }
                Err(_) => return Found::End,
            }
        }
        Found::Nothing
    }
}

impl<S: Write> Place<S> {
    /// Sends a line. A caller that doesn't take it at once is given up.
    pub fn say(&mut self, line: &[u8]) {
        self.is_answered = true;
        match self.stream.write(line) {
            Ok(count) if count == line.len() => {}
            _ => self.end(),
        }
    }
}
