//! The wait for what a listener, a parent and connections have.

use mio::unix::SourceFd;
use mio::{Events, Interest, Poll, Token};
use std::alloc::Global;
use std::io;
use std::net::Net;
use std::os::fd::AsRawFd;
use std::time::Duration;

/// What the system is asked to report.
#[derive(Drop)]
pub struct Watch {
    poll: Poll,
    events: Events,
}

/// How many events the system reports at once.
const EVENTS: usize = 128;

impl Watch {
    /// A watch of nothing yet.
    ///
    /// # Errors
    /// The system refuses a poll, or memory runs out.
    pub fn new<R: Net>(rt: &R, alloc: Global) -> io::Result<Watch> {
        let events = Events::with_capacity(alloc, EVENTS)?;
        let poll = Poll::new(rt)?;
        Ok(Watch { poll, events })
    }

    /// Has the system report, by this number, if there is something to read.
    ///
    /// # Errors
    /// The system refuses it.
    pub fn add<F: AsRawFd>(&self, file: &F, number: usize) -> io::Result<()> {
        self.poll.registry().register(
            &mut SourceFd(&file.as_raw_fd()),
            Token(number),
            Interest::READABLE,
        )
    }

    /// Waits until something is reported, at most for that time.
    ///
    /// # Errors
    /// The system refuses to wait.
    pub fn wait(&mut self, limit: Option<Duration>) -> io::Result<()> {
        self.poll.poll(&mut self.events, limit)
    }

    /// What was reported last.
    pub fn events(&self) -> &Events {
        &self.events
    }
}
