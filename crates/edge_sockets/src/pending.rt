// A connection that was accepted and that no door reads yet. Nothing is read from it: its bytes are only looked at.
ghost use Rattle.std.specs.Prelude.{◌≡◌, false};
ghost use Rattle.wire_tokens.specs.Request.{IsShortRequest};

use crate::notices::Leaving;
use crate::tcp::IDLE_SECS;
use compile_request::{RequestReader, Step};
use mio::event::Event;
use mio::unix::SourceFd;
use mio::{Interest, Poll, Token};
use std::alloc::Global;
use std::io::{self, ErrorKind};
use std::net::{OpenStream, SocketAddr};
use std::os::fd::AsRawFd;
use std::time::Duration;

/// A connection that waits for a door.
#[derive(Drop)]
pub struct Pending<S> {
    pub stream: S,
    pub peer: SocketAddr,
    /// The moment of the monotonic clock when it was accepted.
    pub begun: Duration,
    is_denied: bool,
    is_ready: bool,
    /// Whether something came since it was looked at.
    has_news: bool,
    has_ended: bool,
    /// Whether a byte of it was seen.
    pub was_given: bool,
}

impl<S: OpenStream + AsRawFd> Pending<S> {
    /// One that was accepted at this moment. Its peer may be denied: then it is ready.
    pub fn new(stream: S, peer: SocketAddr, begun: Duration, is_denied: bool) -> Pending<S> {
        Pending {
            stream,
            peer,
            begun,
            is_denied,
            is_ready: is_denied,
            has_news: true,
            has_ended: false,
            was_given: false,
        }
    }

    /// Has the system report what comes under this token. If the system refuses that, it is ready, and its door waits for it.
    pub fn watch(&mut self, poll: &Poll, token: Token) {
        if !self.is_ready && self.register(poll, token).is_err() {
            self.is_ready = true;
        }
    }

    fn register(&mut self, poll: &Poll, token: Token) -> io::Result<()> {
        self.stream.set_nonblocking(true)?;
        let descriptor = self.stream.as_raw_fd();
        poll.registry()
            .register(&mut SourceFd(&descriptor), token, Interest::READABLE)
    }

    /// Ends that, and has its reads and writes wait again.
    pub fn release(&mut self, poll: &Poll) {
        let descriptor = self.stream.as_raw_fd();
        let _ = poll.registry().deregister(&mut SourceFd(&descriptor));
        let _ = self.stream.set_nonblocking(false);
    }

    /// Looks at what came. It is ready if the peer has ended or failed, if the scratch is full, or if a door could answer it without more.
    pub fn look(&mut self, alloc: Global, scratch: &mut [u8]) {
        if self.is_ready || !self.has_news {
            return;
        }
        self.has_news = false;
        match self.stream.peek(scratch) {
            Ok(count) => {
                self.was_given |= count > 0;
                self.is_ready = self.has_ended
                    || count == 0
                    || count >= scratch.len()
                    || is_settled(alloc, scratch.get(..count).unwrap_or_default());
            }
            Err(error) => self.is_ready = error.kind() != ErrorKind::WouldBlock,
        }
    }
}

impl<S> Pending<S> {
    /// Whether a door is to have it.
    pub fn is_ready(&self) -> bool {
        self.is_ready
    }

    /// The system says that something came.
    pub fn notice(&mut self, event: &Event) {
        self.has_news = true;
        self.has_ended |= event.is_read_closed() || event.is_error();
    }

    /// How long it may still wait at this moment.
    pub fn time_left(&self, now: Duration) -> Duration {
        Duration::from_secs(IDLE_SECS).saturating_sub(now.saturating_sub(self.begun))
    }

    /// Why it is left by the door that has it.
    pub fn leaving(&self) -> Leaving {
        if self.is_denied {
            Leaving::Denied
        } else {
            Leaving::Served
        }
    }
}

/// Whether a door could answer these first bytes of a connection without more: they are a whole request, or there is a fault in them. True too if
/// memory runs out.
fn is_settled(alloc: Global, text: &[u8]) -> bool
    ensures waits { result ≡ false → IsShortRequest text.now }
{
    let mut reader = RequestReader::new(alloc);
    match reader.feed(text) {
        Step::More => false,
        Step::Whole { .. } | Step::Bad { .. } | Step::Memory => true,
    }
}
