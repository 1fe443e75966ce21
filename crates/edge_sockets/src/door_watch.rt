// What a run for a door goes by: whether the peer of the door is still there, and who else waits for a door.
ghost use Rattle.std.specs.Prelude.{◌≡◌, ℕ, ◌≤◌, false};
ghost use Rattle.std.specs.Duration.{as_nanos};
ghost use Rattle.edge_sockets.specs.Ends.{is_gone};

use crate::room::SharedRoom;
use edge_runs::RunWatch;
use edge_streams::moment;
use mio::event::Event;
use mio::unix::SourceFd;
use mio::{Events, Interest, Poll, Token};
use std::alloc::Global;
use std::io::{self, Eprint};
use std::net::{Net, OpenListener, OpenStream};
use std::os::fd::AsRawFd;
use std::rt::Clock;
use std::sync::{Arc, Mutex};
use std::time::Duration;

/// The watch of one door's runs: it looks at the peer of the connection that the door has. It leads the room of all doors if no idle door leads it.
///
/// A peer that resets its connection has gone. A peer that ended its sending side `GONE_MILLIS` ago has gone too, as it can't be distinguished from
/// one that closed its connection.
#[derive(Drop)]
pub struct DoorWatch<R, L, S> {
    rt: R,
    alloc: Global,
    room: Option<SharedRoom<L, S>>,
    /// Only the door's thread uses it.
    peer: Mutex<Peer>,
}

/// A door's watch, as the door and its station share it.
pub type SharedWatch<R, L, S> = Arc<DoorWatch<R, L, S>, Global>;

/// What is known of the peer of the connection that the door has.
#[derive(Drop)]
struct Peer {
    poll: Poll,
    events: Events,
    /// The number of the connection, which its events have as their token.
    serial: usize,
    has_failed: bool,
    /// The moment of the monotonic clock when it was seen that the peer sends no more.
    ended: Option<Duration>,
}

/// How many events of a connection are read at once.
const EVENTS: usize = 4;

/// How long a peer that sends no more is taken to be there.
const GONE_MILLIS: u64 = 500;

impl<R: Net + Drop, L: Drop, S: Drop> DoorWatch<R, L, S> {
    /// The watch of a door with this room.
    ///
    /// # Errors
    /// The system gives no descriptor for it, or memory runs out.
    pub(crate) fn new(
        rt: R,
        alloc: Global,
        room: Option<SharedRoom<L, S>>,
    ) -> io::Result<DoorWatch<R, L, S>> {
        let poll = Poll::new(&rt)?;
        let events = Events::with_capacity(alloc, EVENTS)?;
        Ok(DoorWatch {
            rt,
            alloc,
            room,
            peer: Mutex::new(Peer {
                poll,
                events,
                serial: 0,
                has_failed: false,
                ended: None,
            }),
        })
    }
}

impl<R, L, S: AsRawFd> DoorWatch<R, L, S> {
    /// Looks from here on at the peer of this connection.
    pub(crate) fn begin(&self, stream: &S) {
        if let Some(mut peer) = self.peer.try_lock() {
            peer.begin(stream.as_raw_fd());
        }
    }
}

impl<R: Clock, L, S> DoorWatch<R, L, S> {
    fn has_peer_gone(&self) -> bool {
        let Some(mut peer) = self.peer.try_lock() else {
            return false;
        };
        let now = moment(&self.rt);
        peer.look(now);
        is_gone(peer.has_failed, peer.ended, now)
    }
}

impl<R: Eprint + Clock, L: OpenListener<Stream = S> + AsRawFd, S> RunWatch for DoorWatch<R, L, S>
where
    S: OpenStream + AsRawFd + Drop,
{
    fn has_gone(&self) -> bool {
        if let Some(room) = &self.room {
            if let Some(mut room) = room.inside.try_lock() {
                room.attend(&self.rt, self.alloc);
            }
        }
        self.has_peer_gone()
    }

    fn want_descriptors(&self) {
        let Some(room) = &self.room else {
            return;
        };
        match room.inside.try_lock() {
            Some(mut inside) => {
                inside.leave_oldest(&self.rt);
            }
            None => room.wants.want(),
        }
    }
}

impl Peer {
    fn begin(&mut self, descriptor: i32) {
        self.serial = self.serial.wrapping_add(1);
        self.has_failed = false;
        self.ended = None;
        let _ = self.poll.registry().register(
            &mut SourceFd(&descriptor),
            Token(self.serial),
            Interest::READABLE,
        );
    }

    /// Takes in what the system reports of it, without waiting.
    fn look(&mut self, now: Duration) {
        if self
            .poll
            .poll(&mut self.events, Some(Duration::ZERO))
            .is_err()
        {
            return;
        }
        for event in &self.events {
            if event.token() == Token(self.serial) {
                self.has_failed |= event.is_error();
                if event.is_read_closed() && self.ended.is_none() {
                    self.ended = Some(now);
                }
            }
        }
    }
}

/// Whether a peer has gone at this moment, that may have failed, and may have been seen to send no more.
fn is_gone(has_failed: bool, ended: Option<Duration>, now: Duration) -> bool
    ensures { result ≡ is_gone has_failed ended now }
{
    match ended {
        _ if has_failed => true,
        Some(ended) => now.saturating_sub(ended) >= Duration::from_millis(GONE_MILLIS),
        None => false,
    }
}
