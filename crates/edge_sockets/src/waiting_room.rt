// The connections that were accepted and that no door reads yet, of all doors on one listener.
ghost use Rattle.std.specs.Prelude.{◌≡◌, ℕ, Option, true, false};
ghost use Rattle.access_list.specs.Rules.{AreRight, decision};
ghost use Rattle.edge_sockets.specs.Views.{peer_bits};
ghost use Rattle.access_list.specs.declared.decision.Decision.TheVariants as decided;

use crate::accepting::{accept_at_once, accept_one};
use crate::notices::{Leaving, Visit, tell_visit};
use crate::pending::Pending;
use access_list::{AccessList, Decision};
use edge_streams::moment;
use mio::unix::SourceFd;
use mio::{Events, Interest, Poll, Token, Waker};
use std::alloc::{AllocError, Global};
use std::io::{self, Eprint, ErrorKind};
use std::net::{Net, OpenListener, OpenStream, SocketAddr};
use std::os::fd::AsRawFd;
use std::rt::Clock;
use std::time::Duration;

/// The connections that wait, and the poll that reports on them and on the listener.
#[derive(Drop)]
pub struct WaitingRoom<L, S> {
    /// A handle of the listener, on which the system reports.
    listener: L,
    poll: Poll,
    events: Events,
    places: Vec<Option<Pending<S>>>,
    /// How many places are taken. While none is, no place is looked at.
    taken: usize,
    /// The place where the bytes of one connection are looked at.
    scratch: Vec<u8>,
    access: AccessList,
    /// Whether the system reported a connection at the listener.
    is_called: bool,
}

/// How many connections wait at most.
const PLACES: usize = 512;

/// How many bytes of a connection are looked at. If that many wait, it is ready.
const SCRATCH: usize = 16_384;

/// How many events are read at once.
const EVENTS: usize = 128;

/// The token of the listener. Those of the connections are their places.
const LISTENER: Token = Token(PLACES);

/// The token of the waker, by which nothing comes but that the room is looked at.
const WAKER: Token = Token(PLACES + 1);

impl<L: AsRawFd + Drop, S: Drop> WaitingRoom<L, S> {
    /// An empty room for the connections of this listener. Those of peers that these rules deny are ready at once.
    pub fn new<R: Net>(
        rt: &R,
        alloc: Global,
        listener: L,
        access: AccessList,
    ) -> io::Result<WaitingRoom<L, S>> {
        let places = free_places(alloc)?;
        let poll = poll_for(rt, &listener)?;
        Ok(WaitingRoom {
            listener,
            poll,
            events: Events::with_capacity(alloc, EVENTS)?,
            places,
            taken: 0,
            scratch: Vec::from_elem(alloc, 0u8, SCRATCH)?,
            access,
            is_called: false,
        })
    }
}

// Places without a connection.
fn free_places<S: Drop>(alloc: Global) -> Result<Vec<Option<Pending<S>>>, AllocError> {
    let mut places = Vec::with_capacity(alloc, PLACES)?;
    for _ in 0..PLACES {
        places.push(None)?;
    }
    Ok(places)
}

// A poll that reports on a listener.
fn poll_for<R: Net, L: AsRawFd>(rt: &R, listener: &L) -> io::Result<Poll> {
    let poll = Poll::new(rt)?;
    let descriptor = listener.as_raw_fd();
    poll.registry()
        .register(&mut SourceFd(&descriptor), LISTENER, Interest::READABLE)?;
    Ok(poll)
}

impl<L: OpenListener, S> WaitingRoom<L, S> {
    /// The next connection of the listener, with the peer's address.
    pub fn accept(&self) -> io::Result<(L::Stream, SocketAddr)> {
        self.listener.accept()
    }
}

impl<L: AsRawFd, S> WaitingRoom<L, S> {
    /// Asks the system again whether the listener has a connection.
    pub fn ask_again(&mut self) -> io::Result<()> {
        self.is_called = false;
        let descriptor = self.listener.as_raw_fd();
        self.poll
            .registry()
            .reregister(&mut SourceFd(&descriptor), LISTENER, Interest::READABLE)
    }
}

impl<L, S> WaitingRoom<L, S> {
    /// What ends a wait of the room from another thread.
    pub fn waker(&self) -> io::Result<Waker> {
        Waker::new(self.poll.registry(), WAKER)
    }

    /// Whether the system reported a connection at the listener, and a place is free, or can be made free since none in the room is ready.
    pub fn takes_more(&self) -> bool {
        self.is_called && !(self.free_place().is_none() && self.has_ready())
    }

    /// The listener has no connection, until the system reports one.
    pub fn forget_call(&mut self) {
        self.is_called = false;
    }

    /// Whether one is ready.
    pub fn has_ready(&self) -> bool {
        self.oldest(true).is_some()
    }

    fn free_place(&self) -> Option<usize> {
        for (at, place) in self.places.iter().enumerate() {
            if place.is_none() {
                return Some(at);
            }
        }
        None
    }

    /// The place of the one that has waited longest of those that are ready, or of those that aren't.
    fn oldest(&self, is_ready: bool) -> Option<usize> {
        if self.taken == 0 {
            return None;
        }
        let mut found: Option<(usize, Duration)> = None;
        for (at, place) in self.places.iter().enumerate() {
            let Some(pending) = place else {
                continue;
            };
            if pending.is_ready() != is_ready {
                continue;
            }
            let is_older = match found {
                Some((_, begun)) => pending.begun < begun,
                None => true,
            };
            if is_older {
                found = Some((at, pending.begun));
            }
        }
        Some(found?.0)
    }

    fn remove(&mut self, at: usize) -> Option<Pending<S>> {
        let pending = self.places.get_mut(at)?.take()?;
        self.taken = self.taken.saturating_sub(1);
        Some(pending)
    }

    /// Whether the rules deny this peer.
    fn denies(&self, peer: u32) -> bool
        ensures admitted { (rule : Option ℕ) → decision self.now.access.rules peer ≡ decided.Admitted rule → result ≡ false }
        ensures denied { (rule : Option ℕ) → AreRight self.now.access.rules → decision self.now.access.rules peer ≡ decided.Denied rule → result ≡ true }
    {
        self.access.is_right() && matches!(self.access.decide(peer), Decision::Denied { .. })
    }
}

impl<L, S: OpenStream + AsRawFd + Drop> WaitingRoom<L, S> {
    /// Takes in a connection of the peer with this IPv4 address. If there is no place, the one that has waited longest
    /// of those that aren't ready is left. If all are ready, the new one is closed.
    pub fn take_in<R: Eprint + Clock>(
        &mut self,
        rt: &R,
        stream: S,
        peer: SocketAddr,
        address: u32,
    ) {
        if self.free_place().is_none() {
            self.leave_oldest(rt);
        }
        let Some(at) = self.free_place() else {
            return;
        };
        let mut pending = Pending::new(stream, peer, moment(rt), self.denies(address));
        pending.watch(&self.poll, Token(at));
        if let Some(place) = self.places.get_mut(at) {
            *place = Some(pending);
            self.taken = self.taken.saturating_add(1);
        }
    }

    /// Looks at those of which something came.
    pub fn look(&mut self, alloc: Global) {
        if self.taken == 0 {
            return;
        }
        for place in self.places.iter_mut() {
            if let Some(pending) = place {
                pending.look(alloc, self.scratch.as_mut_slice());
            }
        }
    }

    /// Takes out the one that has waited longest of those that are ready.
    pub fn take_ready(&mut self) -> Option<Pending<S>> {
        let at = self.oldest(true)?;
        let mut pending = self.remove(at)?;
        pending.release(&self.poll);
        Some(pending)
    }
}

impl<L: OpenListener<Stream = S> + AsRawFd, S: OpenStream + AsRawFd + Drop> WaitingRoom<L, S> {
    /// Takes in the next connection of the listener, and answers whether it had one. If one is ready, a refusal of the next is no error.
    pub fn take_next_in<R: Eprint + Clock>(&mut self, rt: &R) -> io::Result<bool> {
        match accept_one(rt, self) {
            Ok((stream, peer)) => {
                self.take_in(rt, stream, peer, ipv4_of(peer));
                self.ask_again()?;
                Ok(true)
            }
            Err(error) if error.kind() == ErrorKind::WouldBlock => {
                self.forget_call();
                Ok(false)
            }
            Err(_) if self.has_ready() => Ok(false),
            Err(error) => Err(error),
        }
    }

    /// What is to be done while no door is idle: takes in what has come, without waiting, and leaves those who are denied and those who have waited for
    /// too long.
    pub fn attend<R: Eprint + Clock>(&mut self, rt: &R, alloc: Global) {
        if self.hear(Some(Duration::ZERO)).is_err() {
            return;
        }
        for _ in 0..PLACES {
            if !self.takes_more() {
                break;
            }
            let Some((stream, peer)) = accept_at_once(rt, self) else {
                let _ = self.ask_again();
                break;
            };
            self.take_in(rt, stream, peer, ipv4_of(peer));
        }
        self.look(alloc);
        self.leave_denied(rt);
        self.leave_late(rt);
    }
}

impl<L, S: Drop> WaitingRoom<L, S> {
    /// Leaves those whom the rules deny.
    fn leave_denied<R: Eprint + Clock>(&mut self, rt: &R) {
        if self.taken == 0 {
            return;
        }
        for at in 0..PLACES {
            if matches!(self.places.get(at), Some(Some(pending)) if pending.leaving() == Leaving::Denied)
            {
                self.leave(rt, at, Leaving::Denied);
            }
        }
    }

    /// Leaves the one that has waited longest of those that aren't ready, if there is one.
    pub fn leave_oldest<R: Eprint + Clock>(&mut self, rt: &R) -> bool {
        match self.oldest(false) {
            Some(at) => {
                self.leave(rt, at, Leaving::Displaced);
                true
            }
            None => false,
        }
    }

    /// Leaves those that have waited for too long.
    pub fn leave_late<R: Eprint + Clock>(&mut self, rt: &R) {
        let now = moment(rt);
        for _ in 0..PLACES {
            let Some(at) = self.oldest(false) else {
                return;
            };
            if !self.time_left(at, now).is_zero() {
                return;
            }
            self.leave(rt, at, Leaving::Late);
        }
    }

    fn time_left(&self, at: usize, now: Duration) -> Duration {
        match self.places.get(at) {
            Some(Some(pending)) => pending.time_left(now),
            _ => Duration::ZERO,
        }
    }

    fn leave<R: Eprint + Clock>(&mut self, rt: &R, at: usize, leaving: Leaving) {
        let Some(pending) = self.remove(at) else {
            return;
        };
        let visit = Visit {
            peer: &pending.peer,
            leaving,
            was_given: pending.was_given,
            exchange: None,
            lookup: None,
            begun: pending.begun,
        };
        tell_visit(rt, &visit);
    }

    /// Waits until something comes, or one has waited for too long.
    pub fn wait<R: Clock>(&mut self, rt: &R) -> io::Result<()> {
        let time = match self.oldest(false) {
            Some(at) => Some(self.time_left(at, moment(rt))),
            None => None,
        };
        self.hear(time)
    }

    /// Waits for so long at most until something comes.
    pub fn hear(&mut self, time: Option<Duration>) -> io::Result<()> {
        self.poll.poll(&mut self.events, time)?;
        for event in &self.events {
            let Token(at) = event.token();
            if at == PLACES {
                self.is_called = true;
            } else if let Some(Some(pending)) = self.places.get_mut(at) {
                pending.notice(event);
            }
        }
        Ok(())
    }
}

/// The IPv4 address as a number. A listener on an IPv4 address has no other peers.
pub fn ipv4_of(peer: SocketAddr) -> u32
    ensures { result ≡ peer_bits peer }
{
    match peer {
        SocketAddr::V4(peer) => peer.ip().to_bits(),
        SocketAddr::V6(_) => 0,
    }
}
