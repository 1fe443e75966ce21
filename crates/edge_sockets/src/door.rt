ghost use Rattle.std.specs.Prelude.{◌≡◌, ◌≢◌, ⊤, false, IsTrue, IsSome, IfOk, Err};
ghost use Rattle.std.specs.Net.Addr.{IsIpv4OfBits};
ghost use Rattle.std.specs.Net.Socket.{v4_ip, v4_port};
ghost use Rattle.edge_traits.specs.Links.{IsNew};
ghost use Rattle.edge_streams.specs.Counts.{call_faults};
ghost use Rattle.edge_sockets.specs.Views.{door_link_view, door_view, counted_door, is_listening};

use crate::door_link::DoorLink;
use crate::door_watch::{DoorWatch, SharedWatch};
use crate::notices::{Lookup, tell_closed, tell_door_end, tell_unshared};
use crate::pending::Pending;
use crate::room::{Room, SharedRoom, Wants};
use crate::waiting_room::{WaitingRoom, ipv4_of};
use access_list::AccessList;
use edge_runs::{SharedNotes, remove_left};
use edge_streams::raise;
use edge_traits::{Door, EdgeFault};
use std::alloc::Global;
use std::io::{self, Eprint, Error, ErrorKind, Read, Write};
use std::net::{Ipv4Addr, Net, OpenListener, OpenStream, SocketAddrV4, TcpListener};
use std::os::fd::{AsRawFd, RawFd};
use std::rt::{Clock, Files};
use std::sync::{Arc, Mutex, Wait};
use std::time::Duration;

/// Takes connections in over TCP. Without a listener, each `accept` counts as a fault. A peer that is denied doesn't wait.
/// Connections wait in a room of 512 that the doors on one listener share, so that a slow peer holds no door.
/// One that isn't ready is left after 10 minutes.
/// When a connection is left, a line on the standard error says what became of it. docs/real-devices.md has the rest.
#[derive(Drop)]
pub struct TcpDoor<R, L, S> {
    rt: R,
    listener: Option<L>,
    room: Option<SharedRoom<L, S>>,
    refusal: Option<Error>,
    notes: Option<SharedNotes>,
    has_cache: bool,
    watch: Option<SharedWatch<R, L, S>>,
    faults: u64,
}

impl<R: Eprint + Net> TcpDoor<R, R::Listener, R::Stream> {
    /// A door on this IPv4 address and port. Port 0 is one that the system picks. Peers that the rules deny are handed out at once.
    pub fn open(
        rt: R,
        alloc: Global,
        address: u32,
        port: u16,
        access: AccessList,
    ) -> TcpDoor<R, R::Listener, R::Stream>
        ensures { door_view result ≡ counted_door 0 }
    {
        let (listener, room, refusal) = match listen(&rt, alloc, place_of(address, port), access) {
            Ok((listener, room)) => (Some(listener), Some(room), None),
            Err(error) => (None, None, Some(error)),
        };
        TcpDoor {
            rt,
            listener,
            room,
            refusal,
            notes: None,
            has_cache: false,
            watch: None,
            faults: 0,
        }
    }
}

impl<R: Eprint, L: OpenListener, S> TcpDoor<R, L, S> {
    /// A door without a listener.
    pub fn closed(rt: R) -> TcpDoor<R, L, S>
        ensures view { door_view result ≡ counted_door 0 }
        ensures listener { is_listening result ≡ false }
    {
        TcpDoor {
            rt,
            listener: None,
            room: None,
            refusal: None,
            notes: None,
            has_cache: false,
            watch: None,
            faults: 0,
        }
    }

    /// Another door on the same listener. It has no listener if this one has none, or if the system refuses another handle, which is reported.
    pub fn share(&self) -> TcpDoor<R, L, S>
    where
        R: Copy,
        ensures view { door_view result ≡ counted_door 0 }
        ensures listener { IsTrue (is_listening result) → IsTrue (is_listening self.now) }
    {
        let room = match &self.room {
            Some(room) => Arc::try_clone(room).ok(),
            None => None,
        };
        TcpDoor {
            rt: self.rt,
            listener: another(&self.rt, &self.listener),
            room,
            refusal: None,
            notes: None,
            has_cache: false,
            watch: None,
            faults: 0,
        }
    }

    /// The same door, which shares the notes of its station. When it leaves a connection it removes the folder of the run, before it shuts the sending
    /// side. If it has a cache, its line says whether the answer came from there.
    pub fn noting(mut self, notes: SharedNotes, has_cache: bool) -> TcpDoor<R, L, S>
        ensures view { door_view result ≡ door_view self }
        ensures listener { is_listening result ≡ is_listening self }
    {
        self.notes = Some(notes);
        self.has_cache = has_cache;
        self
    }

    /// Whether there is a listener.
    pub fn is_open(&self) -> bool
        ensures { result ≡ is_listening self.now }
    {
        self.listener.is_some()
    }

    /// Says on the standard error why there is no listener, if the system gave a reason.
    pub fn tell_refusal(&self) {
        if let Some(error) = &self.refusal {
            tell_closed(&self.rt, error);
        }
    }

    /// The port of the listener, if the system says it.
    pub fn port(&self) -> Option<u16>
        ensures { IsSome result → IsTrue (is_listening self.now) }
    {
        let place = self.listener.as_ref()?.local_addr().ok()?;
        Some(place.port())
    }
}

impl<R: Net + Copy, L: Drop, S: Drop> TcpDoor<R, L, S> {
    /// The same door, which has this watch look at the peer of each connection that it has.
    pub fn watching(mut self, watch: SharedWatch<R, L, S>) -> TcpDoor<R, L, S>
        ensures view { door_view result ≡ door_view self }
        ensures listener { is_listening result ≡ is_listening self }
    {
        self.watch = Some(watch);
        self
    }

    /// A watch for the runs of this door's connections.
    ///
    /// # Errors
    /// The system gives no descriptor for it, or memory runs out.
    pub fn watch(&self, alloc: Global) -> io::Result<DoorWatch<R, L, S>> {
        let room = match &self.room {
            Some(room) => Some(Arc::try_clone(room)?),
            None => None,
        };
        DoorWatch::new(self.rt, alloc, room)
    }
}

impl<R: Eprint + Clock + Wait + Copy + Files, L: OpenListener<Stream = S> + AsRawFd, S> Door
    for TcpDoor<R, L, S>
where
    S: Read + Write + OpenStream + AsRawFd + Drop,
{
    type Link = DoorLink<R, S>;

    ghost shows = { door_view };

    ghost came = { λ d l. ⊤ };

    ghost came_stays = { λ d a b came f. came };

    fn accept(&mut self, alloc: Global) -> Result<(DoorLink<R, S>, u32), EdgeFault>
        ensures new { IfOk result (λ accepted. IsNew (door_link_view accepted.0)) }
        ensures listener { is_listening self.new ≡ is_listening self.old }
        ensures closed { is_listening self.old ≡ false → result ≡ Err EdgeFault.Failed }
        ensures memory { result ≢ Err EdgeFault.Memory }
        ensures faults { (door_view self.new).faults ≡ call_faults result (door_view self.old).faults }
    {
        let (Some(_), Some(room)) = (&self.listener, &self.room) else {
            raise(&mut self.faults);
            return Err(EdgeFault::Failed);
        };
        match lead(&self.rt, alloc, room) {
            Ok(pending) => {
                if let Some(watch) = &self.watch {
                    watch.begin(&pending.stream);
                }
                let address = ipv4_of(pending.peer);
                Ok((DoorLink::new(self.rt, alloc, pending), address))
            }
            Err(error) => {
                tell_door_end(&self.rt, &error);
                raise(&mut self.faults);
                Err(EdgeFault::Failed)
            }
        }
    }

    fn leave(&mut self, link: DoorLink<R, S>)
        ensures listener { is_listening self.new ≡ is_listening self.old }
        ensures faults { (door_view self.new).faults ≡ (door_view self.old).faults }
    {
        let lookup = lookup_of(&self.notes, self.has_cache);
        remove_left(&self.rt, &self.notes);
        link.end(&self.rt, lookup);
    }
}

/// What the look into the cache came to, as the station noted. None if there is no cache, or there are no
/// notes.
fn lookup_of(notes: &Option<SharedNotes>, has_cache: bool) -> Option<Lookup> {
    let was_asked = notes.as_ref()?.take_asked();
    match (has_cache, was_asked) {
        (false, _) => None,
        (true, true) => Some(Lookup::Miss),
        (true, false) => Some(Lookup::Hit),
    }
}

/// A listener that doesn't wait, and an empty room for its connections.
fn listen<R: Net>(
    rt: &R,
    alloc: Global,
    place: SocketAddrV4,
    access: AccessList,
) -> io::Result<(R::Listener, SharedRoom<R::Listener, R::Stream>)> {
    let listener = TcpListener::bind(rt, place)?;
    listener.set_nonblocking(true)?;
    lengthen_queue(listener.as_raw_fd());
    let inside = WaitingRoom::new(rt, alloc, listener.try_clone()?, access)?;
    let wants = Wants::new(inside.waker()?);
    let room = Room {
        inside: Mutex::new(inside),
        wants,
    };
    Ok((listener, Arc::new(alloc, room)?))
}

/// Has the system keep more connections for a listener than the library asks for, as many come at once while all doors compile. If the system
/// refuses, it keeps as many as before.
fn lengthen_queue(listener: RawFd) {
    let _ = libc::net::listen(listener, QUEUE);
}

/// How many connections the system keeps until they are accepted. It may have a lower limit of its own.
const QUEUE: i32 = 1024;

/// Waits for the room, and then in it for a connection that is ready.
fn lead<
    R: Eprint + Clock + Wait,
    L: OpenListener<Stream = S> + AsRawFd,
    S: OpenStream + AsRawFd + Drop,
>(rt: &R, alloc: Global, room: &SharedRoom<L, S>) -> io::Result<Pending<S>> {
    let mut guard = room.inside.lock(rt);
    next_ready(rt, alloc, &mut *guard, &room.wants)
}

/// The connection that has waited longest of those that are ready. What the listener has is taken in first.
fn next_ready<
    R: Eprint + Clock,
    L: OpenListener<Stream = S> + AsRawFd,
    S: OpenStream + AsRawFd + Drop,
>(rt: &R, alloc: Global, room: &mut WaitingRoom<L, S>, wants: &Wants) -> io::Result<Pending<S>> {
    for _ in 0..u64::MAX {
        if wants.take() {
            room.leave_oldest(rt);
        }
        room.hear(Some(Duration::ZERO))?;
        room.look(alloc);
        if room.takes_more() && room.take_next_in(rt)? {
            continue;
        }
        if let Some(pending) = room.take_ready() {
            return Ok(pending);
        }
        room.leave_late(rt);
        room.wait(rt)?;
    }
    Err(Error::from(ErrorKind::Other))
}

/// Another handle of the listener, if there is one. A refusal of the system is reported.
fn another<R: Eprint, L: OpenListener>(rt: &R, listener: &Option<L>) -> Option<L>
    ensures { IsSome result → IsSome listener.now }
{
    match listener.as_ref()?.try_clone() {
        Ok(other) => Some(other),
        Err(error) => {
            tell_unshared(rt, &error);
            None
        }
    }
}

/// The IPv4 address and port to listen on.
fn place_of(address: u32, port: u16) -> SocketAddrV4
    ensures address { IsIpv4OfBits (v4_ip result) address }
    ensures port { v4_port result ≡ port }
{
    SocketAddrV4::new(Ipv4Addr::from_bits(address), port)
}
