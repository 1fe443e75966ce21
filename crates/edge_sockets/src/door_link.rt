ghost use Rattle.std.specs.Prelude.{◌≡◌, ◌≢◌, ◌<◌, ◌≤◌, ◌||◌, ⊤, Err, refl, length, IfOk};
ghost use Rattle.std.specs.Io.KnownBytes.{ReadConsumes, WriteAppends};
ghost use Rattle.std.proofs.Common.{◌∙◌, sym};
ghost use Rattle.edge_traits.specs.Links.{IsNew, moved_none};
ghost use Rattle.edge_streams.specs.Counts.{call_faults};
ghost use Rattle.edge_sockets.specs.Views.{door_link_view, door_stream_of};

use crate::notices::{Leaving, Lookup, Visit, tell_visit};
use crate::pending::Pending;
use crate::tcp::TcpLink;
use edge_streams::{moment, read_by};
use edge_traits::{EdgeFault, Link};
use farm_types::{Bytes, HostName};
use std::alloc::Global;
use std::io::{Eprint, Read, Write};
use std::net::{OpenStream, Shutdown, SocketAddr};
use std::rt::Clock;
use std::time::Duration;

/// A connection that a door took in. It knows its peer, and since when the door has it.
#[derive(Drop)]
pub struct DoorLink<R, S> {
    rt: R,
    link: TcpLink<R, S>,
    peer: SocketAddr,
    leaving: Leaving,
    /// When the request is to be there, by the monotonic clock.
    request_end: Duration,
    /// When the reply is to be taken, once it was begun.
    reply_end: Option<Duration>,
}

impl<R: Clock + Copy, S: OpenStream> DoorLink<R, S> {
    /// A link on which nothing has happened yet. A receive waits until `REQUEST_SECS` from now, and a send until `REPLY_SECS` after the first.
    pub(crate) fn new(rt: R, alloc: Global, pending: Pending<S>) -> DoorLink<R, S>
        ensures { IsNew (door_link_view result) }
    {
        let request_end = moment(&rt).saturating_add(Duration::from_secs(REQUEST_SECS));
        let leaving = pending.leaving();
        let Pending {
            stream,
            peer,
            begun,
            ..
        } = pending;
        let nobody = HostName {
            text: Bytes::new(alloc),
        };
        DoorLink {
            rt,
            link: TcpLink::new(rt, stream, nobody, 0, begun),
            peer,
            leaving,
            request_end,
            reply_end: None,
        }
    }
}

/// How long a request may take in all from when a door got its connection: 10 minutes.
const REQUEST_SECS: u64 = 600;

/// How long its reply may take in all from the first send: 10 minutes.
const REPLY_SECS: u64 = 600;

impl<R: Drop, S: Read + OpenStream + Drop> DoorLink<R, S> {
    /// Ends the connection, and reports what passed. A peer that was sent nothing is left at once, with nothing more read.
    ///
    /// If bytes were sent, the sending side is shut. Then what the peer still sends is read until its end, for at most `LINGER_MILLIS` in all: a
    /// socket that is closed over unread bytes is reset, and its peer loses what it has not read by then.
    pub(crate) fn end<Q: Eprint + Clock>(self, rt: &Q, lookup: Option<Lookup>) {
        let exchange = self.link.taken_in();
        let visit = Visit {
            peer: &self.peer,
            leaving: self.leaving,
            was_given: exchange.asked.bytes > 0,
            exchange: Some(exchange),
            lookup,
            begun: self.link.begun(),
        };
        tell_visit(rt, &visit);
        if self.link.has_sent() {
            linger(rt, self.link.into_stream());
        }
    }
}

fn linger<R: Clock, S: Read + OpenStream + Drop>(rt: &R, mut stream: S) {
    if stream.shutdown(Shutdown::Write).is_err() {
        return;
    }
    let end = moment(rt).saturating_add(Duration::from_millis(LINGER_MILLIS));
    let mut room = [0u8; LINGER_ROOM];
    for _ in 0..u64::MAX {
        if !matches!(read_by(rt, &mut stream, &mut room, end), Ok(1..)) {
            return;
        }
    }
}

/// How long a door waits in all for a peer to end.
const LINGER_MILLIS: u64 = 1000;

/// How many bytes it reads at once.
const LINGER_ROOM: usize = 16_384;

impl<R: Clock, S: Read + Write + OpenStream> Link for DoorLink<R, S> {
    ghost shows = { door_link_view };

    ghost follows = { λ a b. (door_link_view a).origin ≡ (door_link_view b).origin };

    ghost may_give = { λ l sent given. ⊤ };

    ghost follows_itself = { λ l. refl };

    ghost follows_on = { λ a b c first second. first ∙ second };

    ghost origin_stays = { λ a b f. sym f };

    ghost may_give_stays = { λ a b f. record { kept = λ sent given may. may; back = λ sent given may. may } };

    fn send(&mut self, piece: &[u8]) -> Result<usize, EdgeFault>
        requires { 0 < length piece.now }
        ensures bound { IfOk result (λ n. n ≤ length piece.now) }
        ensures bytes { WriteAppends (S.Write.contents (door_stream_of self.old)) (S.Write.contents (door_stream_of self.new)) result piece.now }
        ensures origin { (door_link_view self.new).origin ≡ (door_link_view self.old).origin }
        ensures stopped { (door_link_view self.new).stopped ≡ ((door_link_view self.old).stopped || moved_none result) }
        ensures ended { (door_link_view self.new).ended ≡ (door_link_view self.old).ended }
        ensures memory { result ≢ Err EdgeFault.Memory }
        ensures faults { (door_link_view self.new).faults ≡ call_faults result (door_link_view self.old).faults }
    {
        let now = moment(&self.rt);
        let end = match self.reply_end {
            Some(end) => end,
            None => now.saturating_add(Duration::from_secs(REPLY_SECS)),
        };
        self.reply_end = Some(end);
        self.link.send_by(piece, end)
    }

    fn recv(&mut self, room: &mut [u8]) -> Result<usize, EdgeFault>
        requires { 0 < length room.old }
        ensures bound { IfOk result (λ n. n ≤ length room.old) }
        ensures bytes { ReadConsumes (S.Read.remaining (door_stream_of self.old)) (S.Read.remaining (door_stream_of self.new)) result room.new }
        ensures origin { (door_link_view self.new).origin ≡ (door_link_view self.old).origin }
        ensures ended { (door_link_view self.new).ended ≡ ((door_link_view self.old).ended || moved_none result) }
        ensures stopped { (door_link_view self.new).stopped ≡ (door_link_view self.old).stopped }
        ensures memory { result ≢ Err EdgeFault.Memory }
        ensures faults { (door_link_view self.new).faults ≡ call_faults result (door_link_view self.old).faults }
    {
        self.link.recv_by(room, self.request_end)
    }
}
