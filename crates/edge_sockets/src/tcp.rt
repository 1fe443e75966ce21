ghost use Rattle.std.specs.Prelude.{◌≡◌, ◌≢◌, ◌<◌, ◌≤◌, ◌||◌, ⊤, Err, refl, length, IfOk, OnOk};
ghost use Rattle.std.specs.Str.{IsUtf8};
ghost use Rattle.std.specs.Io.KnownBytes.{ReadConsumes, WriteAppends};
ghost use Rattle.std.proofs.Common.{◌∙◌, sym};
ghost use Rattle.edge_traits.specs.Links.{IsFresh, moved_none};
ghost use Rattle.edge_streams.specs.Counts.{call_faults};
ghost use Rattle.edge_sockets.specs.Views.{link_view, stream_of, dialer_view, counted_dialer};

use crate::exchange::{Exchange, Tokens};
use crate::notices::{Notices, Parting, tell_parting, tell_unreached};
use edge_streams::{moment, raise, read_by, write_by};
use edge_traits::{Dialer, EdgeFault, Link};
use farm_types::HostName;
use std::alloc::Global;
use std::io::{Eprint, Error, Read, Write};
use std::net::{Net, OpenStream, TcpStream, ToSocketAddrs};
use std::rt::Clock;
use std::str;
use std::time::Duration;

/// A connection over TCP. It shuts neither of its sides before it is given back. It knows when it began, what passed, and why a call failed.
#[derive(Drop)]
pub struct TcpLink<R, S> {
    rt: R,
    stream: S,
    host: HostName,
    port: u16,
    ended: bool,
    stopped: bool,
    faults: u64,
    begun: Duration,
    /// How long a receive waits, and the send of one piece.
    idle: Duration,
    /// When the wait ends for a piece of which a part was sent, by the monotonic clock.
    sending: Option<Duration>,
    sent: Tokens,
    given: Tokens,
    failure: Option<Error>,
}

impl<R, S: OpenStream> TcpLink<R, S> {
    /// A link on which nothing has happened yet, at this moment of the monotonic clock. Small pieces are sent at once, if the system allows it.
    pub(crate) fn new(rt: R, stream: S, host: HostName, port: u16, begun: Duration) -> TcpLink<R, S>
        ensures fresh { IsFresh host port (link_view result) }
        ensures stream { stream_of result ≡ stream }
    {
        let _ = stream.set_nodelay(true);
        TcpLink {
            rt,
            stream,
            host,
            port,
            ended: false,
            stopped: false,
            faults: 0,
            begun,
            idle: Duration::from_secs(IDLE_SECS),
            sending: None,
            sent: Tokens::new(),
            given: Tokens::new(),
            failure: None,
        }
    }
}

impl<R: Drop, S> TcpLink<R, S> {
    /// The moment of the monotonic clock when it began.
    pub(crate) fn begun(&self) -> Duration {
        self.begun
    }

    /// Whether a byte was sent.
    pub(crate) fn has_sent(&self) -> bool {
        self.sent.bytes > 0
    }

    /// The exchange, if the peer asked.
    pub(crate) fn taken_in(&self) -> Exchange<'_> {
        Exchange {
            asked: &self.given,
            answered: &self.sent,
        }
    }

    /// How the exchange ends, if the peer was asked.
    fn parting(&self) -> Parting<'_> {
        Parting {
            host: &self.host,
            port: self.port,
            exchange: Exchange {
                asked: &self.sent,
                answered: &self.given,
            },
            failure: self.failure.as_ref(),
            ended: self.ended,
            begun: self.begun,
        }
    }

    /// The same link, on which a receive, and the send of one piece, waits for so long at most.
    fn waiting(mut self, idle: Duration) -> TcpLink<R, S>
        ensures view { link_view result ≡ link_view self }
        ensures stream { stream_of result ≡ stream_of self }
    {
        self.idle = idle;
        self
    }

    /// The connection itself.
    pub(crate) fn into_stream(self) -> S
        ensures { result ≡ stream_of self }
    {
        self.stream
    }
}

impl<R: Clock, S: Read + Write + OpenStream> TcpLink<R, S> {
    /// A send that waits to this moment of the monotonic clock at most.
    pub(crate) fn send_by(&mut self, piece: &[u8], end: Duration) -> Result<usize, EdgeFault>
        requires { 0 < length piece.now }
        ensures bound { IfOk result (λ n. n ≤ length piece.now) }
        ensures bytes { WriteAppends (S.Write.contents (stream_of self.old)) (S.Write.contents (stream_of self.new)) result piece.now }
        ensures origin { (link_view self.new).origin ≡ (link_view self.old).origin }
        ensures stopped { (link_view self.new).stopped ≡ ((link_view self.old).stopped || moved_none result) }
        ensures ended { (link_view self.new).ended ≡ (link_view self.old).ended }
        ensures memory { result ≢ Err EdgeFault.Memory }
        ensures faults { (link_view self.new).faults ≡ call_faults result (link_view self.old).faults }
    {
        match write_by(&self.rt, &mut self.stream, piece, end) {
            Ok(count) => {
                self.stopped |= count == 0;
                self.sent.pass(piece, count);
                Ok(count)
            }
            Err(error) => {
                self.failure = Some(error);
                raise(&mut self.faults);
                Err(EdgeFault::Failed)
            }
        }
    }

    /// A receive that waits to this moment of the monotonic clock at most.
    pub(crate) fn recv_by(&mut self, room: &mut [u8], end: Duration) -> Result<usize, EdgeFault>
        requires { 0 < length room.old }
        ensures bound { IfOk result (λ n. n ≤ length room.old) }
        ensures bytes { ReadConsumes (S.Read.remaining (stream_of self.old)) (S.Read.remaining (stream_of self.new)) result room.new }
        ensures origin { (link_view self.new).origin ≡ (link_view self.old).origin }
        ensures ended { (link_view self.new).ended ≡ ((link_view self.old).ended || moved_none result) }
        ensures stopped { (link_view self.new).stopped ≡ (link_view self.old).stopped }
        ensures memory { result ≢ Err EdgeFault.Memory }
        ensures faults { (link_view self.new).faults ≡ call_faults result (link_view self.old).faults }
    {
        match read_by(&self.rt, &mut self.stream, room, end) {
            Ok(count) => {
                self.ended |= count == 0;
                self.given.pass(room, count);
                Ok(count)
            }
            Err(error) => {
                self.failure = Some(error);
                raise(&mut self.faults);
                Err(EdgeFault::Failed)
            }
        }
    }

    /// The moment when a wait ends that begins now.
    fn idle_end(&self) -> Duration {
        moment(&self.rt).saturating_add(self.idle)
    }
}

impl<R: Clock, S: Read + Write + OpenStream> Link for TcpLink<R, S> {
    ghost shows = { link_view };

    ghost follows = { λ a b. (link_view a).origin ≡ (link_view b).origin };

    ghost may_give = { λ l sent given. ⊤ };

    ghost follows_itself = { λ l. refl };

    ghost follows_on = { λ a b c first second. first ∙ second };

    ghost origin_stays = { λ a b f. sym f };

    ghost may_give_stays = { λ a b f. record { kept = λ sent given may. may; back = λ sent given may. may } };

    fn send(&mut self, piece: &[u8]) -> Result<usize, EdgeFault>
        requires { 0 < length piece.now }
        ensures bound { IfOk result (λ n. n ≤ length piece.now) }
        ensures bytes { WriteAppends (S.Write.contents (stream_of self.old)) (S.Write.contents (stream_of self.new)) result piece.now }
        ensures origin { (link_view self.new).origin ≡ (link_view self.old).origin }
        ensures stopped { (link_view self.new).stopped ≡ ((link_view self.old).stopped || moved_none result) }
        ensures ended { (link_view self.new).ended ≡ (link_view self.old).ended }
        ensures memory { result ≢ Err EdgeFault.Memory }
        ensures faults { (link_view self.new).faults ≡ call_faults result (link_view self.old).faults }
    {
        let end = self.sending.unwrap_or(self.idle_end());
        let sent = self.send_by(piece, end);
        self.sending = match sent {
            Ok(count) if count < piece.len() => Some(end),
            _ => None,
        };
        sent
    }

    fn recv(&mut self, room: &mut [u8]) -> Result<usize, EdgeFault>
        requires { 0 < length room.old }
        ensures bound { IfOk result (λ n. n ≤ length room.old) }
        ensures bytes { ReadConsumes (S.Read.remaining (stream_of self.old)) (S.Read.remaining (stream_of self.new)) result room.new }
        ensures origin { (link_view self.new).origin ≡ (link_view self.old).origin }
        ensures ended { (link_view self.new).ended ≡ ((link_view self.old).ended || moved_none result) }
        ensures stopped { (link_view self.new).stopped ≡ (link_view self.old).stopped }
        ensures memory { result ≢ Err EdgeFault.Memory }
        ensures faults { (link_view self.new).faults ≡ call_faults result (link_view self.old).faults }
    {
        let end = self.idle_end();
        self.recv_by(room, end)
    }
}

/// How long an address of a host may take to answer a dial: 5 seconds.
const DIAL_SECS: u64 = 5;

/// How long a receive may wait, and how long the sends of one piece may take in all: 10 minutes.
pub const IDLE_SECS: u64 = 600;

/// Dials over TCP. A name is resolved by the system, and each of its addresses is tried in turn, each for at most `DIAL_SECS`. A receive that waits
/// for `IDLE_SECS` is a fault, and so is a piece that isn't sent whole by then. If the notices include it, a line on the standard error says why a
/// host isn't reached or why an exchange breaks off.
#[derive(Drop)]
pub struct TcpDialer<R> {
    rt: R,
    notices: Notices,
    idle: Duration,
    faults: u64,
}

impl<R: Net + Eprint + Clock> TcpDialer<R> {
    /// A dialer without faults so far.
    pub fn new(rt: R, notices: Notices) -> TcpDialer<R>
        ensures { dialer_view result ≡ counted_dialer 0 }
    {
        TcpDialer::waiting(rt, notices, Duration::from_secs(IDLE_SECS))
    }

    /// The same, on whose links a receive, and the send of one piece, waits for so long at most.
    pub fn waiting(rt: R, notices: Notices, idle: Duration) -> TcpDialer<R>
        ensures { dialer_view result ≡ counted_dialer 0 }
    {
        TcpDialer {
            rt,
            notices,
            idle,
            faults: 0,
        }
    }

    /// A stream to the host. It takes no memory.
    fn reach(&self, host: &HostName, port: u16) -> Result<R::Stream, EdgeFault>
        ensures name { OnOk result (IsUtf8 host.now.text) }
        ensures memory { result ≢ Err EdgeFault.Memory }
    {
        let Ok(text) = str::from_utf8(host.text.as_slice()) else {
            return Err(EdgeFault::Failed);
        };
        let places = match (text, port).to_socket_addrs(&self.rt) {
            Ok(places) => places,
            Err(error) => {
                tell_unreached(&self.rt, self.notices, text, port, &error);
                return Err(EdgeFault::Failed);
            }
        };
        let mut refusal = None;
        for place in places {
            let limit = Duration::from_secs(DIAL_SECS);
            match TcpStream::connect_timeout(&self.rt, &place, limit) {
                Ok(stream) => return Ok(stream),
                Err(error) => refusal = Some(error),
            }
        }
        if let Some(error) = &refusal {
            tell_unreached(&self.rt, self.notices, text, port, error);
        }
        Err(EdgeFault::Failed)
    }

    fn connect(&self, host: &HostName, port: u16) -> Result<TcpLink<R, R::Stream>, EdgeFault>
    where
        R: Copy + Drop,
        ensures fresh { IfOk result (λ link. IsFresh host.now port (link_view link)) }
        ensures name { IfOk result (λ link. IsUtf8 host.now.text) }
    {
        let name = host.copy()?;
        let stream = self.reach(host, port)?;
        let link = TcpLink::new(self.rt, stream, name, port, moment(&self.rt));
        Ok(link.waiting(self.idle))
    }
}

impl<R: Net + Eprint + Clock + Copy + Drop> Dialer for TcpDialer<R> {
    type Link = TcpLink<R, R::Stream>;

    ghost shows = { dialer_view };

    ghost came = { λ d l. ⊤ };

    ghost may_give = { λ d sent given. ⊤ };

    ghost came_stays = { λ d a b came f. came };

    fn dial(
        &mut self,
        _alloc: Global,
        host: &HostName,
        port: u16,
    ) -> Result<TcpLink<R, R::Stream>, EdgeFault>
        ensures fresh { IfOk result (λ link. IsFresh host.now port (link_view link)) }
        ensures name { IfOk result (λ link. IsUtf8 host.now.text) }
        ensures faults { (dialer_view self.new).faults ≡ call_faults result (dialer_view self.old).faults }
    {
        let link = self.connect(host, port);
        if matches!(link, Err(EdgeFault::Failed)) {
            raise(&mut self.faults);
        }
        link
    }

    fn hang_up(&mut self, link: TcpLink<R, R::Stream>)
        ensures { dialer_view self.new ≡ dialer_view self.old }
    {
        tell_parting(&self.rt, self.notices, &link.parting());
        drop(link);
    }
}
