// Lines on the standard error that say what failed and why, and what became of a connection. One that can't be written is dropped.
ghost use Rattle.std.specs.Prelude.{◌≡◌};
ghost use Rattle.std.specs.Option.{option_copied};
ghost use Rattle.edge_sockets.specs.Notices.{notices_by};

use crate::exchange::Exchange;
use edge_streams::Shown;
use farm_types::HostName;
use httpdate::HttpDate;
use std::fmt::{self, Display, Formatter};
use std::io::{Eprint, Error};
use std::net::SocketAddr;
use std::rt::Clock;
use std::time::Duration;

/// Why a connection was left.
#[derive(Clone, Copy, PartialEq, Eq)]
pub enum Leaving {
    /// Its door is done with it.
    Served,
    /// The rules deny its peer.
    Denied,
    /// Its request wasn't whole in time.
    Late,
    /// Its place was wanted for another before its request was whole.
    Displaced,
}

/// Whether an answer came from the cache.
#[derive(Clone, Copy, PartialEq, Eq)]
pub enum Lookup {
    Hit,
    Miss,
}

/// A connection that ends.
#[derive(Drop)]
pub struct Visit<'a> {
    pub peer: &'a SocketAddr,
    pub leaving: Leaving,
    /// Whether a byte of the peer's was seen.
    pub was_given: bool,
    /// What passed, if a door read it.
    pub exchange: Option<Exchange<'a>>,
    /// What the look into the cache came to, if the door has one.
    pub lookup: Option<Lookup>,
    /// The moment of the monotonic clock when it began.
    pub begun: Duration,
}

impl Visit<'_> {
    // What is said of the cache. Only an answer of status 0 is ever in it, so another without a run is no hit.
    fn lookup_text(&self) -> &'static str {
        let status = self
            .exchange
            .and_then(|exchange| exchange.answered.status());
        match (self.lookup, status) {
            (Some(Lookup::Miss), _) => ", miss",
            (Some(Lookup::Hit), Some(0)) => ", hit",
            _ => "",
        }
    }
}

/// `denied`, if the rules deny the peer. `sent nothing`, if no byte was seen. Else the exchange and what the look into the cache came to, if a
/// door read it, and otherwise `sent no whole request`. Then `, left for another`, if its place was wanted.
impl Display for Visit<'_> {
    fn fmt<W: fmt::Write>(&self, f: &mut Formatter<W>) -> fmt::Result {
        if self.leaving == Leaving::Denied {
            return f.write_str("denied");
        }
        match self.exchange {
            _ if !self.was_given => f.write_str("sent nothing")?,
            Some(exchange) => write!(f, "{exchange}{}", self.lookup_text())?,
            None => f.write_str("sent no whole request")?,
        }
        if self.leaving == Leaving::Displaced {
            f.write_str(", left for another")?;
        }
        Ok(())
    }
}

/// A connection ends: when, the peer, what became of it and how long it took.
pub fn tell_visit<R: Eprint + Clock>(rt: &R, visit: &Visit<'_>) {
    let took = millis_since(rt, visit.begun);
    let seconds = rt.since_1970().unwrap_or(Duration::ZERO).as_secs();
    let Ok(date) = HttpDate::from_unix_secs(seconds) else {
        return;
    };
    let _ = eprintln!(rt; "{date} {}: {visit}, {took} ms", visit.peer);
}

fn millis_since<R: Clock>(rt: &R, begun: Duration) -> u128 {
    let now = rt.monotonic().unwrap_or(Duration::ZERO);
    now.saturating_sub(begun).as_millis()
}

/// What is reported of exchanges with hosts.
#[derive(Clone, Copy, Debug, PartialEq, Eq)]
pub enum Notices {
    /// Nothing.
    Never,
    /// That a host wasn't reached, and that an exchange broke off, with the system's reason.
    Faults,
    /// Each exchange too.
    All,
}

impl Notices {
    /// What `FARM_NOTICES` asks for: nothing by `0`, all by `all`, and else the faults.
    pub fn by(value: Option<&str>) -> Notices
        ensures { result ≡ notices_by (option_copied value.entry) }
    {
        match value {
            Some("0") => Notices::Never,
            Some("all") => Notices::All,
            _ => Notices::Faults,
        }
    }
}

/// A host couldn't be reached, for the system's reason.
pub fn tell_unreached<R: Eprint>(rt: &R, notices: Notices, host: &str, port: u16, error: &Error) {
    if !matches!(notices, Notices::Never) {
        let _ = eprintln!(rt; "farm: {host}:{port}: {error}");
    }
}

/// An exchange with a host that ends.
#[derive(Drop)]
pub struct Parting<'a> {
    pub host: &'a HostName,
    pub port: u16,
    pub exchange: Exchange<'a>,
    /// The system's reason, if a send or a receive failed.
    pub failure: Option<&'a Error>,
    /// Whether the host ended the connection.
    pub ended: bool,
    /// The moment of the monotonic clock when it began.
    pub begun: Duration,
}

/// An exchange ends: why it isn't whole, if it isn't. With all notices also what became of it and how long it took.
pub fn tell_parting<R: Eprint + Clock>(rt: &R, notices: Notices, parting: &Parting<'_>) {
    if matches!(notices, Notices::Never) {
        return;
    }
    tell_broken(rt, parting);
    if matches!(notices, Notices::All) {
        let took = millis_since(rt, parting.begun);
        let _ = eprintln!(rt;
            "farm: {}:{}: {}, {took} ms",
            Shown(parting.host.text.as_slice()),
            parting.port,
            parting.exchange
        );
    }
}

/// The status of a reply of farmd that says that the compiler isn't in its table.
const UNKNOWN_COMPILER: u32 = 0x6e00;

fn tell_broken<R: Eprint>(rt: &R, parting: &Parting<'_>) {
    let host = Shown(parting.host.text.as_slice());
    let port = parting.port;
    let answered = parting.exchange.answered;
    let _ = if let Some(error) = parting.failure {
        eprintln!(rt; "farm: {host}:{port}: {error}")
    } else if parting.ended && answered.bytes > 0 {
        eprintln!(rt;
            "farm: {host}:{port}: the reply ends after {} bytes",
            answered.bytes
        )
    } else if let Some(reason) = parting.reason() {
        eprintln!(rt; "farm: {host}:{port}: {reason}")
    } else if answered.status() == Some(UNKNOWN_COMPILER) {
        eprintln!(rt;
            "farm: {host}:{port}: the compiler {} isn't in the host's table",
            parting.exchange.compiler()
        )
    } else {
        Ok(())
    };
}

impl Parting<'_> {
    // Why an exchange isn't whole that didn't break off in the middle of a reply.
    fn reason(&self) -> Option<&'static str> {
        let answered = self.exchange.answered;
        if self.ended {
            Some("no reply, as of a host that denies this one or couldn't run the compiler")
        } else if !answered.is_whole_reply() {
            Some("the reply wasn't taken to its end")
        } else if !answered.is_right_reply() {
            Some("the reply isn't one of this protocol's")
        } else {
            None
        }
    }
}

/// An accept is made again, for the system's reason.
pub fn tell_accept<R: Eprint>(rt: &R, error: &Error) {
    let _ = eprintln!(rt; "a connection can't be taken, the next is tried: {error}");
}

/// A door takes no connection any more, for the system's reason.
pub fn tell_door_end<R: Eprint>(rt: &R, error: &Error) {
    let _ = eprintln!(rt; "a door ends: {error}");
}

/// A door has no listener since the system gives no other handle of it.
pub fn tell_unshared<R: Eprint>(rt: &R, error: &Error) {
    let _ = eprintln!(rt; "a door can't share the listener: {error}");
}

/// Why there is no listener.
pub fn tell_closed<R: Eprint>(rt: &R, error: &Error) {
    let _ = eprintln!(rt; "the system's reason: {error}");
}
