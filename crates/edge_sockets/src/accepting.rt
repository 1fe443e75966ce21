// Accepts that are made again: after an error of the connection itself, and while the system lacks something that it may have again.
ghost use Rattle.std.specs.Prelude.{◌≡◌, ◌≢◌, OnOk, IfErr};
ghost use Rattle.std.specs.IoError.{error_kind};
ghost use Rattle.edge_sockets.specs.Accepting.{trouble_by};

use crate::notices::tell_accept;
use crate::waiting_room::WaitingRoom;
use std::io::{self, Eprint, Error, ErrorKind};
use std::net::{OpenListener, SocketAddr};
use std::rt::Clock;
use std::thread;
use std::time::Duration;

/// What an error of an accept says of the listener.
#[derive(Clone, Copy)]
enum Trouble {
    /// Nothing: a signal came, or the connection had failed by then. The next is taken.
    Passed,
    /// The system wants something that it may have again, as descriptors.
    Want,
    /// It takes no connection any more.
    Lasting,
}

/// One connection, with the peer's address. If a signal interrupted an accept, or its connection had failed by then, it is made again.
/// If the system lacks descriptors or memory, and no connection is ready, it is made again at most `WANTS_TRIED` times: after one connection whose
/// request isn't whole has left the room, or after a pause if there is none. Only the first error in
/// between is reported, and a signal isn't.
pub fn accept_one<R: Eprint + Clock, L: OpenListener<Stream = S>, S: Drop>(
    rt: &R,
    room: &mut WaitingRoom<L, S>,
) -> io::Result<(S, SocketAddr)>
    ensures retried { IfErr result (λ error. (error_kind error ≢ ErrorKind.Interrupted) × (error_kind error ≢ ErrorKind.ConnectionAborted)) }
{
    let mut told = false;
    let mut wants = 0u32;
    for _ in 0..u64::MAX {
        let error = match room.accept() {
            Ok(accepted) => return Ok(accepted),
            Err(error) => error,
        };
        match trouble_of(&error) {
            Trouble::Passed => {}
            Trouble::Want if wants < WANTS_TRIED && !room.has_ready() => {
                wants += 1;
                if !room.leave_oldest(rt) {
                    thread::sleep(rt, Duration::from_millis(WANT_PAUSE_MILLIS));
                }
            }
            Trouble::Want | Trouble::Lasting => return Err(error),
        }
        if !told && error.kind() != ErrorKind::Interrupted {
            tell_accept(rt, &error);
            told = true;
        }
    }
    Err(io::Error::from(ErrorKind::Other))
}

/// One connection, with the peer's address, if the system has one at once. If the system lacks descriptors or memory, one that isn't ready leaves the
/// room for it.
pub fn accept_at_once<R: Eprint + Clock, L: OpenListener<Stream = S>, S: Drop>(
    rt: &R,
    room: &mut WaitingRoom<L, S>,
) -> Option<(S, SocketAddr)> {
    for _ in 0..ACCEPTS_TRIED {
        let error = match room.accept() {
            Ok(accepted) => return Some(accepted),
            Err(error) => error,
        };
        match trouble_of(&error) {
            Trouble::Passed => {}
            Trouble::Want if room.leave_oldest(rt) => {}
            Trouble::Want | Trouble::Lasting => return None,
        }
    }
    None
}

fn trouble_of(error: &Error) -> Trouble
    ensures interrupted { error_kind error.now ≡ ErrorKind.Interrupted → result ≡ Trouble.Passed }
    ensures aborted { error_kind error.now ≡ ErrorKind.ConnectionAborted → result ≡ Trouble.Passed }
{
    if matches!(
        error.kind(),
        ErrorKind::Interrupted | ErrorKind::ConnectionAborted
    ) {
        return Trouble::Passed;
    }
    match error.raw_os_error() {
        Some(code) => trouble_by(code.cast_unsigned()),
        None => Trouble::Lasting,
    }
}

/// What Linux's numbers say, as accept(2) has it.
fn trouble_by(code: u32) -> Trouble
    ensures { result ≡ trouble_by code }
{
    match code {
        ENONET
        | EPROTO
        | ENOPROTOOPT
        | EOPNOTSUPP
        | ENETDOWN
        | ENETUNREACH
        | EHOSTDOWN
        | EHOSTUNREACH => Trouble::Passed,
        ENOMEM | ENFILE | EMFILE | ENOBUFS => Trouble::Want,
        _ => Trouble::Lasting,
    }
}

const ENOMEM: u32 = 12;

const ENFILE: u32 = 23;

const EMFILE: u32 = 24;

const ENONET: u32 = 64;

const EPROTO: u32 = 71;

const ENOPROTOOPT: u32 = 92;

const EOPNOTSUPP: u32 = 95;

const ENETDOWN: u32 = 100;

const ENETUNREACH: u32 = 101;

const ENOBUFS: u32 = 105;

const EHOSTDOWN: u32 = 112;

const EHOSTUNREACH: u32 = 113;

/// How often an accept is tried that waits for nothing.
const ACCEPTS_TRIED: u32 = 64;

/// How often an accept is tried again that wants something of the system.
const WANTS_TRIED: u32 = 600;

/// How long a pause before that is.
const WANT_PAUSE_MILLIS: u64 = 100;
