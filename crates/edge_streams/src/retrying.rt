// Calls that a signal interrupted are made again.
ghost use Rattle.std.specs.Prelude.{◌≡◌, ◌≢◌, ◌≤◌, ◌-◌, length, None, IfSome, IfOk, IfErr};
ghost use Rattle.std.specs.Duration.{as_nanos};
ghost use Rattle.std.specs.IoError.{error_kind};
ghost use Rattle.std.specs.Io.{WritesAtMost};
ghost use Rattle.std.specs.Io.KnownBytes.{ReadConsumes, WriteAppends};

use crate::clock::moment;
use std::io;
use std::io::{ErrorKind, Read, Write};
use std::net::OpenStream;
use std::rt::Clock;
use std::time::Duration;

/// One read. An interrupted one is made again.
#[tactic(auto, using(crate::proofs::KnownLemmas::kept_bytes))]
pub fn read_once<S: Read>(stream: &mut S, room: &mut [u8]) -> io::Result<usize>
    ensures bound { IfOk result (λ n. n ≤ length room.old) }
    ensures bytes { ReadConsumes (S.remaining stream.old) (S.remaining stream.new) result room.new }
    ensures retried { IfErr result (λ error. error_kind error ≢ ErrorKind.Interrupted) }
{
    for _ in 0..u64::MAX {
        match stream.read(room) {
            Ok(count) => return Ok(count),
            Err(error) => {
                if error.kind() != ErrorKind::Interrupted {
                    return Err(error);
                }
            }
        }
    }
    Err(io::Error::from(ErrorKind::Other))
}

/// One write. An interrupted one is made again.
#[tactic(auto, using(crate::proofs::KnownLemmas::kept_bytes))]
pub fn write_once<S: Write>(stream: &mut S, piece: &[u8]) -> io::Result<usize>
    ensures bound { WritesAtMost result piece.now }
    ensures bytes { WriteAppends (S.contents stream.old) (S.contents stream.new) result piece.now }
    ensures retried { IfErr result (λ error. error_kind error ≢ ErrorKind.Interrupted) }
{
    for _ in 0..u64::MAX {
        match stream.write(piece) {
            Ok(count) => return Ok(count),
            Err(error) => {
                if error.kind() != ErrorKind::Interrupted {
                    return Err(error);
                }
            }
        }
    }
    Err(io::Error::from(ErrorKind::Other))
}

/// One read that waits to this moment of the monotonic clock at most. An interrupted one is made again, with what is left of the time.
#[tactic(auto, using(crate::proofs::KnownLemmas::kept_bytes))]
pub fn read_by<R: Clock, S: Read + OpenStream>(
    rt: &R,
    stream: &mut S,
    room: &mut [u8],
    end: Duration,
) -> io::Result<usize>
    ensures bound { IfOk result (λ n. n ≤ length room.old) }
    ensures bytes { ReadConsumes (S.remaining stream.old) (S.remaining stream.new) result room.new }
    ensures retried { IfErr result (λ error. error_kind error ≢ ErrorKind.Interrupted) }
{
    for _ in 0..u64::MAX {
        let Some(left) = time_left(moment(rt), end) else {
            return Err(io::Error::from(ErrorKind::TimedOut));
        };
        let _ = stream.set_read_timeout(Some(left));
        match stream.read(room) {
            Ok(count) => return Ok(count),
            Err(error) => {
                if error.kind() != ErrorKind::Interrupted {
                    return Err(error);
                }
            }
        }
    }
    Err(io::Error::from(ErrorKind::Other))
}

/// One write that waits to this moment of the monotonic clock at most. An interrupted one is made again, with what is left of the time.
#[tactic(auto, using(crate::proofs::KnownLemmas::kept_bytes))]
pub fn write_by<R: Clock, S: Write + OpenStream>(
    rt: &R,
    stream: &mut S,
    piece: &[u8],
    end: Duration,
) -> io::Result<usize>
    ensures bound { WritesAtMost result piece.now }
    ensures bytes { WriteAppends (S.contents stream.old) (S.contents stream.new) result piece.now }
    ensures retried { IfErr result (λ error. error_kind error ≢ ErrorKind.Interrupted) }
{
    for _ in 0..u64::MAX {
        let Some(left) = time_left(moment(rt), end) else {
            return Err(io::Error::from(ErrorKind::TimedOut));
        };
        let _ = stream.set_write_timeout(Some(left));
        match stream.write(piece) {
            Ok(count) => return Ok(count),
            Err(error) => {
                if error.kind() != ErrorKind::Interrupted {
                    return Err(error);
                }
            }
        }
    }
    Err(io::Error::from(ErrorKind::Other))
}

/// The time from this moment to an end, if the end is still to come.
fn time_left(now: Duration, end: Duration) -> Option<Duration>
    ensures none { as_nanos end ≤ as_nanos now → result ≡ None }
    ensures left { IfSome result (λ left. as_nanos left ≡ as_nanos end - as_nanos now) }
{
    let left = end.saturating_sub(now);
    if left.is_zero() { None } else { Some(left) }
}
