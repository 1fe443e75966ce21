//! The parts of a host after its name.

ghost use Rattle.std.specs.Prelude.{ℕ, ◌≡◌, ◌≤◌, ◌+◌, true, not, length, drop, slice_range, IfOk, IfErr};
ghost use Rattle.std.specs.List.{AllPass};
ghost use Rattle.host_list.specs.HostWords.{is_separator, EndsPart, SpellsParts, WrongPart, PartFault};
ghost use Rattle.host_list.specs.Steps.{AddsPart};

use crate::fault::{FaultAt, HostFault};
use crate::number::{read_limit, read_port};
use memchr::memchr2;

/// The port and the limit of a host, if they are given.
#[derive(Clone, Copy, Debug)]
pub struct Parts {
    pub port: Option<u16>,
    pub limit: Option<u8>,
}

// The first separator from a place on, or the word's end.
fn part_end(word: &[u8], from: usize) -> usize
    requires { from ≤ length word.now }
    ensures low { from ≤ result }
    ensures high { result ≤ length word.now }
    ensures plain { AllPass (λ c. not (is_separator c)) (slice_range word.now from result) }
    ensures ends { EndsPart (drop result word.now) }
{
    match memchr2(b':', b'/', &word[from..]) {
        Some(len) => from + len,
        None => word.len(),
    }
}

// One part more.
fn read_part(parts: Parts, separator: u8, number: &[u8]) -> Result<Parts, HostFault>
    requires { is_separator separator ≡ true }
    ensures adds { IfOk result (λ more. AddsPart parts separator number.now more) }
    ensures wrong { IfErr result (λ fault. WrongPart separator parts.port parts.limit number.now fault) }
{
    if separator == b':' {
        match read_port(number) {
            Some(port) if parts.port.is_none() => Ok(Parts {
                port: Some(port),
                limit: parts.limit,
            }),
            _ => Err(HostFault::BadPort),
        }
    } else {
        match read_limit(number) {
            Some(limit) if parts.limit.is_none() => Ok(Parts {
                port: parts.port,
                limit: Some(limit),
            }),
            _ => Err(HostFault::BadLimit),
        }
    }
}

/// Reads what follows a name, which ends at this place.
pub fn read_parts(word: &[u8], from: usize) -> Result<Parts, FaultAt>
    requires within { from ≤ length word.now }
    requires ends { EndsPart (drop from word.now) }
    ensures parts { IfOk result (λ parts. SpellsParts parts.port parts.limit (drop from word.now)) }
    ensures fault { IfErr result (λ e. PartFault from (drop from word.now) e.at e.fault) }
    ensures place { IfErr result (λ e. e.at ≤ length word.now) }
{
    let mut parts = Parts {
        port: None,
        limit: None,
    };
    let mut at = from;
    while at < word.len() {
        let end = part_end(word, at + 1);
        match read_part(parts, word[at], &word[at + 1..end]) {
            Ok(more) => parts = more,
            Err(fault) => return Err(FaultAt { at: at + 1, fault }),
        }
        at = end;
    }
    Ok(parts)
}
