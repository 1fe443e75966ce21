//! The entry that a word of a host list is.

ghost use Rattle.std.specs.Prelude.{ℕ, ◌≡◌, ◌≤◌, length, IfOk, IfErr};
ghost use Rattle.host_list.specs.Names as names;
ghost use Rattle.host_list.specs.HostWords as words;
ghost use Rattle.host_list.specs.HostWords.{SpellsHost, EntryFault, begins_with_name};
ghost use Rattle.host_list.specs.Answers.{IsError};

use crate::fault::{FaultAt, HostError, HostFault};
use crate::parts::{Parts, read_parts};
use farm_types::limits::{HOST_NAME_MAX, PORT_DEFAULT};
use farm_types::{Bytes, Host, HostName};
use std::alloc::{AllocError, Global};

/// The limit of a host if none is given.
pub const LIMIT_DEFAULT: u8 = 4;
/// The limit of a local entry if none is given.
pub const LOCAL_LIMIT_DEFAULT: u8 = 2;

/// The name of this machine, reached without the network.
pub const LOCALHOST: &[u8] = b"localhost";

fn is_name_byte(byte: u8) -> bool
    ensures { result ≡ names.is_host_name_byte byte }
{
    byte.is_ascii_alphanumeric() || byte == b'.' || byte == b'-' || byte == b'_'
}

// How far a name can reach from the word's first byte on.
fn name_reach(word: &[u8]) -> usize
    ensures reach { result ≡ words.name_reach word.now }
    ensures within { result ≤ length word.now }
{
    if word.first() == Some(&b'-') {
        return 0;
    }
    for (at, byte) in word.iter().enumerate() {
        if at == HOST_NAME_MAX || !is_name_byte(*byte) {
            return at;
        }
    }
    word.len()
}

// Whether a name ends at its reach.
fn is_name_end(word: &[u8], reach: usize) -> bool
    requires { reach ≡ words.name_reach word.now }
    ensures { result ≡ begins_with_name word.now }
{
    0 < reach && (reach == word.len() || matches!(word.get(reach), Some(b':' | b'/')))
}

// The entry of a name with the port and limit that are given.
fn make_host(alloc: Global, name: &[u8], parts: Parts) -> Result<Host, AllocError>
    ensures { IfOk result (λ host. host ≡ words.host_of name.now parts.port parts.limit) }
{
    let local = name == LOCALHOST && parts.port.is_none();
    let limit = if local {
        LOCAL_LIMIT_DEFAULT
    } else {
        LIMIT_DEFAULT
    };
    Ok(Host {
        name: HostName {
            text: Bytes::from_slice(alloc, name)?,
        },
        port: parts.port.unwrap_or(PORT_DEFAULT),
        limit: parts.limit.unwrap_or(limit),
        local,
    })
}

/// Reads a word that names a host.
pub fn read_host(alloc: Global, word: &[u8]) -> Result<Host, HostError>
    ensures meant { IfOk result (λ host. SpellsHost word.now host) }
    ensures fault { IfErr result (λ e. IsError (EntryFault word.now) e) }
    ensures place { IfErr result (λ e. IsError (λ at _. at ≤ length word.now) e) }
{
    let reach = name_reach(word);
    if !is_name_end(word, reach) {
        return Err(HostError::from(FaultAt {
            at: reach,
            fault: HostFault::BadName,
        }));
    }
    let parts = read_parts(word, reach)?;
    Ok(make_host(alloc, &word[..reach], parts)?)
}
