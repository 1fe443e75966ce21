//! What devices in memory follow.

use crate::devices::numbers;
use edge_memory::{LinkScript, LinkScripts, MemDoor, MemStation, Moves, Peers};
use edge_traits::CallNumbers;
use farm_types::Bytes;
use std::alloc::{AllocError, Global};

/// `scc -c a.i -o a.o` on one line of source: 120 bytes.
pub const REQUEST: &[u8] =
    b"DIST00000001ARGC00000005ARGV00000003sccARGV00000002-cARGV00000003a.iARGV00000002-oARGV00000003a.oDOTI0000000bint a = 1;\n";

/// The reply of success, 73 bytes with an object of 13.
pub const REPLY: &[u8] =
    b"DONE00000001STAT00000000SERR00000000SOUT00000000DOTO0000000dSCO1\ndef a 1\n";

fn peers_of(alloc: Global, list: &[u32]) -> Result<Peers, AllocError> {
    let mut peers = Peers::new(alloc);
    for peer in list {
        peers.try_push(*peer)?;
    }
    Ok(peers)
}

// A link that gives this text, at most 50 bytes by one call.
fn plain_script(alloc: Global, text: &[u8]) -> Result<LinkScript, AllocError> {
    let gives = Bytes::from_slice(alloc, text)?;
    Ok(LinkScript {
        gives,
        moves: Moves {
            fails: CallNumbers::new(alloc),
            zeros: CallNumbers::new(alloc),
            most: 50,
        },
    })
}

fn links(alloc: Global, gives: &[&[u8]]) -> Result<LinkScripts, AllocError> {
    let mut links = LinkScripts::new(alloc);
    for text in gives {
        links.try_push(plain_script(alloc, text)?)?;
    }
    Ok(links)
}

/// A door whose links give these texts, at most 50 bytes by one call, from these peers, and of which these accepts fail.
pub fn door(
    alloc: Global,
    gives: &[&[u8]],
    peers: &[u32],
    fails: &[u64],
) -> Result<MemDoor, AllocError> {
    let fails = numbers(alloc, fails)?;
    let peers = peers_of(alloc, peers)?;
    let links = links(alloc, gives)?;
    Ok(MemDoor::new(alloc, links, peers, fails))
}

/// How many runs a station has made.
pub fn runs_of(alloc: Global, station: MemStation) -> Result<usize, AllocError> {
    Ok(station.into_runs().into_items(alloc)?.len())
}
