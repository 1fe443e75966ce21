ghost use Rattle.std.specs.Prelude.{◌≡◌, [], OnOk, IfErr};
ghost use Rattle.edge_traits.specs.Told.{Grew};
ghost use Rattle.edge_traits.specs.Causes.{Still};
ghost use Rattle.edge_traits.specs.Sends.{SentPart, SendStops};

use crate::{EdgeFault, Link};

/// Why not all bytes were sent.
#[derive(Clone, Copy, Debug, PartialEq, Eq, Drop)]
pub enum SendFault {
    /// A send failed.
    Failed,
    /// A send took no byte.
    Stopped,
    /// Memory ran out.
    Memory,
}

/// Sends all the bytes, by as many sends as it takes.
pub fn send_all<L: Link>(link: &mut L, bytes: &[u8]) -> Result<(), SendFault>
    ensures all { OnOk result (Grew (L.shows link.old).sent (L.shows link.new).sent bytes.now) }
    ensures running { OnOk result ((L.shows link.new).stopped ≡ (L.shows link.old).stopped) }
    ensures still { OnOk result (Still (L.shows link.old).faults (L.shows link.new).faults) }
    ensures part { IfErr result (λ _. SentPart bytes.now (L.shows link.old).sent (L.shows link.new).sent) }
    ensures stops { IfErr result (SendStops (L.shows link.old) (L.shows link.new)) }

    // Nothing is received, and the link stays the same one.
    ensures given { Grew (L.shows link.old).given (L.shows link.new).given [] }
    ensures ended { (L.shows link.new).ended ≡ (L.shows link.old).ended }
    ensures follows { L.follows link.old link.new }
{
    let mut sent = 0;
    while sent < bytes.len() {
        match link.send(&bytes[sent..]) {
            Ok(0) => return Err(SendFault::Stopped),
            Ok(count) => sent += count,
            Err(EdgeFault::Failed) => return Err(SendFault::Failed),
            Err(EdgeFault::Memory) => return Err(SendFault::Memory),
        }
    }
    Ok(())
}
