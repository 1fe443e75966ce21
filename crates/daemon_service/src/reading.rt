//! Reading the request of a connection.

ghost use Rattle.std.specs.Prelude.{◌≡◌, ◌<◌, [], length, IfOk, IfErr, OnOk};
ghost use Rattle.edge_traits.specs.Told.{Grew};
ghost use Rattle.edge_traits.specs.Causes.{Still};
ghost use Rattle.daemon_service.specs.Services.{LinkCause};
ghost use Rattle.daemon_service.specs.Parts.{Given, IsPiece, RequestIs, ReceiveStops};

use crate::Served;
use compile_request::{RequestReader, Step};
use edge_traits::{EdgeFault, Link};
use farm_types::Request;
use std::alloc::Global;

// Receives one piece into the room's front, after this many bytes.
fn receive_piece<L: Link>(link: &mut L, room: &mut [u8], have: u64) -> Result<usize, Served>
    requires { 0 < length room.old }
    ensures piece { IfOk result (λ count. IsPiece count room.new (L.shows link.old) (L.shows link.new)) }
    ensures stops { IfErr result (ReceiveStops have (L.shows link.old) (L.shows link.new)) }
    ensures sent { Grew (L.shows link.old).sent (L.shows link.new).sent [] }
    ensures stopped { (L.shows link.new).stopped ≡ (L.shows link.old).stopped }
    ensures follows { L.follows link.old link.new }
    ensures done { OnOk result (Still (L.shows link.old).faults (L.shows link.new).faults) }
    ensures cause { IfErr result (λ served. LinkCause served (L.shows link.old).faults (L.shows link.new).faults) }
{
    match link.recv(room) {
        Ok(0) => Err(Served::Cut { have }),
        Ok(count) => Ok(count),
        Err(EdgeFault::Failed) => Err(Served::LinkFault),
        Err(EdgeFault::Memory) => Err(Served::Memory),
    }
}

/// Receives until what was given is no longer short, through a room for pieces.
///
/// Each receive but the last gives at least one byte, and a short request has at most 34,615,331 bytes, so there are at
/// most 34,615,332 receives. Each turn costs what it received.
pub(crate) fn read_request<L: Link>(
    alloc: Global,
    link: &mut L,
    room: &mut [u8],
) -> Result<Request, Served>
    requires { 0 < length room.old }
    ensures given { Given (RequestIs result (L.shows link.old) (L.shows link.new)) (L.shows link.old).given (L.shows link.new).given }

    // Nothing is sent, and the link stays the same one.
    ensures sent { Grew (L.shows link.old).sent (L.shows link.new).sent [] }
    ensures stopped { (L.shows link.new).stopped ≡ (L.shows link.old).stopped }
    ensures follows { L.follows link.old link.new }
    ensures done { OnOk result (Still (L.shows link.old).faults (L.shows link.new).faults) }
    ensures cause { IfErr result (λ served. LinkCause served (L.shows link.old).faults (L.shows link.new).faults) }
{
    let mut reader = RequestReader::new(alloc);
    let mut have: u64 = 0;
    'receiving: loop {
        let count = receive_piece(link, room, have)?;
        match reader.feed(&room[..count]) {
            Step::More => have += count as u64,
            Step::Whole { request, .. } => return Ok(request),
            Step::Bad { at, fault } => return Err(Served::Refused { at, fault }),
            Step::Memory => return Err(Served::Memory),
        }
    }
}
