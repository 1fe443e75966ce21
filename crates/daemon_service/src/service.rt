ghost use Rattle.std.specs.Prelude.{◌≡◌, ◌≤◌, length, IfOk};
ghost use Rattle.farm_types.specs.Limits.{piece_max};
ghost use Rattle.edge_traits.specs.Told.{SameRelation3};
ghost use Rattle.daemon_service.specs.Services.{Service, IsUnused, LinkCause, StationCause};
ghost use Rattle.daemon_service.specs.Calls.{Calls};

use crate::compiling::make_outcome;
use crate::reading::read_request;
use crate::replying::reply;
use crate::{Compilers, Served};
use edge_traits::{Link, Station};
use farm_types::limits::PIECE_MAX;
use std::alloc::{AllocError, Global};

// Room for the pieces of a request.
fn make_room(alloc: Global) -> Result<Vec<u8>, AllocError>
    ensures { IfOk result (λ room. length room.items ≡ piece_max) }
{
    vec![in alloc; 0; PIECE_MAX]
}

/// Serves one connection: reads one request, makes at most one run, and writes one reply. The whole reply is there before its first byte is sent.
///
/// If the table doesn't name the request's first word, or the words aren't a compile of one source, the reply says so and nothing is run. Otherwise
/// the words that compile what was sent are run on the source, with the table's program in place of the first word. There are at most 34,615,332
/// receives. Bytes after a whole request are ignored.
pub fn serve_connection<L: Link, S: Station>(
    alloc: Global,
    link: &mut L,
    station: &mut S,
    table: &Compilers,
) -> Served
    requires { IsUnused (L.shows link.old) }
    ensures service { Service table.now.rows (S.ran station.new) (L.shows link.old) (L.shows link.new) (S.shows station.old) (S.shows station.new) result }
    ensures cause { LinkCause result (L.shows link.old).faults (L.shows link.new).faults }
    ensures station_cause { StationCause result (S.shows station.old) (S.shows station.new) }

    // The link stays the same one, what a run may leave is the same, and the station's counts don't fall.
    ensures follows { L.follows link.old link.new }
    ensures same { SameRelation3 (S.ran station.old) (S.ran station.new) }
    ensures faults { (S.shows station.old).faults ≤ (S.shows station.new).faults }
    ensures overruns { (S.shows station.old).overruns ≤ (S.shows station.new).overruns }

    // What the station says of its runs holds of the one that was made.
    ensures calls { Calls S.goes table.now.rows station.old station.new result }
{
    let Ok(mut room) = make_room(alloc) else {
        return Served::Memory;
    };
    let request = match read_request(alloc, link, &mut room) {
        Ok(request) => request,
        Err(served) => return served,
    };
    match make_outcome(alloc, station, table, &request) {
        Ok(outcome) => reply(alloc, link, &outcome),
        Err(served) => served,
    }
}
