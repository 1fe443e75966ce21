//! The connections of one door.

ghost use Rattle.std.specs.Prelude.{◌≡◌, ◌+◌, ◌<◌, ◌≤◌, [], ◌∷◌, ◌++◌, vec_len, vec_capacity};
ghost use Rattle.edge_traits.specs.Told.{SameRelation3};
ghost use Rattle.access_list.specs.Rules.{AreRight};
ghost use Rattle.daemon_worker.specs.Logs.{LogGrew};
ghost use Rattle.daemon_worker.specs.Paths.{PathGrew};

use crate::meeting::meet;
use crate::{DaemonConfig, DoorKit, Entry};
use edge_traits::{Door, Station};
use std::alloc::Global;

/// Adds an entry to the log, into room that it has.
pub(crate) fn note(log: &mut Vec<Entry>, entry: Entry)
    requires { vec_len log.old < vec_capacity log.old }
    ensures items { log.new.items ≡ log.old.items ++ entry ∷ [] }
    ensures len { vec_len log.new ≡ vec_len log.old + 1 }
    ensures capacity { vec_capacity log.old ≤ vec_capacity log.new }
{
    log.push_reserved(entry);
}

/// Serves the connections of one door, one after the other: `config.serve` of them, or fewer if the door fails or memory runs out at it. Each is
/// added to the log, into room that it has.
pub fn serve_door<A: Door, S: Station>(
    alloc: Global,
    door: u32,
    kit: &mut DoorKit<A, S>,
    config: &DaemonConfig,
    log: &mut Vec<Entry>,
)
    requires right { AreRight config.now.access.rules }
    requires room { vec_len log.old + config.now.serve ≤ vec_capacity log.old }
    ensures served { LogGrew config.now.table.rows config.now.access.rules config.now.serve door (S.ran kit.new.station)
        (A.shows kit.old.door) (A.shows kit.new.door) (S.shows kit.old.station) (S.shows kit.new.station) log.old.items log.new.items }
    ensures path { PathGrew S.goes config.now.table.rows door kit.old.station kit.new.station log.old.items log.new.items }
    ensures same { SameRelation3 (S.ran kit.old.station) (S.ran kit.new.station) }
    ensures len { vec_len log.new ≤ vec_len log.old + config.now.serve }
    ensures capacity { vec_capacity log.old ≤ vec_capacity log.new }
{
    let serve = config.serve;
    let mut number = 0;
    'serving: while number < serve {
        number += 1;
        let what = meet(alloc, kit, config);
        note(log, Entry { door, number, what });
        if what.stops() {
            return;
        }
    }
}
