//! One connection.

ghost use Rattle.std.specs.Prelude.{◌≤◌, [], ◌∷◌};
ghost use Rattle.edge_traits.specs.Told.{Grew, SameRelation3};
ghost use Rattle.edge_traits.specs.Causes.{Still};
ghost use Rattle.edge_traits.specs.Doors.{DoorView};
ghost use Rattle.edge_traits.specs.Links.{IsNew};
ghost use Rattle.access_list.specs.Rules.{AreRight};
ghost use Rattle.daemon_worker.specs.Meetings.{Meets};
ghost use Rattle.daemon_worker.specs.Paths.{MetCalls};

use crate::{DaemonConfig, DoorKit, Met};
use access_list::Decision;
use daemon_service::serve_connection;
use edge_traits::{Door, EdgeFault, Station};
use std::alloc::Global;

// Serves or denies a connection that was accepted, and leaves it. One that is denied is left at once.
fn welcome<A: Door, S: Station>(
    alloc: Global,
    kit: &mut DoorKit<A, S>,
    mut link: A::Link,
    addr: u32,
    config: &DaemonConfig,
) -> Met
    requires new { IsNew (A.Link.shows link) }
    requires came { A.came kit.old.door link }
    requires right { AreRight config.now.access.rules }
    ensures meets { (old : DoorView) → Grew old.peers (A.shows kit.old.door).peers (addr ∷ []) → Grew old.visits (A.shows kit.old.door).visits [] → Still old.faults (A.shows kit.old.door).faults
        → Meets config.now.table.rows config.now.access.rules (S.ran kit.new.station) old (A.shows kit.new.door) (S.shows kit.old.station) (S.shows kit.new.station) result }
    ensures same { SameRelation3 (S.ran kit.old.station) (S.ran kit.new.station) }
    ensures door { (A.shows kit.old.door).faults ≤ (A.shows kit.new.door).faults }
    ensures faults { (S.shows kit.old.station).faults ≤ (S.shows kit.new.station).faults }
    ensures overruns { (S.shows kit.old.station).overruns ≤ (S.shows kit.new.station).overruns }
    ensures calls { MetCalls S.goes config.now.table.rows kit.old.station kit.new.station result }
{
    match config.access.decide(addr) {
        Decision::Denied { rule } => {
            kit.door.leave(link);
            Met::Denied { addr, rule }
        }
        Decision::Admitted { .. } => {
            let served = serve_connection(alloc, &mut link, &mut kit.station, &config.table);
            kit.door.leave(link);
            Met::Served(served)
        }
    }
}

/// Accepts a connection, serves it or denies it, and leaves it.
pub(crate) fn meet<A: Door, S: Station>(
    alloc: Global,
    kit: &mut DoorKit<A, S>,
    config: &DaemonConfig,
) -> Met
    requires right { AreRight config.now.access.rules }
    ensures meets { Meets config.now.table.rows config.now.access.rules (S.ran kit.new.station) (A.shows kit.old.door) (A.shows kit.new.door) (S.shows kit.old.station) (S.shows kit.new.station) result }
    ensures same { SameRelation3 (S.ran kit.old.station) (S.ran kit.new.station) }
    ensures door { (A.shows kit.old.door).faults ≤ (A.shows kit.new.door).faults }
    ensures faults { (S.shows kit.old.station).faults ≤ (S.shows kit.new.station).faults }
    ensures overruns { (S.shows kit.old.station).overruns ≤ (S.shows kit.new.station).overruns }
    ensures calls { MetCalls S.goes config.now.table.rows kit.old.station kit.new.station result }
{
    match kit.door.accept(alloc) {
        Ok((link, addr)) => welcome(alloc, kit, link, addr, config),
        Err(EdgeFault::Failed) => Met::DoorFault,
        Err(EdgeFault::Memory) => Met::DoorMemory,
    }
}
