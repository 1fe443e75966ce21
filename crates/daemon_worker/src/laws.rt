//! Laws of a door's connections.

ghost use Rattle.std.specs.Prelude.{ℕ, List};
ghost use Rattle.std.specs.List.{flat_map};
ghost use Rattle.edge_traits.specs.Doors.{DoorView};
ghost use Rattle.edge_traits.specs.Stations.{StationView};
ghost use Rattle.access_list.specs.declared.rule.Rule.{Rule};
ghost use Rattle.daemon_service.specs.declared.compilers.Compiler.{Compiler};
ghost use Rattle.daemon_worker.specs.Connections.{Connection};
ghost use Rattle.daemon_worker.specs.Logs.{Did};
ghost use Rattle.daemon_worker.specs.Rightness.{AllRight, AreCalm, NoneFailed};

use edge_traits::Station;

/// If nothing failed and no send took nothing, each connection was answered by what it gave, or denied, or memory ran out. It does nothing. What runs
/// may leave is that of the station that is lent.
pub fn calm_doors_answer_rightly<S: Station>(_station: &S)
    ensures { (table : List Compiler) (rules : List Rule) (old new : DoorView) (before after : StationView) (cs : List Connection)
        → Did table rules (S.ran _station.now) old new before after cs → NoneFailed old new before after → AreCalm (flat_map (λ c. c.visits) cs) → AllRight cs }
{}
