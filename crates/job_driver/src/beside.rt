//! Workers, and a watcher beside them.
ghost use Rattle.std.specs.Prelude.{◌≡◌, ◌≤◌, [], length, map, vec_capacity};
ghost use Rattle.farm_cell.specs.Passes.{limits_of};
ghost use Rattle.job_driver.specs.Workers.{AreSlotsFor, IsReady, HasWorked};
ghost use Rattle.farm_machine.specs.Usable.{job_at};
ghost use Rattle.job_driver.specs.Watching.{worker_of, marker_of, HasMarkedOff};

use crate::marker::Marker;
use crate::run::JobPlan;
use crate::worker::work;
use crate::workers::Worker;
use edge_traits::{Clock, Dialer, Keeper, Kit, Station};
use farm_cell::{Cell, Held};
use kit_types::Observed;
use std::sync::Wait;

/// A worker, with what marks how far it has come.
pub struct Marked<D, S, K, C> {
    pub worker: Worker<D, S, K, C>,
    pub marker: Marker,
}

/// One worker does jobs until there are none, and marks each.
pub fn work_marked<R: Wait, D: Dialer, S: Station, K: Keeper, C: Clock>(
    rt: &R,
    plan: JobPlan<'_>,
    cell: &Cell<16, 34>,
    marked: &mut Marked<D, S, K, C>,
)
    requires slots { AreSlotsFor plan.jobs.now plan.config.now (limits_of cell.now) }
    requires ready { IsReady ⟦<Kit<D, S, K, C> as Observed>⟧.devices cell.now (length plan.jobs.now) marked.old.worker }
    ensures worked { HasWorked ⟦<Kit<D, S, K, C> as Observed>⟧.devices cell.now
        (job_at plan.entry.jobs.now plan.entry.config.now) plan.entry.config.now.period marked.old.worker marked.new.worker }
    ensures marked { HasMarkedOff marked.old.marker marked.new.marker marked.new.worker.reserve.reports.items }
{
    let mut held = Held::new(rt, cell, &mut marked.worker.pass);
    work(
        rt,
        plan,
        &mut held,
        &mut marked.worker.kit,
        &mut marked.worker.reserve,
        &mut marked.marker,
    );
}

/// Each worker gets a marker. The room for the pairs was taken before.
pub fn pair<D: Drop, S: Drop, K: Drop, C: Drop>(
    workers: &mut Vec<Worker<D, S, K, C>>,
    markers: &mut Vec<Marker>,
    pairs: &mut Vec<Marked<D, S, K, C>>,
)
    requires markers { length markers.old.items ≡ length workers.old.items }
    requires none { pairs.old.items ≡ [] }
    requires room { length workers.old.items ≤ vec_capacity pairs.old }
    ensures workers { (workers.new.items ≡ []) × (map worker_of pairs.new.items ≡ workers.old.items) }
    ensures markers { (markers.new.items ≡ []) × (map marker_of pairs.new.items ≡ markers.old.items) }
    ensures room { (length pairs.new.items ≤ vec_capacity workers.new) × (length pairs.new.items ≤ vec_capacity markers.new) }
{
    while let Some(worker) = workers.pop() {
        let Some(marker) = markers.pop() else {
            unreachable!()
        };
        pairs.push_reserved(Marked { worker, marker });
    }
    pairs.reverse();
}

/// The workers and the markers go back to their places.
pub fn unpair<D: Drop, S: Drop, K: Drop, C: Drop>(
    pairs: &mut Vec<Marked<D, S, K, C>>,
    workers: &mut Vec<Worker<D, S, K, C>>,
    markers: &mut Vec<Marker>,
)
    requires empty { (workers.old.items ≡ []) × (markers.old.items ≡ []) }
    requires room { (length pairs.old.items ≤ vec_capacity workers.old) × (length pairs.old.items ≤ vec_capacity markers.old) }
    ensures pairs { pairs.new.items ≡ [] }
    ensures workers { workers.new.items ≡ map worker_of pairs.old.items }
    ensures markers { markers.new.items ≡ map marker_of pairs.old.items }
{
    while let Some(marked) = pairs.pop() {
        let Marked { worker, marker } = marked;
        workers.push_reserved(worker);
        markers.push_reserved(marker);
    }
    workers.reverse();
    markers.reverse();
}
