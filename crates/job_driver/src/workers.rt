//! Workers side by side, over the slots that they share.
ghost use Rattle.std.specs.Prelude.{◌≡◌, ℕ, ◌+◌, ◌<◌, ◌≤◌, [], IfOk, length, map, reverse, slice_index_or, vec_len, vec_capacity};
ghost use Rattle.std.specs.List.{flat_map};
ghost use Rattle.farm_cell.specs.Passes.{limits_of};
ghost use Rattle.job_driver.specs.Workers.{kit_of, pass_of, reserve_of, reports_on, AreReady, AreSlotsFor, HasRoom, IsReady, HasWorked};
ghost use Rattle.farm_machine.specs.Usable.{job_at};

use crate::marks::Unwatched;
use crate::run::JobPlan;
use crate::worker::work;
use edge_traits::{Clock, Dialer, Keeper, Kit, Station};
use farm_cell::{Cell, Held, Pass};
use farm_machine::Report;
use job_run::EventRoom;
use kit_types::Observed;
use std::alloc::{AllocError, Global};
use std::sync::Wait;
use std::thread;
use std::thread::Threads;

/// Room for the events of each job that a worker may do, and for their reports.
#[derive(Drop)]
pub struct Reserve {
    pub rooms: Vec<EventRoom>,
    pub reports: Vec<Report>,
}

impl Reserve {
    /// Takes the room for that many jobs.
    pub fn new(alloc: Global, jobs: usize) -> Result<Reserve, AllocError>
        ensures { IfOk result (λ reserve. HasRoom jobs reserve) }
    {
        let mut rooms = Vec::with_capacity(alloc, jobs)?;
        'taking: while rooms.len() < jobs {
            rooms.push(EventRoom::new(alloc)?)?;
        }
        let reports = Vec::with_capacity(alloc, jobs)?;
        Ok(Reserve { rooms, reports })
    }
}

/// One worker: its kit, its pass of the shared slots, and its reserve.
#[derive(Drop)]
pub struct Worker<D, S, K, C> {
    pub kit: Kit<D, S, K, C>,
    pub pass: Pass,
    pub reserve: Reserve,
}

/// One worker does jobs until there are none.
fn work_over<R: Wait, D: Dialer, S: Station, K: Keeper, C: Clock>(
    rt: &R,
    plan: JobPlan<'_>,
    cell: &Cell<16, 34>,
    worker: &mut Worker<D, S, K, C>,
)
    requires slots { AreSlotsFor plan.jobs.now plan.config.now (limits_of cell.now) }
    requires ready { IsReady ⟦<Kit<D, S, K, C> as Observed>⟧.devices cell.now (length plan.jobs.now) worker.old }
    ensures { HasWorked ⟦<Kit<D, S, K, C> as Observed>⟧.devices cell.now
        (job_at plan.entry.jobs.now plan.entry.config.now) plan.entry.config.now.period worker.old worker.new }
{
    let mut held = Held::new(rt, cell, &mut worker.pass);
    work(
        rt,
        plan,
        &mut held,
        &mut worker.kit,
        &mut worker.reserve,
        &mut Unwatched,
    );
}

/// Each worker does jobs until there are none, in a thread of its own if one can be made.
pub fn work_all<
    R: Threads + Wait + Sync,
    D: Dialer + Send,
    S: Station + Send,
    K: Keeper + Send,
    C: Clock + Send,
>(rt: &R, plan: JobPlan<'_>, cell: &Cell<16, 34>, workers: &mut Vec<Worker<D, S, K, C>>)
where
    D::Link: Send,
    requires slots { AreSlotsFor plan.jobs.now plan.config.now (limits_of cell.now) }
    requires ready { AreReady ⟦<Kit<D, S, K, C> as Observed>⟧.devices cell.now (length plan.jobs.now) workers.old.items }
    ensures len { (vec_len workers.new ≡ vec_len workers.old) × (length workers.new.items ≡ length workers.old.items) }
    ensures each { (number : ℕ) (d : _) → number < length workers.old.items →
        HasWorked ⟦<Kit<D, S, K, C> as Observed>⟧.devices cell.now (job_at plan.entry.jobs.now plan.entry.config.now) plan.entry.config.now.period
        (slice_index_or workers.old.items number d) (slice_index_or workers.new.items number d) }
{
    let threads = workers.len();
    thread::for_each_mut(
        rt,
        workers.as_mut_slice(),
        threads,
        &|_, worker| { work_over(rt, plan, cell, worker) },
    );
}

/// Each kit gets a pass and a reserve. The room for the workers was taken before.
pub fn set_up<D: Drop, S: Drop, K: Drop, C: Drop>(
    kits: &mut Vec<Kit<D, S, K, C>>,
    passes: &mut Vec<Pass>,
    reserves: &mut Vec<Reserve>,
    workers: &mut Vec<Worker<D, S, K, C>>,
)
    requires long { (length passes.old.items ≡ length kits.old.items) × (length reserves.old.items ≡ length kits.old.items) }
    requires none { workers.old.items ≡ [] }
    requires room { length kits.old.items ≤ vec_capacity workers.old }
    ensures kits { (kits.new.items ≡ []) × (map kit_of workers.new.items ≡ kits.old.items) }
    ensures passes { (passes.new.items ≡ []) × (map pass_of workers.new.items ≡ passes.old.items) }
    ensures reserves { (reserves.new.items ≡ []) × (map reserve_of workers.new.items ≡ reserves.old.items) }
    ensures room { (length workers.new.items ≤ vec_capacity kits.new) × (length workers.new.items ≤ vec_capacity passes.new) × (length workers.new.items ≤ vec_capacity reserves.new) }
    ensures kept { vec_capacity kits.new ≡ vec_capacity kits.old }
{
    while let Some(kit) = kits.pop() {
        let Some(pass) = passes.pop() else {
            unreachable!()
        };
        let Some(reserve) = reserves.pop() else {
            unreachable!()
        };
        workers.push_reserved(Worker { kit, pass, reserve });
    }
    workers.reverse();
}

/// The kits, the passes and the reserves go back to their places.
pub fn take_down<D: Drop, S: Drop, K: Drop, C: Drop>(
    mut workers: Vec<Worker<D, S, K, C>>,
    kits: &mut Vec<Kit<D, S, K, C>>,
    passes: &mut Vec<Pass>,
    reserves: &mut Vec<Reserve>,
)
    requires empty { (kits.old.items ≡ []) × (passes.old.items ≡ []) × (reserves.old.items ≡ []) }
    requires room { (length workers.items ≤ vec_capacity kits.old) × (length workers.items ≤ vec_capacity passes.old) × (length workers.items ≤ vec_capacity reserves.old) }
    ensures kits { kits.new.items ≡ map kit_of workers.items }
    ensures passes { passes.new.items ≡ map pass_of workers.items }
    ensures reserves { reserves.new.items ≡ map reserve_of workers.items }
    ensures kept { vec_capacity kits.old ≤ vec_capacity kits.new }
{
    while let Some(worker) = workers.pop() {
        let Worker { kit, pass, reserve } = worker;
        kits.push_reserved(kit);
        passes.push_reserved(pass);
        reserves.push_reserved(reserve);
    }
    kits.reverse();
    passes.reverse();
    reserves.reverse();
}

/// Puts the reports of all reserves together.
pub fn gather(mut reserves: Vec<Reserve>, reports: &mut Vec<Report>)
    requires empty { reports.old.items ≡ [] }
    requires room { length (flat_map reports_on reserves.items) ≤ vec_capacity reports.old }
    ensures { reports.new.items ≡ flat_map reports_on (reverse reserves.items) }
{
    while let Some(reserve) = reserves.pop() {
        let Reserve {
            rooms: _,
            reports: mut own,
        } = reserve;
        let Ok(()) = reports.append(&mut own) else {
            unreachable!()
        };
    }
}
