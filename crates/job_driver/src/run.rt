//! What a run of jobs has beside the jobs.
ghost use Rattle.std.specs.Prelude.{◌≡◌, ℕ, ◌+◌, ◌<◌, ◌≤◌, ◌++◌, [], All, IfOk, OnErr, length, map, slice_index_or, vec_capacity};
ghost use Rattle.farm_cell.specs.Passes.{limits_of as limits_in, seen_of};
ghost use Rattle.farm_machine.specs.Usable.{job_at, AreDoable, IsUsable};
ghost use Rattle.job_driver.specs.Workers.{HasRoom, kit_of, reserve_of, reports_on};
ghost use Rattle.job_driver.specs.Driven.{reports_by, JobsRan};
ghost use Rattle.job_driver.specs.Runs.{AreDone, HasKits, HasWorkedOff, IsOpen};

use crate::driver::Built;
use crate::workers::{Reserve, Worker, gather, set_up, take_down};
use edge_traits::{Clock, Dialer, Keeper, Kit, Station};
use farm_cell::{Cell, Pass};
use farm_machine::{Report, ReportList, limits_of};
use farm_types::{JobConfig, Jobs};
use kit_types::Observed;
use std::alloc::{AllocError, Global};
use std::sync::Wait;

/// The jobs of a list, which can be done, a usable configuration of how they are run, and where their memory is from.
#[derive(Clone, Copy)]
pub struct JobPlan<'a> {
    pub alloc: Global,
    pub jobs: &'a Jobs,
    pub config: &'a JobConfig,
    ghost doable: { AreDoable jobs.now },
    ghost usable: { IsUsable config.now },
}

/// What a run of jobs has beside the jobs: the slots, workers that share them, the kits that no worker uses, and room to take the
/// workers apart again and for their reports.
pub struct Run<D, S, K, C> {
    pub cell: Cell<16, 34>,
    pub workers: Vec<Worker<D, S, K, C>>,
    pub unused: Vec<Kit<D, S, K, C>>,
    pub passes: Vec<Pass>,
    pub reserves: Vec<Reserve>,
    pub reports: Vec<Report>,
}

// A reserve for each worker.
fn reserves_for(alloc: Global, workers: usize, jobs: usize) -> Result<Vec<Reserve>, AllocError>
    ensures len { IfOk result (λ reserves. length reserves.items ≡ workers) }
    ensures room { IfOk result (λ reserves. All (λ reserve. HasRoom jobs reserve) reserves.items) }
{
    let mut reserves = Vec::with_capacity(alloc, workers)?;
    'filling: while reserves.len() < workers {
        reserves.push(Reserve::new(alloc, jobs)?)?;
    }
    Ok(reserves)
}

/// Takes all memory for the reports and events of these jobs, and makes that many workers, one for each of the first kits. An error says
/// that memory ran out.
pub fn open_run<R: Wait, D: Dialer + Drop, S: Station + Drop, K: Keeper + Drop, C: Clock + Drop>(
    rt: &R,
    plan: JobPlan<'_>,
    kits: &mut Vec<Kit<D, S, K, C>>,
    workers: u32,
) -> Result<Run<D, S, K, C>, AllocError>
    requires kits { HasKits ⟦<Kit<D, S, K, C> as Observed>⟧.devices workers kits.old.items }
    ensures opened { IfOk result (λ run. IsOpen ⟦<Kit<D, S, K, C> as Observed>⟧.devices
        plan.entry.jobs.now plan.entry.config.now workers run) }
    ensures kits { IfOk result (λ run. (kits.new.items ≡ []) × (map kit_of run.workers.items ++ run.unused.items ≡ kits.old.items)) }
    ensures undone { OnErr result (kits.new.items ≡ kits.old.items) }
    ensures kept { vec_capacity kits.old ≤ vec_capacity kits.new }
{
    let alloc = plan.alloc;
    let count = workers as usize;
    let jobs = plan.jobs.len();
    let limits = limits_of(&plan.config.hosts, jobs as u32);
    let reports = Vec::with_capacity(alloc, jobs)?;
    let mut made = Vec::with_capacity(alloc, count)?;
    let mut reserves = reserves_for(alloc, count, jobs)?;
    let (cell, mut passes) = Cell::new(rt, alloc, limits, workers)?;
    let unused = kits.split_off(count)?;
    set_up(kits, &mut passes, &mut reserves, &mut made);
    Ok(Run {
        cell,
        workers: made,
        unused,
        passes,
        reserves,
        reports,
    })
}

/// Puts the kits back in their places and the reports in the order of the jobs, once the workers have done all jobs.
pub fn close_run<R: Wait, D: Dialer + Drop, S: Station + Drop, K: Keeper + Drop, C: Clock + Drop>(
    rt: &R,
    run: Run<D, S, K, C>,
    kits: &mut Vec<Kit<D, S, K, C>>,
) -> Built
    requires done { HasWorkedOff ⟦<Kit<D, S, K, C> as Observed>⟧.devices run }
    requires empty { kits.old.items ≡ [] }
    requires room { length run.workers.items + length run.unused.items ≤ vec_capacity kits.old }
    ensures ran { (jobs : _) (config : _) (before : _)
        → AreDone ⟦<Kit<D, S, K, C> as Observed>⟧.devices jobs config before run
        → JobsRan ⟦<Kit<D, S, K, C> as Observed>⟧.devices result.last.limits (job_at jobs config) config.period
        (length before) result.reports (seen_of result.pass) result.last.state (map kit_of before ++ run.unused.items) kits.new.items }
    ensures reports { (jobs : _) (config : _) (before : _)
        → AreDone ⟦<Kit<D, S, K, C> as Observed>⟧.devices jobs config before run
        → (worker : ℕ) (other : _) → worker < length before
        → reports_by worker result.reports ≡ reports_on (reserve_of (slice_index_or run.workers.items worker other)) }
    ensures limits { result.last.limits ≡ limits_in run.cell }
    ensures kept { vec_capacity kits.old ≤ vec_capacity kits.new }
{
    let Run {
        cell,
        workers,
        mut unused,
        mut passes,
        mut reserves,
        mut reports,
    } = run;
    take_down(workers, kits, &mut passes, &mut reserves);
    let Ok(()) = kits.append(&mut unused) else {
        unreachable!()
    };
    let (last, pass) = cell.close(rt, passes);
    gather(reserves, &mut reports);
    reports.sort_unstable_by_key(|report| report.number);
    Built {
        reports: ReportList::from_vec(reports),
        last,
        pass,
    }
}
