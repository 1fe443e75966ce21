//! All jobs of a list.
ghost use Rattle.std.specs.Prelude.{◌≡◌, IfOk, OnErr};
ghost use Rattle.farm_machine.specs.Devices.{devices};
ghost use Rattle.farm_machine.specs.Usable.{AreDoable, IsUsable};
ghost use Rattle.job_driver.specs.Runs.{HasBuilt, HasKits};

use crate::run::{JobPlan, close_run, open_run};
use crate::workers::work_all;
use edge_traits::{Clock, Dialer, Keeper, Kit, Station};
use farm_cell::Pass;
use farm_machine::ReportList;
use farm_types::{JobConfig, Jobs};
use slot_table::Slots;
use std::alloc::{AllocError, Global};
use std::sync::Wait;
use std::thread::Threads;

/// What a run of jobs left: a report for each job, in the order of the jobs, the last state of the slots, and a pass that has
/// seen every call on them, in their one order.
#[derive(Drop)]
pub struct Built {
    pub reports: ReportList,
    pub last: Slots<16>,
    pub pass: Pass,
}

/// Does all jobs, by that many workers side by side, one for each of the first kits. Each draws jobs until there are none, and
/// runs each over its kit and over the slots that all of them share. The kits are back in their places then.
///
/// All memory for reports and events is taken before the first job is drawn. An error says that it ran out; then no job
/// began. It waits for slots.
pub fn build<
    R: Threads + Wait + Sync,
    D: Dialer + Send + Drop,
    S: Station + Send + Drop,
    K: Keeper + Send + Drop,
    C: Clock + Send + Drop,
>(
    rt: &R,
    alloc: Global,
    jobs: &Jobs,
    config: &JobConfig,
    kits: &mut Vec<Kit<D, S, K, C>>,
    workers: u32,
) -> Result<Built, AllocError>
where
    D::Link: Send,
    requires jobs { AreDoable jobs.now }
    requires config { IsUsable config.now }
    requires kits { HasKits (devices D.shows S.shows K.shows C.shows D.may_give S.ran) workers kits.old.items }
    ensures built { IfOk result (λ built. HasBuilt (devices D.shows S.shows K.shows C.shows D.may_give S.ran)
        jobs.now config.now workers built kits.old.items kits.new.items) }
    ensures undone { OnErr result (kits.new.items ≡ kits.old.items) }
{
    let plan = JobPlan {
        alloc,
        jobs,
        config,
    };
    let mut run = open_run(rt, plan, kits, workers)?;
    work_all(rt, plan, &run.cell, &mut run.workers);
    Ok(close_run(rt, run, kits))
}
