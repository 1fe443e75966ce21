//! A rehearsal.

ghost use Rattle.std.specs.Prelude.{◌≤◌, IfOk};
ghost use Rattle.farm_types.specs.Limits.{jobs_max};
ghost use Rattle.rehearsal.specs.Rehearsals.{IsRehearsal};

use crate::Count;
use crate::config::rehearsal_config;
use crate::kits::kits;
use crate::numbers::count_reports;
use crate::workload_runs::runs_of_jobs;
use course_laws::put_law;
use job_driver::{Built, build};
use std::alloc::{AllocError, Global};
use std::sync::Wait;
use std::thread::Threads;
use workload::make;

/// The most workers of a rehearsal.
const REHEARSAL_WORKERS_MAX: u32 = 4;

/// What a rehearsal left: what was built, and the two numbers, which there are if no job was out of memory.
#[derive(Drop)]
pub struct Rehearsed {
    pub built: Built,
    pub count: Option<Count>,
}

/// Runs the jobs of the workload of n, which is 1 to 512, by four workers at most. Each has a kit of its own over the
/// workload's files: the sample compiler, a loop to a daemon that runs the sample compiler, and a keeper in memory.
///
/// An error says that memory ran out before the first job began. It waits for slots.
pub fn rehearse<R: Threads + Wait + Sync>(
    rt: &R,
    alloc: Global,
    n: u32,
) -> Result<Rehearsed, AllocError>
    requires some { 1 ≤ n }
    requires most { n ≤ jobs_max }
    ensures { IfOk result (λ done. IsRehearsal n done.built done.count) }
{
    put_law();
    runs_of_jobs();
    let jobs = make(alloc, n)?.jobs;
    let config = rehearsal_config(alloc)?;
    let workers = n.min(REHEARSAL_WORKERS_MAX);
    let mut kits = kits(alloc, n, workers as usize)?;
    let built = build(rt, alloc, &jobs, &config, &mut kits, workers)?;
    let count = count_reports(kits.as_slice(), built.reports.as_slice());
    Ok(Rehearsed { built, count })
}
