//! The worker of one door, and all workers side by side.

ghost use Rattle.std.specs.Prelude.{◌≡◌, ◌+◌, ◌<◌, ◌≤◌, ℕ, All, length, slice_index_or, vec_len};
ghost use Rattle.farm_types.specs.Limits.{workers_max};
ghost use Rattle.access_list.specs.Rules.{AreRight};
ghost use Rattle.daemon_worker.specs.Workers.{IsReady, Worked};

use crate::{DaemonConfig, DoorKit, Entry, serve_door};
use edge_traits::{Door, Station};
use std::alloc::Global;
use std::thread;
use std::thread::Threads;

/// What serves one door: its kit, and the log of its connections.
#[derive(Drop)]
pub(crate) struct Worker<A, S> {
    pub(crate) kit: DoorKit<A, S>,
    pub(crate) log: Vec<Entry>,
}

// Serves the door of a worker, which is at this place from 0.
fn work<A: Door, S: Station>(
    alloc: Global,
    at: usize,
    config: &DaemonConfig,
    worker: &mut Worker<A, S>,
)
    requires at { at < workers_max }
    requires right { AreRight config.now.access.rules }
    requires ready { IsReady config.now.serve worker.old }
    ensures { Worked config.now.table.rows config.now.access.rules config.now.serve A.shows S.shows S.ran S.goes (at + 1) worker.old worker.new }
{
    serve_door(
        alloc,
        at as u32 + 1,
        &mut worker.kit,
        config,
        &mut worker.log,
    );
}

// Each worker serves its door, in a thread of its own if one can be made.
fn work_side_by_side<R: Threads + Sync, A: Door + Send, S: Station + Send>(
    rt: &R,
    alloc: Global,
    config: &DaemonConfig,
    workers: &mut [Worker<A, S>],
    threads: usize,
)
where
    A::Link: Send,
    requires threads { 0 < threads }
    requires few { length workers.old ≤ workers_max }
    requires right { AreRight config.now.access.rules }
    requires ready { All (λ worker. IsReady config.now.serve worker) workers.old }
    ensures each { (at : ℕ) (d : _) → at < length workers.old →
        Worked config.now.table.rows config.now.access.rules config.now.serve A.shows S.shows S.ran S.goes (at + 1) (slice_index_or workers.old at d) (slice_index_or workers.new at d) }
{
    thread::for_each_mut(
        rt,
        workers,
        threads,
        &|at, worker| { work(alloc, at, config, worker) },
    );
}

/// Each worker serves its door, all side by side.
pub(crate) fn work_all<R: Threads + Sync, A: Door + Send, S: Station + Send>(
    rt: &R,
    alloc: Global,
    config: &DaemonConfig,
    workers: &mut Vec<Worker<A, S>>,
)
where
    A::Link: Send,
    requires some { 0 < length workers.old.items }
    requires few { length workers.old.items ≤ workers_max }
    requires right { AreRight config.now.access.rules }
    requires ready { All (λ worker. IsReady config.now.serve worker) workers.old.items }
    ensures count { length workers.new.items ≡ length workers.old.items }
    ensures len { vec_len workers.new ≡ vec_len workers.old }
    ensures each { (at : ℕ) (d : _) → at < length workers.old.items →
        Worked config.now.table.rows config.now.access.rules config.now.serve A.shows S.shows S.ran S.goes (at + 1) (slice_index_or workers.old.items at d) (slice_index_or workers.new.items at d) }
{
    let threads = workers.len();
    work_side_by_side(rt, alloc, config, workers.as_mut_slice(), threads);
}
