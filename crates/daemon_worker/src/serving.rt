//! The connections of all doors.

ghost use Rattle.std.specs.Prelude.{◌≡◌, ◌≤◌, length, take, drop, IfOk, IfErr};
ghost use Rattle.farm_types.specs.Limits.{workers_max, connections_max};
ghost use Rattle.access_list.specs.Rules.{AreRight};
ghost use Rattle.daemon_worker.specs.Logs.{DoorsServed};
ghost use Rattle.daemon_worker.specs.Paths.{DoorsPaths};

use crate::moving::{join_logs, make_logs, put_back, take_kits};
use crate::worker::work_all;
use crate::{DaemonConfig, DaemonLog, DoorKit};
use edge_traits::{Door, Station};
use farm_types::Items;
use std::alloc::{AllocError, Global};
use std::thread::Threads;

/// Serves the connections of the first doors, as `serve` does, and leaves the others as they are.
pub fn serve_first<R: Threads + Sync, A: Door + Send + Drop, S: Station + Send + Drop>(
    rt: &R,
    alloc: Global,
    doors: &mut Vec<DoorKit<A, S>>,
    count: usize,
    config: &DaemonConfig,
) -> Result<DaemonLog, AllocError>
where
    A::Link: Send,
    requires some { 1 ≤ count }
    requires few { count ≤ workers_max }
    requires there { count ≤ length doors.old.items }
    requires serve { (1 ≤ config.now.serve) × (config.now.serve ≤ connections_max) }
    requires right { AreRight config.now.access.rules }
    ensures served { IfOk result (λ log. DoorsServed config.now.table.rows config.now.access.rules config.now.serve A.shows S.shows S.ran 1
        (take count doors.old.items) (take count doors.new.items) log) }
    ensures paths { IfOk result (λ log. DoorsPaths S.goes config.now.table.rows 1 (take count doors.old.items) (take count doors.new.items) log) }
    ensures others { IfOk result (λ _. drop count doors.new.items ≡ drop count doors.old.items) }
    ensures untouched { IfErr result (λ _. doors.new.items ≡ doors.old.items) }
{
    let mut log = Vec::with_capacity(alloc, count * config.serve as usize)?;
    let logs = make_logs(alloc, count, config.serve)?;
    let mut workers = take_kits(alloc, doors, logs, config.serve)?;
    work_all(rt, alloc, config, &mut workers);
    join_logs(workers.as_slice(), &mut log);
    put_back(workers, doors);
    Ok(Items::from_vec(log))
}

/// Serves the connections of all doors, each door by a worker of its own, and answers the log. All workers work side by side, in threads if these can
/// be made. The room for the log is taken first, so `Err` means that nothing was served.
pub fn serve<R: Threads + Sync, A: Door + Send + Drop, S: Station + Send + Drop>(
    rt: &R,
    alloc: Global,
    doors: &mut Vec<DoorKit<A, S>>,
    config: &DaemonConfig,
) -> Result<DaemonLog, AllocError>
where
    A::Link: Send,
    requires some { 1 ≤ length doors.old.items }
    requires few { length doors.old.items ≤ workers_max }
    requires serve { (1 ≤ config.now.serve) × (config.now.serve ≤ connections_max) }
    requires right { AreRight config.now.access.rules }
    ensures served { IfOk result (λ log. DoorsServed config.now.table.rows config.now.access.rules config.now.serve A.shows S.shows S.ran 1 doors.old.items doors.new.items log) }
    ensures paths { IfOk result (λ log. DoorsPaths S.goes config.now.table.rows 1 doors.old.items doors.new.items log) }
    ensures untouched { IfErr result (λ _. doors.new.items ≡ doors.old.items) }
{
    let count = doors.len();
    serve_first(rt, alloc, doors, count, config)
}
