//! Kits are moved into workers, and back to their places.

ghost use Rattle.std.specs.Prelude.{◌≡◌, ◌+◌, ◌≤◌, ◌++◌, All, length, map, reverse, IfOk, IfErr, vec_len, vec_capacity};
ghost use Rattle.std.specs.List.{flat_map};
ghost use Rattle.daemon_worker.specs.Workers.{IsReady, IsRoom, kit_of, log_of};

use crate::door::note;
use crate::worker::Worker;
use crate::{DoorKit, Entry};
use std::alloc::{AllocError, Global};

/// That many empty logs, each with room for `serve` entries.
pub(crate) fn make_logs(
    alloc: Global,
    count: usize,
    serve: u32,
) -> Result<Vec<Vec<Entry>>, AllocError>
    ensures count { IfOk result (λ logs. length logs.items ≡ count) }
    ensures room { IfOk result (λ logs. All (λ log. IsRoom serve log.items (vec_len log) (vec_capacity log)) logs.items) }
{
    let mut logs = Vec::with_capacity(alloc, count)?;
    for _ in 0..count {
        logs.push(Vec::with_capacity(alloc, serve as usize)?)?;
    }
    Ok(logs)
}

/// Moves the first kits into workers, one for each log. The other kits stay, the last one first.
pub(crate) fn take_kits<A: Drop, S: Drop>(
    alloc: Global,
    doors: &mut Vec<DoorKit<A, S>>,
    mut logs: Vec<Vec<Entry>>,
    serve: u32,
) -> Result<Vec<Worker<A, S>>, AllocError>
    requires there { length logs.items ≤ length doors.old.items }
    requires room { All (λ log. IsRoom serve log.items (vec_len log) (vec_capacity log)) logs.items }
    ensures kits { IfOk result (λ workers. map kit_of workers.items ++ reverse doors.new.items ≡ doors.old.items) }
    ensures count { IfOk result (λ workers. length workers.items ≡ length logs.items) }
    ensures ready { IfOk result (λ workers. All (λ worker. IsReady serve worker) workers.items) }
    ensures room { IfOk result (λ workers. vec_len doors.new + vec_len workers ≤ vec_capacity doors.new) }
    ensures untouched { IfErr result (λ _. doors.new.items ≡ doors.old.items) }
{
    let mut workers = Vec::with_capacity(alloc, logs.len())?;
    doors.reverse();
    'moving: while let Some(log) = logs.pop() {
        let Some(kit) = doors.pop() else {
            unreachable!()
        };
        workers.push_reserved(Worker { kit, log });
    }
    Ok(workers)
}

/// Moves the kits of the workers back before the kits that stayed.
pub(crate) fn put_back<A: Drop, S: Drop>(
    mut workers: Vec<Worker<A, S>>,
    doors: &mut Vec<DoorKit<A, S>>,
)
    requires room { vec_len doors.old + vec_len workers ≤ vec_capacity doors.old }
    ensures { doors.new.items ≡ map kit_of workers.items ++ reverse doors.old.items }
{
    'moving: while let Some(worker) = workers.pop() {
        let Worker { kit, log: _ } = worker;
        doors.push_reserved(kit);
    }
    doors.reverse();
}

// Adds entries to the log, into room that it has.
fn note_all(log: &mut Vec<Entry>, entries: &[Entry])
    requires { vec_len log.old + length entries.now ≤ vec_capacity log.old }
    ensures items { log.new.items ≡ log.old.items ++ entries.now }
    ensures len { vec_len log.new ≡ vec_len log.old + length entries.now }
    ensures capacity { vec_capacity log.old ≤ vec_capacity log.new }
{
    let mut rest = entries;
    'noting: while let [entry, after @ ..] = rest {
        note(log, *entry);
        rest = after;
    }
}

/// Adds the logs of the workers to one log, in their order, into room that it has.
pub(crate) fn join_logs<A, S>(workers: &[Worker<A, S>], log: &mut Vec<Entry>)
    requires { vec_len log.old + length (flat_map log_of workers.now) ≤ vec_capacity log.old }
    ensures { log.new.items ≡ log.old.items ++ flat_map log_of workers.now }
{
    let mut rest = workers;
    'joining: while let [worker, after @ ..] = rest {
        note_all(log, worker.log.as_slice());
        rest = after;
    }
}
