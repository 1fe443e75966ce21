//! A build of a job list that reports how far it has come.
ghost use Rattle.std.specs.Prelude.{◌≡◌, ◌≤◌, [], ◌∷◌, Bool, IfOk, OnErr, length};
ghost use Rattle.farm_types.specs.Limits.{lines_max};
ghost use Rattle.edge_traits.specs.Keepers.{IsIdle};
ghost use Rattle.job_driver.specs.declared.driver.Built.{Built};
ghost use Rattle.job_driver.specs.Watching.{WasWatched};
ghost use Rattle.farm_program.specs.declared.work.Work.TheVariants as works;
ghost use Rattle.farm_program.specs.Worlds.{AreReady};
ghost use Rattle.farm_program.specs.WatchBuilds.{watched_workers};
ghost use Rattle.farm_program.specs.Works.{CanRun, WatchedListRan, WorkDone};

use crate::jobs::{BuiltList, run_list};
use crate::work::{Done, ListWork};
use edge_traits::Sink;
use job_driver::{LineEnd, build_watched};
use kit_types::{KitOf, KitTypes, Observed};
use std::alloc::{AllocError, Global};
use std::sync::Wait;
use std::thread::Threads;

// Runs jobs while lines report how far they have come. What was built, and how the printing of the lines ended. An error says that
// memory ran out before the first of the jobs began.
fn watch_jobs<T: Threads + Wait + Sync, X: KitTypes, E: Sink + Send>(
    rt: &T,
    alloc: Global,
    list: &ListWork,
    lines: u8,
    kits: &mut Vec<KitOf<X>>,
    err: &mut E,
) -> Result<(BuiltList, LineEnd), AllocError>
    requires list { CanRun list.now }
    requires lines { lines ≤ lines_max }
    requires kits { AreReady 2 (λ kit. IsIdle (X.Keeper.shows kit.keeper)) kits.old.items }
    ensures done { IfOk result (λ made. WatchedListRan ⟦<KitOf<X> as Observed>⟧.devices
        kits.old.items kits.new.items list.now made.0) }
    ensures printed { IfOk result (λ made. (told : Bool) × ((one : Built) → made.0 ≡ one ∷ [] → WasWatched (length list.now.jobs)
        (watched_workers list.now.most kits.old.items list.now.jobs) lines one.reports told (E.shows err.old) (E.shows err.new) made.1)) }
    ensures undone { OnErr result ((kits.new.items ≡ kits.old.items) × (err.new ≡ err.old)) }
{
    let workers = (list.most as usize)
        .min(kits.len() - 1)
        .min(list.jobs.len()) as u32;
    let mut built = Vec::with_capacity(alloc, 1)?;
    let watched = build_watched(
        rt,
        alloc,
        &list.jobs,
        &list.config,
        kits,
        workers,
        lines as u32,
        err,
    )?;
    let printed = watched.printed;
    built.push_reserved(watched.built);
    Ok((BuiltList::from_vec(built), printed))
}

/// Runs the jobs of a list while lines on the sink of errors report how far they have come. With one kit no line is printed, since the last
/// kit lends its clock. An error says that memory ran out before the first of the jobs began.
pub fn run_watched<T: Threads + Wait + Sync, X: KitTypes, E: Sink + Send>(
    rt: &T,
    alloc: Global,
    list: ListWork,
    lines: u8,
    kits: &mut Vec<KitOf<X>>,
    err: &mut E,
) -> Result<Done, AllocError>
    requires list { CanRun list }
    requires lines { lines ≤ lines_max }
    requires kits { AreReady 1 (λ kit. IsIdle (X.Keeper.shows kit.keeper)) kits.old.items }
    ensures done { IfOk result (λ done. WorkDone ⟦<KitOf<X> as Observed>⟧.devices
        kits.old.items kits.new.items (E.shows err.old) (E.shows err.new) (works.Watched list lines) done) }
    ensures undone { OnErr result ((kits.new.items ≡ kits.old.items) × (err.new ≡ err.old)) }
{
    if kits.len() == 1 {
        let built = run_list::<T, X>(rt, alloc, &list, kits)?;
        return Ok(Done::List {
            hosts: list.config.hosts,
            built,
        });
    }
    let (built, end) = watch_jobs::<T, X, E>(rt, alloc, &list, lines, kits, err)?;
    Ok(Done::Watched {
        hosts: list.config.hosts,
        built,
        end,
    })
}
