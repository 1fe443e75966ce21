//! All jobs of a list, while somebody watches.
ghost use Rattle.std.specs.Prelude.{◌≡◌, ◌+◌, ◌^◌, ◌<◌, ◌≤◌, [], All, IfOk, OnErr, true, length, map, replicate, vec_capacity};
ghost use Rattle.farm_types.specs.Limits.{lines_max};
ghost use Rattle.farm_monitor.specs.Boards.{board_watched};
ghost use Rattle.progress_lines.specs.Counts.{known};
ghost use Rattle.farm_machine.specs.Devices.{devices};
ghost use Rattle.job_driver.specs.Runs.{HasBuilt, HasKits};
ghost use Rattle.farm_machine.specs.Usable.{AreDoable, IsUsable};
ghost use Rattle.job_driver.specs.Watching.{board_marked, AreBack, AreMarked, IsFor, IsFreshMarker, HasBuiltWatched, HasWatched, AfterLines, WasWatched};

use crate::beside::Marked;
use crate::boards::{close_boards, end_boards, make_boards};
use crate::driver::Built;
use crate::marker::Marker;
use crate::run::{JobPlan, close_run, open_run};
use crate::watch::{Beside, Watch, work_beside};
use edge_traits::{Clock, Dialer, Keeper, Kit, Sink, Station};
use farm_monitor::Watcher;
use farm_types::{JobConfig, Jobs};
use kit_types::Observed;
use progress_lines::{LineEnd, watch_last};
use std::alloc::{AllocError, Global};
use std::sync::Wait;
use std::thread::Threads;

/// What a watched run of jobs left: what a run leaves, how the printing of lines ended, and whether the last line says that all
/// jobs have ended.
#[derive(Drop)]
pub struct Watched {
    pub built: Built,
    pub printed: LineEnd,
    pub told: bool,
}

/// A run of jobs with its workers' marks, and a watcher beside the workers: else as `build`.
fn build_beside<
    R: Threads + Wait + Sync,
    D: Dialer + Send + Drop,
    S: Station + Send + Drop,
    K: Keeper + Send + Drop,
    C: Clock + Send + Drop,
    E: Sink,
>(
    rt: &R,
    plan: JobPlan<'_>,
    kits: &mut Vec<Kit<D, S, K, C>>,
    workers: u32,
    beside: &mut Beside<D, S, K, C>,
    err: &mut E,
) -> Result<(Built, LineEnd), AllocError>
where
    D::Link: Send,
    requires kits { HasKits ⟦<Kit<D, S, K, C> as Observed>⟧.devices workers kits.old.items }
    requires fits { IsFor workers beside.old }
    ensures built { IfOk result (λ made. HasBuilt ⟦<Kit<D, S, K, C> as Observed>⟧.devices
        plan.entry.jobs.now plan.entry.config.now workers made.0 kits.old.items kits.new.items) }
    ensures undone { OnErr result ((kits.new.items ≡ kits.old.items) × (beside.new ≡ beside.old) × (err.new ≡ err.old)) }
    ensures len { length kits.new.items ≡ length kits.old.items }
    ensures kept { vec_capacity kits.old ≤ vec_capacity kits.new }
    ensures back { AreBack beside.new }
    ensures marked { IfOk result (λ made. AreMarked made.0.reports beside.new.markers.items) }
    ensures markers { length beside.new.markers.items ≡ workers }
    ensures watched { IfOk result (λ made. HasWatched C.shows E.shows (length plan.entry.jobs.now) workers beside.old beside.new err.old err.new made.1) }
{
    let mut run = open_run(rt, plan, kits, workers)?;
    let end = work_beside(rt, plan, &run.cell, &mut run.workers, beside, err);
    Ok((close_run(rt, run, kits), end))
}

// The last line, if all others were printed. How the printing ended, and whether that line says that all jobs have ended.
fn print_after<E: Sink>(
    end: LineEnd,
    watchers: &mut [Watcher],
    jobs: u32,
    told: bool,
    err: &mut E,
) -> (LineEnd, bool)
    requires few { length watchers.old < 2 ^ 32 }
    ensures told { result.1 ≡ true → told ≡ true }
    ensures printed { AfterLines jobs end result.1 (E.shows err.old) (E.shows err.new) result.0 }
{
    match end {
        LineEnd::Whole => watch_last(watchers, jobs, told, err),
        LineEnd::SinkFault => (LineEnd::SinkFault, told),
        LineEnd::Memory => (LineEnd::Memory, told),
    }
}

// Boards for that many workers, none of which has a row, and room for the workers beside them.
fn boards_for<R: Wait, D, S, K, C>(
    rt: &R,
    alloc: Global,
    count: usize,
) -> Result<(Vec<Marker>, Vec<Watcher>, Vec<Marked<D, S, K, C>>), AllocError>
    ensures markers { IfOk result (λ made. length made.0.items ≡ count) }
    ensures boards { IfOk result (λ made. map board_marked made.0.items ≡ map board_watched made.1.items) }
    ensures fresh { IfOk result (λ made. All IsFreshMarker made.0.items) }
    ensures unread { IfOk result (λ made. known made.1.items ≡ replicate count []) }
    ensures pairs { IfOk result (λ made. (made.2.items ≡ []) × (count ≤ vec_capacity made.2)) }
{
    let mut watchers = Vec::with_capacity(alloc, count)?;
    let mut markers = Vec::with_capacity(alloc, count)?;
    match make_boards(rt, alloc, count, &mut markers, &mut watchers) {
        Ok(()) => match Vec::with_capacity(alloc, count) {
            Ok(pairs) => Ok((markers, watchers, pairs)),
            Err(e) => {
                end_boards(rt, markers);
                Err(e)
            }
        },
        Err(e) => {
            end_boards(rt, markers);
            Err(e)
        }
    }
}

/// Does all jobs as `build` does, with all kits but the last, while somebody watches how far the workers have come: at most 100 lines
/// are printed, and one more after the last job. The last kit lends its clock, on which the watcher pauses between two lines.
///
/// If the sink stops or is out of memory, no further line is printed; the jobs go on. An error says that memory ran out; then no
/// job began, and no line was printed.
pub fn build_watched<
    R: Threads + Wait + Sync,
    D: Dialer + Send + Drop,
    S: Station + Send + Drop,
    K: Keeper + Send + Drop,
    C: Clock + Send + Drop,
    E: Sink,
>(
    rt: &R,
    alloc: Global,
    jobs: &Jobs,
    config: &JobConfig,
    kits: &mut Vec<Kit<D, S, K, C>>,
    workers: u32,
    lines: u32,
    err: &mut E,
) -> Result<Watched, AllocError>
where
    D::Link: Send,
    requires jobs { AreDoable jobs.now }
    requires config { IsUsable config.now }
    requires some { 1 ≤ workers }
    requires kits { HasKits (devices D.shows S.shows K.shows C.shows D.may_give S.ran) (workers + 1) kits.old.items }
    requires lines { lines ≤ lines_max }
    ensures built { IfOk result (λ watched. HasBuiltWatched (devices D.shows S.shows K.shows C.shows D.may_give S.ran)
        jobs.now config.now workers watched.built kits.old.items kits.new.items) }
    ensures undone { OnErr result ((kits.new.items ≡ kits.old.items) × (err.new ≡ err.old)) }
    ensures printed { IfOk result (λ watched. WasWatched (length jobs.now) workers lines watched.built.reports watched.told
        (E.shows err.old) (E.shows err.new) watched.printed) }
{
    let (markers, watchers, pairs) = boards_for(rt, alloc, workers as usize)?;
    let Some(lender) = kits.pop() else {
        unreachable!()
    };
    let Kit {
        dialer,
        station,
        keeper,
        clock,
    } = lender;
    let mut beside = Beside {
        markers,
        pairs,
        watch: Watch {
            watchers,
            clock,
            lines,
        },
    };
    let plan = JobPlan {
        alloc,
        jobs,
        config,
    };
    let done = build_beside(rt, plan, kits, workers, &mut beside, err);
    let (markers, mut watchers, clock) = beside.into_parts();
    kits.push_reserved(Kit {
        dialer,
        station,
        keeper,
        clock,
    });
    let told = close_boards(rt, markers, watchers.as_mut_slice());
    let (built, end) = done?;
    let (printed, told) = print_after(end, watchers.as_mut_slice(), jobs.len() as u32, told, err);
    Ok(Watched {
        built,
        printed,
        told,
    })
}
