//! The watcher's part of a build, beside its workers.
ghost use Rattle.std.specs.Prelude.{◌≡◌, ℕ, ◌<◌, ◌≤◌, [], All, length, map, slice_index_or, vec_len};
ghost use Rattle.std.specs.Fork.{AcceptsEach, ChangesEach};
ghost use Rattle.farm_types.specs.Limits.{workers_max};
ghost use Rattle.edge_traits.specs.Told.{Grew};
ghost use Rattle.farm_cell.specs.Passes.{limits_of};
ghost use Rattle.farm_monitor.specs.Boards.{board_watched};
ghost use Rattle.progress_lines.specs.Counts.{known};
ghost use Rattle.job_driver.specs.Workers.{reserve_of, reports_on, AreReady, AreSlotsFor, IsReady, HasWorked};
ghost use Rattle.farm_machine.specs.Usable.{job_at};
ghost use Rattle.job_driver.specs.Watching.{worker_of, marker_of, AreBack, CalledEach, CanPrint, HasMarkedOff, HasPrinted, HasWatched, IsFor, LinesTell};

use crate::beside::{Marked, pair, unpair, work_marked};
use crate::marker::Marker;
use crate::run::JobPlan;
use crate::workers::Worker;
use edge_traits::{Clock, Dialer, Keeper, Kit, Sink, Station};
use farm_cell::Cell;
use farm_monitor::Watcher;
use kit_types::Observed;
use progress_lines::{LineEnd, watch};
use std::sync::Wait;
use std::thread::{Threads, for_each_mut, join_mut};

/// Who reads the boards of all workers, pauses between two reads, and prints that many lines.
pub struct Watch<C> {
    pub watchers: Vec<Watcher>,
    pub clock: C,
    pub lines: u32,
}

/// What a watched build has beside its workers: what marks how far they have come, room to put both together, and who watches.
pub struct Beside<D, S, K, C> {
    pub markers: Vec<Marker>,
    pub pairs: Vec<Marked<D, S, K, C>>,
    pub watch: Watch<C>,
}

impl<D, S, K, C> Beside<D, S, K, C> {
    /// The marks, the watchers and the clock, once no worker is beside them.
    pub fn into_parts(self) -> (Vec<Marker>, Vec<Watcher>, C)
        requires { self.pairs.items ≡ [] }
        ensures markers { result.0 ≡ self.markers }
        ensures watchers { result.1 ≡ self.watch.watchers }
        ensures clock { result.2 ≡ self.watch.clock }
    {
        let Beside {
            markers,
            pairs,
            watch,
        } = self;
        let Watch {
            watchers,
            clock,
            lines: _,
        } = watch;
        pairs.destroy_empty();
        (markers, watchers, clock)
    }
}

impl<C: Clock> Watch<C> {
    /// Prints the lines of that many jobs.
    fn print<E: Sink>(&mut self, jobs: u32, err: &mut E) -> LineEnd
        requires can { CanPrint self.old }
        ensures watchers { map board_watched self.new.watchers.items ≡ map board_watched self.old.watchers.items }
        ensures paused { Grew (C.shows self.old.clock).moments (C.shows self.new.clock).moments [] }
        ensures printed { LinesTell jobs (length self.old.watchers.items) self.old.lines (known self.old.watchers.items) (known self.new.watchers.items)
            (E.shows err.old) (E.shows err.new) result }
    {
        watch(
            &mut self.clock,
            self.watchers.as_mut_slice(),
            jobs,
            self.lines,
            err,
        )
    }
}

/// Calls `f` once for each of the pairs, each in a thread of its own if one can be made.
fn call_each<R: Threads + Sync, T: Send, F: Fn(usize, &mut T) + Sync>(
    rt: &R,
    pairs: &mut Vec<T>,
    f: &F,
)
    requires some { 0 < length pairs.old.items }
    requires accepts { AcceptsEach F.Fn f.now pairs.old.items }
    ensures len { (vec_len pairs.new ≡ vec_len pairs.old) × (length pairs.new.items ≡ length pairs.old.items) }
    ensures each { CalledEach F.Fn f.now pairs.old.items pairs.new.items }
{
    let threads = pairs.len();
    for_each_mut(rt, pairs.as_mut_slice(), threads, f);
}

/// Calls `f` once for each of the pairs, and prints the lines beside that, if a thread can be made for it.
fn call_beside<R: Threads + Sync, T: Send, F: Fn(usize, &mut T) + Sync, C: Clock, E: Sink>(
    rt: &R,
    pairs: &mut Vec<T>,
    f: &F,
    watch: &mut Watch<C>,
    jobs: u32,
    err: &mut E,
) -> LineEnd
    requires some { 0 < length pairs.old.items }
    requires accepts { AcceptsEach F.Fn f.now pairs.old.items }
    requires can { CanPrint watch.old }
    ensures len { (vec_len pairs.new ≡ vec_len pairs.old) × (length pairs.new.items ≡ length pairs.old.items) }
    ensures each { ChangesEach F.Fn f.now pairs.old.items pairs.new.items }
    ensures watchers { map board_watched watch.new.watchers.items ≡ map board_watched watch.old.watchers.items }
    ensures paused { Grew (C.shows watch.old.clock).moments (C.shows watch.new.clock).moments [] }
    ensures printed { LinesTell jobs (length watch.old.watchers.items) watch.old.lines (known watch.old.watchers.items) (known watch.new.watchers.items)
        (E.shows err.old) (E.shows err.new) result }
{
    let (_, end) = join_mut(
        rt,
        &mut ||
            requires { (0 < length pairs.now.items) × AcceptsEach F.Fn f.now pairs.now.items }
            ensures { (vec_len pairs.exit.now ≡ vec_len pairs.entry.now) × (length pairs.exit.now.items ≡ length pairs.entry.now.items)
                × CalledEach F.Fn f.entry.now pairs.entry.now.items pairs.exit.now.items }
        { call_each(rt, pairs, f) },
        &mut || watch.print(jobs, err),
    );
    end
}

/// The workers do jobs until there are none, and the watcher prints its lines beside them, if a thread can be made for that.
pub fn work_and_watch<
    R: Threads + Wait + Sync,
    D: Dialer + Send,
    S: Station + Send,
    K: Keeper + Send,
    C: Clock + Send,
    L: Clock,
    E: Sink,
>(
    rt: &R,
    plan: JobPlan<'_>,
    cell: &Cell<16, 34>,
    pairs: &mut Vec<Marked<D, S, K, C>>,
    watch: &mut Watch<L>,
    err: &mut E,
) -> LineEnd
where
    D::Link: Send,
    requires some_workers { 0 < length pairs.old.items }
    requires slots { AreSlotsFor plan.jobs.now plan.config.now (limits_of cell.now) }
    requires ready { All (λ marked. IsReady ⟦<Kit<D, S, K, C> as Observed>⟧.devices cell.now (length plan.jobs.now) (worker_of marked)) pairs.old.items }
    requires can { CanPrint watch.old }
    ensures len { (vec_len pairs.new ≡ vec_len pairs.old) × (length pairs.new.items ≡ length pairs.old.items) }
    ensures each { (number : ℕ) (d : _) → number < length pairs.old.items →
        HasWorked ⟦<Kit<D, S, K, C> as Observed>⟧.devices cell.now (job_at plan.entry.jobs.now plan.entry.config.now) plan.entry.config.now.period
        (worker_of (slice_index_or pairs.old.items number d)) (worker_of (slice_index_or pairs.new.items number d)) }
    ensures marked { (number : ℕ) (d : _) → number < length pairs.old.items →
        HasMarkedOff (marker_of (slice_index_or pairs.old.items number d)) (marker_of (slice_index_or pairs.new.items number d))
        (reports_on (reserve_of (worker_of (slice_index_or pairs.new.items number d)))) }
    ensures printed { HasPrinted L.shows E.shows (length plan.entry.jobs.now) watch.old watch.new err.old err.new result }
{
    call_beside(
        rt,
        pairs,
        &|_, marked| { work_marked(rt, plan, cell, marked) },
        watch,
        plan.jobs.len() as u32,
        err,
    )
}

/// The workers do jobs as in a build that nobody watches, each marks its own, and the watcher prints its lines beside them.
pub fn work_beside<
    R: Threads + Wait + Sync,
    D: Dialer + Send + Drop,
    S: Station + Send + Drop,
    K: Keeper + Send + Drop,
    C: Clock + Send + Drop,
    E: Sink,
>(
    rt: &R,
    plan: JobPlan<'_>,
    cell: &Cell<16, 34>,
    workers: &mut Vec<Worker<D, S, K, C>>,
    beside: &mut Beside<D, S, K, C>,
    err: &mut E,
) -> LineEnd
where
    D::Link: Send,
    requires slots { AreSlotsFor plan.jobs.now plan.config.now (limits_of cell.now) }
    requires ready { AreReady ⟦<Kit<D, S, K, C> as Observed>⟧.devices cell.now (length plan.jobs.now) workers.old.items }
    requires few { length workers.old.items ≤ workers_max }
    requires fits { IsFor (length workers.old.items) beside.old }
    ensures len { (vec_len workers.new ≡ vec_len workers.old) × (length workers.new.items ≡ length workers.old.items) }
    ensures each { (number : ℕ) (d : _) → number < length workers.old.items →
        HasWorked ⟦<Kit<D, S, K, C> as Observed>⟧.devices cell.now (job_at plan.entry.jobs.now plan.entry.config.now) plan.entry.config.now.period
        (slice_index_or workers.old.items number d) (slice_index_or workers.new.items number d) }
    ensures back { AreBack beside.new }
    ensures marked { (number : ℕ) (d : _) (w : _) → number < length workers.old.items →
        HasMarkedOff (slice_index_or beside.old.markers.items number d) (slice_index_or beside.new.markers.items number d)
        (reports_on (reserve_of (slice_index_or workers.new.items number w))) }
    ensures watched { HasWatched C.shows E.shows (length plan.entry.jobs.now) (length workers.old.items) beside.old beside.new err.old err.new result }
{
    pair(workers, &mut beside.markers, &mut beside.pairs);
    let end = work_and_watch(rt, plan, cell, &mut beside.pairs, &mut beside.watch, err);
    unpair(&mut beside.pairs, workers, &mut beside.markers);
    end
}
