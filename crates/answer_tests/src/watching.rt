//! The lines of a watched build, and the last one.

ghost use Rattle.std.specs.Prelude.{◌≡◌, []};
ghost use Rattle.edge_traits.specs.Told.{untold};
ghost use Rattle.farm_monitor.specs.Boards.{shown_rows};

use crate::same::{same, same_bytes};
use edge_memory::{MemSink, Moves};
use edge_traits::{CallNumbers, Clock, Sink};
use farm_monitor::{Progress, Shower, Watcher, board};
use progress_lines::{Count, LineEnd, LineText, count_rows, watch, watch_last};
use std::alloc::{AllocError, Global};
use std::process::Abort;
use std::sync::Wait;
use std::test::Fail;

fn numbers(alloc: Global, list: &[u64]) -> Result<CallNumbers, AllocError> {
    let mut numbers = CallNumbers::new(alloc);
    for number in list {
        numbers.try_push(*number)?;
    }
    Ok(numbers)
}

fn sink_of(alloc: Global, fails: &[u64]) -> Result<MemSink, AllocError> {
    let moves = Moves {
        fails: numbers(alloc, fails)?,
        zeros: CallNumbers::new(alloc),
        most: 1_000,
    };
    Ok(MemSink::new(alloc, moves))
}

/// A clock that counts its pauses.
#[derive(Drop)]
struct CountingClock {
    pauses: u32,
}

impl Clock for CountingClock {
    ghost shows = { λ clock. record { moments = untold [] } };

    fn now(&mut self) -> u64 {
        0
    }

    fn pause(&mut self) {
        self.pauses = self.pauses.saturating_add(1);
    }
}

/// A board on which this row was shown last, and noted.
fn told_of<R: Wait>(rt: &R, alloc: Global, row: Progress) -> Result<Watcher, AllocError> {
    let (mut shower, mut watcher) = board(rt, alloc)?;
    let shown = shower.show(rt, row);
    let note = shower.tell(rt);
    shower.end(rt);
    shown?;
    watcher.learn(note?);
    Ok(watcher)
}

fn watchers_of<R: Wait>(
    rt: &R,
    alloc: Global,
    first: Progress,
    second: Progress,
) -> Result<[Watcher; 2], AllocError> {
    let first = told_of(rt, alloc, first)?;
    let second = told_of(rt, alloc, second)?;
    Ok([first, second])
}

const FIRST_RUNS: Progress = Progress {
    job: Some(0),
    ended: 0,
};

const THIRD_RUNS: Progress = Progress {
    job: Some(2),
    ended: 2,
};

const ALL_ENDED: Progress = Progress {
    job: None,
    ended: 3,
};

/// What two boards show, and the lines that are printed of it.
struct LineRow {
    first: Progress,
    second: Progress,
    jobs: u32,
    lines: u32,
    /// The writes that fail.
    fails: &'static [u64],
    end: LineEnd,
    pauses: u32,
    text: &'static str,
}

const LINE_ROWS: &[LineRow] = &[
    LineRow {
        first: FIRST_RUNS,
        second: THIRD_RUNS,
        jobs: 4,
        lines: 2,
        fails: &[],
        end: LineEnd::Whole,
        pauses: 100,
        text: "watch 1 ended 2 of 4 busy 2\nwatch 2 ended 2 of 4 busy 2\n",
    },
    LineRow {
        first: ALL_ENDED,
        second: FIRST_RUNS,
        jobs: 4,
        lines: 1,
        fails: &[],
        end: LineEnd::Whole,
        pauses: 0,
        text: "watch 1 ended 3 of 4 busy 1\n",
    },
    LineRow {
        first: ALL_ENDED,
        second: THIRD_RUNS,
        jobs: 4,
        lines: 1,
        fails: &[],
        end: LineEnd::Whole,
        pauses: 0,
        text: "watch 1 ended 4 of 4 busy 1\n",
    },
    LineRow {
        first: ALL_ENDED,
        second: ALL_ENDED,
        jobs: 6,
        lines: 3,
        fails: &[],
        end: LineEnd::Whole,
        pauses: 0,
        text: "watch 1 ended 6 of 6 busy 0\n",
    },
    LineRow {
        first: ALL_ENDED,
        second: THIRD_RUNS,
        jobs: 5,
        lines: 3,
        fails: &[2],
        end: LineEnd::SinkFault,
        pauses: 100,
        text: "watch 1 ended 5 of 5 busy 1\n",
    },
];

fn ended<C: Clock, E: Sink>(
    clock: &mut C,
    watchers: &mut [Watcher; 2],
    row: &LineRow,
    err: &mut E,
) -> LineEnd {
    watch(clock, watchers, row.jobs, row.lines.min(100), err)
}

fn expect_lines<R: Abort>(
    rt: &R,
    alloc: Global,
    watchers: &mut [Watcher; 2],
    row: &LineRow,
) -> Result<(), AllocError> {
    let mut err = sink_of(alloc, row.fails)?;
    let mut clock = CountingClock { pauses: 0 };
    let end = ended(&mut clock, watchers, row, &mut err);
    same(rt, &end, &row.end, &row.text);
    same(rt, &clock.pauses, &row.pauses, &row.text);
    same_bytes(rt, err.written(), row.text.as_bytes(), &row.text);
    Ok(())
}

fn expect_line_rows<R: Wait + Abort>(rt: &R, alloc: Global, rows: &[LineRow]) -> Result<(), Fail> {
    for row in rows {
        let mut watchers = watchers_of(rt, alloc, row.first, row.second)?;
        expect_lines(rt, alloc, &mut watchers, row)?;
    }
    Ok(())
}

#[test]
fn each_line_counts_what_all_boards_show_and_pauses_lie_between_lines(
    rt: HostRuntime,
) -> Result<(), Fail> {
    expect_line_rows(&rt, rt.alloc(), LINE_ROWS)
}

/// What two boards show, and the last line.
struct LastRow {
    first: Progress,
    second: Progress,
    jobs: u32,
    /// Whether each had told all.
    told: bool,
    /// Whether the line says that all have ended.
    all: bool,
    text: &'static str,
}

const LAST_ROWS: &[LastRow] = &[
    LastRow {
        first: ALL_ENDED,
        second: ALL_ENDED,
        jobs: 6,
        told: true,
        all: true,
        text: "watch last ended 6 of 6 busy 0\n",
    },
    LastRow {
        first: ALL_ENDED,
        second: ALL_ENDED,
        jobs: 6,
        told: false,
        all: false,
        text: "watch last no memory\n",
    },
    LastRow {
        first: ALL_ENDED,
        second: THIRD_RUNS,
        jobs: 5,
        told: true,
        all: false,
        text: "watch last no memory\n",
    },
];

fn last<E: Sink>(watchers: &mut [Watcher; 2], row: &LastRow, err: &mut E) -> (LineEnd, bool) {
    watch_last(watchers, row.jobs, row.told, err)
}

fn expect_last<R: Abort>(
    rt: &R,
    alloc: Global,
    watchers: &mut [Watcher; 2],
    row: &LastRow,
) -> Result<(), AllocError> {
    let mut err = sink_of(alloc, &[])?;
    let (end, all) = last(watchers, row, &mut err);
    same(rt, &end, &LineEnd::Whole, &row.text);
    same(rt, &all, &row.all, &row.text);
    same_bytes(rt, err.written(), row.text.as_bytes(), &row.text);
    Ok(())
}

fn expect_last_rows<R: Wait + Abort>(rt: &R, alloc: Global, rows: &[LastRow]) -> Result<(), Fail> {
    for row in rows {
        let mut watchers = watchers_of(rt, alloc, row.first, row.second)?;
        expect_last(rt, alloc, &mut watchers, row)?;
    }
    Ok(())
}

#[test]
fn the_last_line_tells_of_all_jobs_where_all_was_told(rt: HostRuntime) -> Result<(), Fail> {
    expect_last_rows(&rt, rt.alloc(), LAST_ROWS)
}

#[test]
fn a_line_has_its_four_numbers(rt: HostRuntime) {
    let line = LineText::line(100, 512, Count { ended: 7, busy: 15 });
    let text = b"watch 100 ended 7 of 512 busy 15\n";
    same_bytes(&rt, line.as_slice(), text, &"a line");
    let last = LineText::last(3);
    let text = b"watch last ended 3 of 3 busy 0\n";
    same_bytes(&rt, last.as_slice(), text, &"the last line");
}

/// What is counted before the row is shown, and after it.
fn counts<R: Wait>(
    rt: &R,
    shower: &mut Shower,
    watchers: &mut [Watcher; 1],
) -> Result<(Count, Count), AllocError>
    requires { shown_rows shower.old ≡ [] }
{
    let before = count_rows(watchers, 3);
    shower.show(rt, THIRD_RUNS)?;
    let after = count_rows(watchers, 3);
    Ok((before, after))
}

fn counts_of<R: Wait>(rt: &R, alloc: Global) -> Result<(Count, Count), AllocError> {
    let (mut shower, watcher) = board(rt, alloc)?;
    let counts = counts(rt, &mut shower, &mut [watcher]);
    shower.end(rt);
    counts
}

#[test]
fn a_row_is_counted_while_its_worker_is_at_a_job(rt: HostRuntime) -> Result<(), Fail> {
    let (before, after) = counts_of(&rt, rt.alloc())?;
    same(&rt, &before, &Count { ended: 0, busy: 0 }, &"before");
    same(&rt, &after, &Count { ended: 2, busy: 1 }, &"after");
    Ok(())
}
