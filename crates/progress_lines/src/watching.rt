//! The lines that are printed while workers work.
ghost use Rattle.std.specs.Prelude.{◌≡◌, ◌+◌, ◌==◌, ◌^◌, ◌<◌, ◌≤◌, ◌||◌, [], length, map};
ghost use Rattle.edge_traits.specs.Told.{Grew};
ghost use Rattle.farm_monitor.specs.Boards.{board_watched};
ghost use Rattle.progress_lines.specs.Counts.{known, total, ReadOn};
ghost use Rattle.progress_lines.specs.Lines.{watch_line, are_all};
ghost use Rattle.progress_lines.specs.Printed.{LinePrinted, WatchTells};

use crate::count::{Count, count_rows};
use crate::line_end::LineEnd;
use crate::room::LineText;
use edge_traits::{Clock, Sink};
use farm_monitor::Watcher;
use stream_print::{PrintStop, print};

// Prints the line with this number and this count.
fn print_line<E: Sink>(number: u32, jobs: u32, count: Count, err: &mut E) -> LineEnd
    ensures { LinePrinted (watch_line number jobs count) (E.shows err.old) (E.shows err.new) result }
{
    let line = LineText::line(number, jobs, count);
    match print(err, line.as_slice()) {
        Ok(()) => LineEnd::Whole,
        Err(PrintStop::Stopped) => LineEnd::SinkFault,
        Err(PrintStop::Memory) => LineEnd::Memory,
    }
}

/// The pauses between two lines.
const PAUSES: u32 = 100;

// Pauses that many times, or until all jobs have ended and no worker is at one.
fn pause_on<C: Clock>(clock: &mut C, watchers: &mut [Watcher], jobs: u32, pauses: u32)
    requires few { length watchers.old < 2 ^ 32 }
    ensures same { map board_watched watchers.new ≡ map board_watched watchers.old }
    ensures rises { total (known watchers.old) ≤ total (known watchers.new) }
    ensures read { ReadOn (known watchers.old) (known watchers.new) }
    ensures paused { Grew (C.shows clock.old).moments (C.shows clock.new).moments [] }
{
    if pauses == 0 {
        return;
    }
    clock.pause();
    if !count_rows(watchers, jobs).are_all(jobs) {
        pause_on(clock, watchers, jobs, pauses - 1);
    }
}

// Whether a line with this count is the last, if that many are left.
fn is_last(left: u32, count: Count, jobs: u32) -> bool
    ensures { result ≡ ((left == 1) || are_all jobs count) }
{
    left == 1 || count.are_all(jobs)
}

// Goes on with the line of this number, if that many are left.
fn watch_on<C: Clock, E: Sink>(
    clock: &mut C,
    watchers: &mut [Watcher],
    jobs: u32,
    number: u32,
    left: u32,
    err: &mut E,
) -> LineEnd
    requires few { length watchers.old < 2 ^ 32 }
    requires room { number + left < 2 ^ 32 }
    ensures same { map board_watched watchers.new ≡ map board_watched watchers.old }
    ensures paused { Grew (C.shows clock.old).moments (C.shows clock.new).moments [] }
    ensures tells { WatchTells jobs number left watchers.old watchers.new (E.shows err.old) (E.shows err.new) result }
{
    if left == 0 {
        return LineEnd::Whole;
    }
    let count = count_rows(watchers, jobs);
    match print_line(number, jobs, count, err) {
        LineEnd::Whole if is_last(left, count, jobs) => LineEnd::Whole,
        LineEnd::Whole => {
            pause_on(clock, watchers, jobs, PAUSES);
            watch_on(clock, watchers, jobs, number + 1, left - 1, err)
        }
        LineEnd::SinkFault => LineEnd::SinkFault,
        LineEnd::Memory => LineEnd::Memory,
    }
}

/// Prints that many lines of what all boards show, or fewer if one says that all jobs have ended and no worker is at one. Between two of
/// them it pauses on the clock 100 times, or until that is so. It ends early if the sink stops or runs out of memory. It waits for nobody,
/// and takes no memory of its own.
pub fn watch<C: Clock, E: Sink>(
    clock: &mut C,
    watchers: &mut [Watcher],
    jobs: u32,
    lines: u32,
    err: &mut E,
) -> LineEnd
    requires few { length watchers.old < 2 ^ 32 }
    requires most { lines < 1000 }
    ensures same { map board_watched watchers.new ≡ map board_watched watchers.old }
    ensures paused { Grew (C.shows clock.old).moments (C.shows clock.new).moments [] }
    ensures tells { WatchTells jobs 1 lines watchers.old watchers.new (E.shows err.old) (E.shows err.new) result }
{
    watch_on(clock, watchers, jobs, 1, lines, err)
}
