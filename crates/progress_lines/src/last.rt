//! The last line, once all workers have ended.
ghost use Rattle.std.specs.Prelude.{◌≡◌, ◌+◌, ◌^◌, ◌<◌, ◌≤◌, ◌++◌, [], length, map, true, decimal, codes};
ghost use Rattle.farm_monitor.specs.Boards.{board_watched};
ghost use Rattle.progress_lines.specs.Counts.{known, count_of, ReadOn};
ghost use Rattle.progress_lines.specs.Lines.{are_all, last_line, last_text};
ghost use Rattle.progress_lines.specs.Texts.{text_of};
ghost use Rattle.progress_lines.specs.Printed.{LinePrinted};

use crate::count::count_rows;
use crate::line_end::LineEnd;
use crate::room::LineText;
use edge_traits::Sink;
use farm_monitor::Watcher;
use stream_print::{PrintStop, print};

/// What is printed last if memory ran out for a row or a note.
const NO_MEMORY: &[u8] = b"watch last no memory\n";

// Prints the last line: that all have ended, or that memory ran out.
fn print_last<E: Sink>(jobs: u32, told: bool, err: &mut E) -> LineEnd
    ensures { LinePrinted (last_text jobs told) (E.shows err.old) (E.shows err.new) result }
{
    let line = LineText::last(jobs);
    let text = if told { line.as_slice() } else { NO_MEMORY };
    match print(err, text) {
        Ok(()) => LineEnd::Whole,
        Err(PrintStop::Stopped) => LineEnd::SinkFault,
        Err(PrintStop::Memory) => LineEnd::Memory,
    }
}

/// Prints the last line, and answers how that ended, and whether the line says that all jobs have ended. `told` says that each board was
/// given all its rows.
pub fn watch_last<E: Sink>(
    watchers: &mut [Watcher],
    jobs: u32,
    told: bool,
    err: &mut E,
) -> (LineEnd, bool)
    requires few { length watchers.old < 2 ^ 32 }
    ensures same { map board_watched watchers.new ≡ map board_watched watchers.old }
    ensures read { ReadOn (known watchers.old) (known watchers.new) }
    ensures told { result.1 ≡ true → (told ≡ true) × (are_all jobs (count_of jobs (known watchers.new)) ≡ true) }
    ensures printed { LinePrinted (last_text jobs result.1) (E.shows err.old) (E.shows err.new) result.0 }
{
    let count = count_rows(watchers, jobs);
    let all = told && count.are_all(jobs);
    (print_last(jobs, all, err), all)
}
