//! The log of doors whose stations share a book, and the lines after it.

ghost use Rattle.std.specs.Prelude.{◌≤◌, ◌++◌, length};
ghost use Rattle.farm_types.specs.Limits.{workers_max};
ghost use Rattle.daemon_program.specs.Texts.{log_text};
ghost use Rattle.daemon_program.specs.Sharing.{counts_line, counts_text, shared_line, shares_text};
ghost use Rattle.daemon_program.specs.Endings.{Ends, PrintEnded};

use crate::lines;
use crate::output::want_memory;
use crate::printing::print_lines;
use crate::sharing::Shared;
use edge_traits::Sink;
use farm_types::exits::STOPPED;
use shared_cache::{Counts, SharedStats};
use std::alloc::Global;
use stream_print::{PrintStop, print};

fn print_counts<O: Sink>(
    alloc: Global,
    door: u32,
    counts: &Counts,
    out: &mut O,
) -> Result<(), PrintStop>
    ensures { PrintEnded (counts_line door counts.now) result (O.shows out.old) (O.shows out.new) }
{
    match lines::counts_line(alloc, door, counts) {
        Ok(bytes) => print(out, bytes.as_slice()),
        Err(_) => Err(PrintStop::Memory),
    }
}

// Prints the lines of all doors, from 1 on.
fn print_all_counts<O: Sink>(alloc: Global, counts: &[Counts], out: &mut O) -> Result<(), PrintStop>
    requires { length counts.now ≤ workers_max }
    ensures { PrintEnded (counts_text 1 counts.now) result (O.shows out.old) (O.shows out.new) }
{
    let mut door = 0;
    let mut rest = counts;
    'printing: while let [one, after @ ..] = rest {
        door += 1;
        print_counts(alloc, door, one, out)?;
        rest = after;
    }
    Ok(())
}

fn print_book<O: Sink>(alloc: Global, stats: &SharedStats, out: &mut O) -> Result<(), PrintStop>
    ensures { PrintEnded (shared_line stats.now) result (O.shows out.old) (O.shows out.new) }
{
    match lines::shared_line(alloc, stats) {
        Ok(bytes) => print(out, bytes.as_slice()),
        Err(_) => Err(PrintStop::Memory),
    }
}

// Prints the lines of all doors and that of the book.
fn print_shares<O: Sink>(
    alloc: Global,
    counts: &[Counts],
    stats: &SharedStats,
    out: &mut O,
) -> Result<(), PrintStop>
    requires { length counts.now ≤ workers_max }
    ensures { PrintEnded (shares_text counts.now stats.now) result (O.shows out.old) (O.shows out.new) }
{
    print_all_counts(alloc, counts, out)?;
    print_book(alloc, stats, out)
}

// Prints the log, and the lines after it.
fn print_all<O: Sink>(alloc: Global, shared: &Shared, out: &mut O) -> Result<(), PrintStop>
    requires { length shared.now.counts.items ≤ workers_max }
    ensures { PrintEnded (log_text shared.now.log ++ shares_text shared.now.counts.items shared.now.stats) result (O.shows out.old) (O.shows out.new) }
{
    print_lines(alloc, shared.log.as_slice(), out)?;
    print_shares(alloc, shared.counts.as_slice(), &shared.stats, out)
}

/// Prints the log, the lines of the doors and that of the book, and answers this status.
pub(crate) fn print_shared<O: Sink>(alloc: Global, shared: &Shared, status: u8, out: &mut O) -> u8
    requires { length shared.now.counts.items ≤ workers_max }
    ensures { Ends (log_text shared.now.log ++ shares_text shared.now.counts.items shared.now.stats) status (O.shows out.old) (O.shows out.new) result }
{
    match print_all(alloc, shared, out) {
        Ok(()) => status,
        Err(PrintStop::Stopped) => STOPPED,
        Err(PrintStop::Memory) => want_memory(out),
    }
}
