//! The log is printed line by line, each made when it is needed.

ghost use Rattle.std.specs.Prelude.{◌≤◌, ◌++◌, length};
ghost use Rattle.farm_types.specs.Limits.{workers_max};
ghost use Rattle.daemon_program.specs.Texts.{book_line, books_text, line_text, log_text};
ghost use Rattle.daemon_program.specs.Endings.{Ends, PrintEnded};

use crate::lines::{self, line};
use crate::output::want_memory;
use daemon_worker::Entry;
use edge_traits::Sink;
use farm_types::exits::STOPPED;
use object_cache::Stats;
use std::alloc::Global;
use stream_print::{PrintStop, print};

fn print_line<O: Sink>(alloc: Global, entry: &Entry, out: &mut O) -> Result<(), PrintStop>
    ensures { PrintEnded (line_text entry.now) result (O.shows out.old) (O.shows out.new) }
{
    match line(alloc, entry) {
        Ok(text) => print(out, text.as_slice()),
        Err(_) => Err(PrintStop::Memory),
    }
}

/// Prints the lines of all entries.
pub(crate) fn print_lines<O: Sink>(
    alloc: Global,
    log: &[Entry],
    out: &mut O,
) -> Result<(), PrintStop>
    ensures { PrintEnded (log_text log.now) result (O.shows out.old) (O.shows out.new) }
{
    let mut rest = log;
    'printing: while let [entry, after @ ..] = rest {
        print_line(alloc, entry, out)?;
        rest = after;
    }
    Ok(())
}

fn print_book<O: Sink>(
    alloc: Global,
    door: u32,
    stats: &Stats,
    out: &mut O,
) -> Result<(), PrintStop>
    ensures { PrintEnded (book_line door stats.now) result (O.shows out.old) (O.shows out.new) }
{
    match lines::book_line(alloc, door, stats) {
        Ok(bytes) => print(out, bytes.as_slice()),
        Err(_) => Err(PrintStop::Memory),
    }
}

// Prints the lines of all books, of doors from 1 on.
fn print_books<O: Sink>(alloc: Global, books: &[Stats], out: &mut O) -> Result<(), PrintStop>
    requires { length books.now ≤ workers_max }
    ensures { PrintEnded (books_text 1 books.now) result (O.shows out.old) (O.shows out.new) }
{
    let mut door = 0;
    let mut rest = books;
    'printing: while let [stats, after @ ..] = rest {
        door += 1;
        print_book(alloc, door, stats, out)?;
        rest = after;
    }
    Ok(())
}

// Prints the log and then the lines of the books.
fn print_all<O: Sink>(
    alloc: Global,
    log: &[Entry],
    books: &[Stats],
    out: &mut O,
) -> Result<(), PrintStop>
    requires { length books.now ≤ workers_max }
    ensures { PrintEnded (log_text log.now ++ books_text 1 books.now) result (O.shows out.old) (O.shows out.new) }
{
    print_lines(alloc, log, out)?;
    print_books(alloc, books, out)
}

/// Prints the log and then the lines of the books, and answers this status.
pub(crate) fn print_log<O: Sink>(
    alloc: Global,
    log: &[Entry],
    books: &[Stats],
    status: u8,
    out: &mut O,
) -> u8
    requires { length books.now ≤ workers_max }
    ensures { Ends (log_text log.now ++ books_text 1 books.now) status (O.shows out.old) (O.shows out.new) result }
{
    match print_all(alloc, log, books, out) {
        Ok(()) => status,
        Err(PrintStop::Stopped) => STOPPED,
        Err(PrintStop::Memory) => want_memory(out),
    }
}
