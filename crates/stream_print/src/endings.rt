//! How a program ends: what it prints last, and the exit status that it returns.

ghost use Rattle.std.specs.Prelude.{[], ◌∷◌};
ghost use Rattle.stream_print.specs.Prints.{sinks_view};
ghost use Rattle.stream_print.specs.Printing.{Printing, WantOf, complaint};

use crate::{Piece, PrintStop, print, print_all};
use edge_traits::Sink;
use farm_types::exits::{NO_MEMORY, STOPPED};

/// Prints on the sink of errors the notice that memory ran out, and returns the exit status: `NO_MEMORY`, or
/// `STOPPED` if that sink stopped.
pub fn no_memory<O: Sink, E: Sink>(notice: &[u8], out: &mut O, err: &mut E) -> u8
    ensures { WantOf notice.now [] (sinks_view O.shows E.shows out.old err.old)
        (sinks_view O.shows E.shows out.new err.new) result }
{
    match print(err, notice) {
        Ok(()) => NO_MEMORY,
        Err(PrintStop::Stopped) => STOPPED,
        Err(PrintStop::Memory) => NO_MEMORY,
    }
}

/// Prints these texts, and returns this exit status. If a sink stopped, nothing more is printed, and it returns
/// `STOPPED`. If one ran out of memory, the notice follows, and it returns what `no_memory` does.
pub fn finish<O: Sink, E: Sink>(
    pieces: &[Piece],
    status: u8,
    notice: &[u8],
    out: &mut O,
    err: &mut E,
) -> u8
    ensures { Printing notice.now pieces.now status (sinks_view O.shows E.shows out.old err.old)
        (sinks_view O.shows E.shows out.new err.new) result }
{
    match print_all(pieces, out, err) {
        Ok(()) => status,
        Err(PrintStop::Stopped) => STOPPED,
        Err(PrintStop::Memory) => no_memory(notice, out, err),
    }
}

/// Prints a text on the sink of errors, and returns this exit status, as `finish` does.
pub fn complain<O: Sink, E: Sink>(
    text: &[u8],
    status: u8,
    notice: &[u8],
    out: &mut O,
    err: &mut E,
) -> u8
    ensures { Printing notice.now (complaint text.now ∷ []) status
        (sinks_view O.shows E.shows out.old err.old)
        (sinks_view O.shows E.shows out.new err.new) result }
{
    match print(err, text) {
        Ok(()) => status,
        Err(PrintStop::Stopped) => STOPPED,
        Err(PrintStop::Memory) => no_memory(notice, out, err),
    }
}
