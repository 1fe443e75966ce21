//! One text on the sink, and the exit status.

ghost use Rattle.std.specs.Prelude.{◌≡◌, []};
ghost use Rattle.farm_types.specs.Exits.{bad_words_status};
ghost use Rattle.daemon_program.specs.Texts.{bad_words_text};
ghost use Rattle.daemon_program.specs.Endings.{Ends, WantsAfter};

use edge_traits::Sink;
use farm_types::exits::{BAD_WORDS, NO_MEMORY, STOPPED};
use std::alloc::Global;
use stream_print::{PrintStop, print};

/// What is printed if memory runs out outside the log.
const NO_MEMORY_TEXT: &[u8] = b"farmd: no memory\n";

/// Prints that memory ran out, and answers the status.
pub(crate) fn want_memory<O: Sink>(out: &mut O) -> u8
    ensures { WantsAfter [] (O.shows out.old) (O.shows out.new) result }
{
    match print(out, NO_MEMORY_TEXT) {
        Ok(()) => NO_MEMORY,
        Err(PrintStop::Stopped) => STOPPED,
        Err(PrintStop::Memory) => NO_MEMORY,
    }
}

/// Prints a text, and answers this status.
pub(crate) fn tell<O: Sink>(text: &[u8], status: u8, out: &mut O) -> u8
    ensures { Ends text.now status (O.shows out.old) (O.shows out.new) result }
{
    match print(out, text) {
        Ok(()) => status,
        Err(PrintStop::Stopped) => STOPPED,
        Err(PrintStop::Memory) => want_memory(out),
    }
}

/// Refuses words of which the one at this place is the first that isn't right.
pub(crate) fn refuse_words<O: Sink>(alloc: Global, place: usize, out: &mut O) -> u8
    ensures { Ends (bad_words_text place) bad_words_status (O.shows out.old) (O.shows out.new) result }
{
    match format!(in alloc; "farmd: bad words at word {place}\n") {
        Ok(text) => tell(text.as_bytes(), BAD_WORDS, out),
        Err(_) => want_memory(out),
    }
}
