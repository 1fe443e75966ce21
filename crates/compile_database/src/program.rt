//! The program `farm_jobs`: what its `main` calls.

ghost use Rattle.std.specs.Prelude.{◌≡◌, ℕ, List, false, map, string_bytes};
ghost use Rattle.stream_print.specs.Prints.{sinks_view};
ghost use Rattle.compile_database.specs.Databases.{FaultStands};
ghost use Rattle.compile_database.specs.Selections.{choice_of};
ghost use Rattle.compile_database.specs.Programs.{Does, Listed, Reads, Told};
ghost use Rattle.compile_database.specs.Refusals.{FaultRefused, ToldOrWanted, WordsRefused};

use crate::choice::Selection;
use crate::database::job_list_of;
use crate::fault::{DatabaseError, DatabaseFault};
use crate::help::{asked, text_of};
use crate::options::selection_of;
use edge_traits::{Sink, Source};
use farm_types::Bytes;
use farm_types::exits::{BAD_TEXT, BAD_WORDS, FAULT};
use std::alloc::Global;
use stream_print::{Input, Piece, SinkKind, complain, finish, no_memory, read_input};

/// A compile database of that many bytes is too long.
const TOO_LONG: usize = 67_108_864;

const UNREADABLE_TEXT: &[u8] = b"farm_jobs: cannot read the database\n";

const NO_MEMORY_TEXT: &[u8] = b"farm_jobs: no memory\n";

// Prints a text on the output.
fn tell<O: Sink, E: Sink>(bytes: Bytes, out: &mut O, err: &mut E) -> u8
    ensures { Told bytes (sinks_view O.shows E.shows out.old err.old)
        (sinks_view O.shows E.shows out.new err.new) result }
{
    let pieces = [Piece {
        sink: SinkKind::Out,
        bytes,
    }];
    finish(pieces.as_slice(), 0, NO_MEMORY_TEXT, out, err)
}

// Prints a text of the program itself.
fn tell_text<O: Sink, E: Sink>(alloc: Global, text: &[u8], out: &mut O, err: &mut E) -> u8
    ensures { ToldOrWanted text.now (sinks_view O.shows E.shows out.old err.old)
        (sinks_view O.shows E.shows out.new err.new) result }
{
    match Bytes::from_slice(alloc, text) {
        Ok(bytes) => tell(bytes, out, err),
        Err(_) => no_memory(NO_MEMORY_TEXT, out, err),
    }
}

// Refuses a text by its fault.
fn refuse_text<O: Sink, E: Sink>(
    alloc: Global,
    fault: DatabaseFault,
    out: &mut O,
    err: &mut E,
) -> u8
    ensures { FaultRefused fault (sinks_view O.shows E.shows out.old err.old)
        (sinks_view O.shows E.shows out.new err.new) result }
{
    match format!(in alloc; "farm_jobs: {fault}\n") {
        Ok(text) => complain(text.as_bytes(), BAD_TEXT, NO_MEMORY_TEXT, out, err),
        Err(_) => no_memory(NO_MEMORY_TEXT, out, err),
    }
}

// Refuses words; the one at this place is the first that doesn't fit.
fn refuse_words<O: Sink, E: Sink>(alloc: Global, place: usize, out: &mut O, err: &mut E) -> u8
    ensures { WordsRefused place (sinks_view O.shows E.shows out.old err.old)
        (sinks_view O.shows E.shows out.new err.new) result }
{
    match format!(in alloc; "farm_jobs: bad words at word {place}\n") {
        Ok(text) => complain(text.as_bytes(), BAD_WORDS, NO_MEMORY_TEXT, out, err),
        Err(_) => no_memory(NO_MEMORY_TEXT, out, err),
    }
}

// Prints the job list of a compile database.
fn list<O: Sink, E: Sink>(
    alloc: Global,
    text: &[u8],
    selection: &Selection<'_>,
    out: &mut O,
    err: &mut E,
) -> u8
    ensures { Listed (choice_of selection.now) text.now (sinks_view O.shows E.shows out.old err.old)
        (sinks_view O.shows E.shows out.new err.new) result }
{
    match job_list_of(alloc, text, selection) {
        Ok(made) => tell(made, out, err),
        Err(DatabaseError::Fault(fault)) => refuse_text(alloc, fault, out, err),
        Err(DatabaseError::Memory) => no_memory(NO_MEMORY_TEXT, out, err),
    }
}

// Reads a compile database, and prints its job list.
fn list_input<R: Source, O: Sink, E: Sink>(
    alloc: Global,
    selection: &Selection<'_>,
    input: &mut R,
    out: &mut O,
    err: &mut E,
) -> u8
    requires { (R.shows input.old).ended ≡ false }
    ensures { Reads (choice_of selection.now) (R.shows input.old) (R.shows input.new)
        (sinks_view O.shows E.shows out.old err.old)
        (sinks_view O.shows E.shows out.new err.new) result }
{
    match read_input(alloc, input, TOO_LONG) {
        Ok(Input::Whole(text)) => list(alloc, text.as_slice(), selection, out, err),
        Ok(Input::TooLong) => complain(UNREADABLE_TEXT, FAULT, NO_MEMORY_TEXT, out, err),
        Ok(Input::Unread) => complain(UNREADABLE_TEXT, FAULT, NO_MEMORY_TEXT, out, err),
        Err(_) => no_memory(NO_MEMORY_TEXT, out, err),
    }
}

/// The program `farm_jobs` (docs/compile-database.md). `words` are its arguments without its own name. It reads a compile database,
/// prints the job list of the entries that the words take, and returns its exit status. The input hasn't ended.
pub fn farm_jobs<R: Source, O: Sink, E: Sink>(
    alloc: Global,
    words: &[String],
    input: &mut R,
    out: &mut O,
    err: &mut E,
) -> u8
    requires { (R.shows input.old).ended ≡ false }
    ensures { Does (map string_bytes words.now) (R.shows input.old) (R.shows input.new)
        (sinks_view O.shows E.shows out.old err.old)
        (sinks_view O.shows E.shows out.new err.new) result }
{
    if let Some(ask) = asked(words) {
        return tell_text(alloc, text_of(ask), out, err);
    }
    match selection_of(words) {
        Ok(selection) => list_input(alloc, &selection, input, out, err),
        Err(place) => refuse_words(alloc, place, out, err),
    }
}
