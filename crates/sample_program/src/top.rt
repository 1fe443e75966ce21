//! The public call of the program.

ghost use Rattle.std.specs.Prelude.{◌≡◌, false, map, string_bytes, Err};
ghost use Rattle.edge_traits.specs.Keepers.{IsIdle};
ghost use Rattle.stream_print.specs.Prints.{sinks_view};
ghost use Rattle.stream_print.specs.Printing.{Printing};
ghost use Rattle.sample_program.specs.Forms as forms;
ghost use Rattle.sample_program.specs.Links.{DoesLink, DoesRun, PrintsRan, RefusedWords};
ghost use Rattle.sample_program.specs.Programs.{Compiled, Does, DoesWords, Told};
ghost use Rattle.sample_program.specs.Puts.{no_memory_text, printed_by};
ghost use Rattle.farm_types.specs.Exits.{exit_code_of};

use crate::forms::{link_form, run_form};
use crate::help::told_text;
use crate::linking::{link_files, run_image};
use crate::messages::refuse_words;
use crate::running::{RunStop, run};
use edge_traits::{Keeper, Sink};
use farm_types::exits::FAULT;
use farm_types::{Bytes, Ran, exit_code};
use std::alloc::Global;
use stream_print::{Piece, SinkKind, complain, finish, no_memory};

/// What is printed if files could not be fetched or put.
const FILE_FAULT_TEXT: &[u8] = b"scc: file fault\n";

/// What is printed if memory runs out.
const NO_MEMORY_TEXT: &[u8] = b"scc: no memory\n";

// Prints what a run left: its messages, and then its output.
fn print_run<O: Sink, E: Sink>(ran: Ran, out: &mut O, err: &mut E) -> u8
    ensures { Printing no_memory_text (printed_by ran) (exit_code_of ran.status)
        (sinks_view O.shows E.shows out.old err.old)
        (sinks_view O.shows E.shows out.new err.new) result }
{
    let pieces = [
        Piece {
            sink: SinkKind::Err,
            bytes: ran.err,
        },
        Piece {
            sink: SinkKind::Out,
            bytes: ran.out,
        },
    ];
    finish(
        pieces.as_slice(),
        exit_code(ran.status),
        NO_MEMORY_TEXT,
        out,
        err,
    )
}

// Prints a text on the output.
fn tell<O: Sink, E: Sink>(alloc: Global, text: &[u8], out: &mut O, err: &mut E) -> u8
    ensures { Told text.now (sinks_view O.shows E.shows out.old err.old)
        (sinks_view O.shows E.shows out.new err.new) result }
{
    match Bytes::from_slice(alloc, text) {
        Ok(bytes) => {
            let pieces = [Piece {
                sink: SinkKind::Out,
                bytes,
            }];
            finish(pieces.as_slice(), 0, NO_MEMORY_TEXT, out, err)
        }
        Err(_) => no_memory(NO_MEMORY_TEXT, out, err),
    }
}

// Prints why there was no run.
fn print_stop<O: Sink, E: Sink>(stop: RunStop, out: &mut O, err: &mut E) -> u8
    ensures { PrintsRan (Err stop) (sinks_view O.shows E.shows out.old err.old)
        (sinks_view O.shows E.shows out.new err.new) result }
{
    match stop {
        RunStop::File => complain(FILE_FAULT_TEXT, FAULT, NO_MEMORY_TEXT, out, err),
        RunStop::Memory => no_memory(NO_MEMORY_TEXT, out, err),
    }
}

// Prints what was left, or why there was no run.
fn print_ran<O: Sink, E: Sink>(ran: Result<Ran, RunStop>, out: &mut O, err: &mut E) -> u8
    ensures { PrintsRan ran (sinks_view O.shows E.shows out.old err.old)
        (sinks_view O.shows E.shows out.new err.new) result }
{
    match ran {
        Ok(ran) => print_run(ran, out, err),
        Err(stop) => print_stop(stop, out, err),
    }
}

// Compiles by the words, and prints what was left.
fn compile_by<K: Keeper, O: Sink, E: Sink>(
    alloc: Global,
    words: &[String],
    keeper: &mut K,
    out: &mut O,
    err: &mut E,
) -> u8
    requires idle { IsIdle (K.shows keeper.old) }
    ensures { Compiled (map string_bytes words.now) (K.shows keeper.old) (K.shows keeper.new)
        (sinks_view O.shows E.shows out.old err.old)
        (sinks_view O.shows E.shows out.new err.new) result }
{
    let ran = run(alloc, words, keeper);
    print_ran(ran, out, err)
}

// Prints that the words aren't right.
fn refuse<O: Sink, E: Sink>(alloc: Global, out: &mut O, err: &mut E) -> u8
    ensures { RefusedWords (sinks_view O.shows E.shows out.old err.old)
        (sinks_view O.shows E.shows out.new err.new) result }
{
    let ran = refuse_words(alloc);
    print_ran(ran, out, err)
}

// Links by the words after `--link`.
fn link_by<K: Keeper, O: Sink, E: Sink>(
    alloc: Global,
    words: &[String],
    keeper: &mut K,
    out: &mut O,
    err: &mut E,
) -> u8
    requires idle { IsIdle (K.shows keeper.old) }
    ensures { DoesLink (forms.link_form (map string_bytes words.now)) (K.shows keeper.old) (K.shows keeper.new)
        (sinks_view O.shows E.shows out.old err.old)
        (sinks_view O.shows E.shows out.new err.new) result }
{
    match link_form(words) {
        Some(form) => {
            let ran = link_files(alloc, form.files, form.image, keeper);
            print_ran(ran, out, err)
        }
        None => refuse(alloc, out, err),
    }
}

// Runs by the words after `--run`.
fn run_by<K: Keeper, O: Sink, E: Sink>(
    alloc: Global,
    words: &[String],
    keeper: &mut K,
    out: &mut O,
    err: &mut E,
) -> u8
    requires idle { IsIdle (K.shows keeper.old) }
    ensures { DoesRun (forms.run_form (map string_bytes words.now)) (K.shows keeper.old) (K.shows keeper.new)
        (sinks_view O.shows E.shows out.old err.old)
        (sinks_view O.shows E.shows out.new err.new) result }
{
    match run_form(words) {
        Some(image) => {
            let ran = run_image(alloc, image, keeper);
            print_ran(ran, out, err)
        }
        None => refuse(alloc, out, err),
    }
}

// Links or runs if the first word says so, and compiles by any other words.
fn do_words<K: Keeper, O: Sink, E: Sink>(
    alloc: Global,
    words: &[String],
    keeper: &mut K,
    out: &mut O,
    err: &mut E,
) -> u8
    requires idle { IsIdle (K.shows keeper.old) }
    ensures { DoesWords (map string_bytes words.now) (K.shows keeper.old) (K.shows keeper.new)
        (sinks_view O.shows E.shows out.old err.old)
        (sinks_view O.shows E.shows out.new err.new) result }
{
    match words {
        [first, rest @ ..] => match first.as_str() {
            "--link" => link_by(alloc, rest, keeper, out, err),
            "--run" => run_by(alloc, rest, keeper, out, err),
            _ => compile_by(alloc, words, keeper, out, err),
        },
        [] => compile_by(alloc, words, keeper, out, err),
    }
}

/// The program `scc` (docs/sample-compiler.md). `words` are its arguments without its own name. It fetches the files that they
/// look up, compiles, puts the object of a run that ended well, and prints the run's messages and then its output. If the
/// first word is `--link` or `--run` it links objects and runs images instead (docs/sample-linker.md). No put is pending, and
/// neither sink is stopped.
pub fn scc<K: Keeper, O: Sink, E: Sink>(
    alloc: Global,
    words: &[String],
    keeper: &mut K,
    out: &mut O,
    err: &mut E,
) -> u8
    requires idle { IsIdle (K.shows keeper.old) }
    requires out { (O.shows out.old).stopped ≡ false }
    requires err { (E.shows err.old).stopped ≡ false }
    ensures { Does (map string_bytes words.now) (K.shows keeper.old) (K.shows keeper.new)
        (sinks_view O.shows E.shows out.old err.old)
        (sinks_view O.shows E.shows out.new err.new) result }
{
    match told_text(words) {
        Some(text) => tell(alloc, text, out, err),
        None => do_words(alloc, words, keeper, out, err),
    }
}
