//! The public call of the program.

ghost use Rattle.std.specs.Prelude.{◌≡◌, ◌≤◌, ℕ, false, map, string_bytes, length, IfOk, Result};
ghost use Rattle.farm_types.specs.Limits.{workers_max};
ghost use Rattle.farmd_options.specs.declared.command.Command.{Command as Asked};
ghost use Rattle.farmd_options.specs.declared.command.Command.TheVariants as asked;
ghost use Rattle.farmd_options.specs.Commands.{IsCommand, ReadWords};
ghost use Rattle.farmd_options.specs.declared.options.Options.{Options as Given};
ghost use Rattle.farmd_options.specs.Options.{shared_bound};
ghost use Rattle.daemon_program.specs.Daemons.{IsConfig, Serves};
ghost use Rattle.daemon_program.specs.Sharing.{RunAlike, DoesServe, DoesAll, CompletedAll};
ghost use Rattle.daemon_program.specs.Complete.{IsSmooth};

use crate::books::serve_beside_books;
use crate::output::{refuse_words, tell, want_memory};
use crate::printing::print_log;
use crate::share_printing::print_shared;
use crate::sharing::serve_beside_shared;
use crate::status::status_of;
use access_list::AccessList;
use daemon_service::Compilers;
use daemon_worker::{DaemonConfig, DoorKit, serve_first};
use edge_traits::{Door, Sink, Station};
use farmd_options::{
    Command, Options, compilers_of, help_text, parse_words, rules_of, settings_of, version_text,
};
use std::alloc::{AllocError, Global};
use std::marker::Brand;
use std::random::RandomSource;
use std::sync::Wait;
use std::thread::Threads;

// What the doors are served by, as the words say.
fn config_of(alloc: Global, words: &[String], options: &Options) -> Result<DaemonConfig, AllocError>
    ensures { IfOk result (IsConfig (map string_bytes words.now) options.now) }
{
    Ok(DaemonConfig {
        table: Compilers {
            rows: compilers_of(alloc, settings_of(words))?,
        },
        serve: options.serve(),
        access: AccessList {
            rules: rules_of(alloc, settings_of(words))?,
        },
    })
}

// Serves the first doors, and prints the log.
fn serve_words<R: Threads + Sync, A: Door + Send + Drop, S: Station + Send + Drop, O: Sink>(
    rt: &R,
    alloc: Global,
    words: &[String],
    options: &Options,
    doors: &mut Vec<DoorKit<A, S>>,
    out: &mut O,
) -> u8
where
    A::Link: Send,
    requires words { IsCommand (map string_bytes words.now) (asked.Serve options.now) }
    requires some { 1 ≤ length doors.old.items }
    requires few { length doors.old.items ≤ workers_max }
    ensures { Serves A.shows S.shows S.ran S.goes (map string_bytes words.now) options.now doors.old.items doors.new.items (O.shows out.old) (O.shows out.new) result }
{
    let Ok(config) = config_of(alloc, words, options) else {
        return want_memory(out);
    };
    let count = usize::from(options.jobs()).min(doors.len());
    match options.book_bound() {
        Some(bound) => match serve_beside_books(rt, alloc, doors, count, &config, bound) {
            Ok((log, books)) => {
                let status = status_of(log.as_slice());
                print_log(alloc, log.as_slice(), books.as_slice(), status, out)
            }
            Err(_) => want_memory(out),
        },
        None => match serve_first(rt, alloc, doors, count, &config) {
            Ok(log) => print_log(alloc, log.as_slice(), &[], status_of(log.as_slice()), out),
            Err(_) => want_memory(out),
        },
    }
}

// Serves the first doors as the words say: with one book for all their stations, or as `serve_words`. It prints the log.
fn serve_asked<
    R: Threads + Wait + RandomSource + Sync,
    A: Door + Send + Drop,
    S: Station + Send + Drop,
    O: Sink,
>(
    rt: &R,
    alloc: Global,
    words: &[String],
    options: &Options,
    doors: &mut Vec<DoorKit<A, S>>,
    out: &mut O,
) -> u8
where
    A::Link: Send,
    requires words { IsCommand (map string_bytes words.now) (asked.Serve options.now) }
    requires some { 1 ≤ length doors.old.items }
    requires few { length doors.old.items ≤ workers_max }
    requires alike { RunAlike S.ran doors.old.items }
    ensures { DoesServe A.shows S.shows S.ran S.goes (map string_bytes words.now) options.now doors.old.items doors.new.items (O.shows out.old) (O.shows out.new) result (shared_bound options.now) }
{
    let Some(bound) = options.shared_bound() else {
        return serve_words(rt, alloc, words, options, doors, out);
    };
    let Ok(config) = config_of(alloc, words, options) else {
        return want_memory(out);
    };
    let used = usize::from(options.jobs()).min(doors.len());
    match serve_beside_shared::<Brand, R, A, S>(rt, alloc, doors, used, &config, bound) {
        Ok(shared) => print_shared(alloc, &shared, status_of(shared.log.as_slice()), out),
        Err(_) => want_memory(out),
    }
}

/// The program `farmd`. `words` are its arguments without its own name. It serves as many of the first doors as the words say,
/// and prints what became of each connection. There are 1 to 16 doors, whose stations' programs may leave the same, and the sink
/// isn't stopped. It may wait for peers, and for the book that doors share.
///
/// Words ask for one thing, or are bad at one place; so one clause speaks of each call.
pub fn farmd<
    R: Threads + Wait + RandomSource + Sync,
    A: Door + Send + Drop,
    S: Station + Send + Drop,
    O: Sink,
>(rt: &R, alloc: Global, words: &[String], doors: &mut Vec<DoorKit<A, S>>, out: &mut O) -> u8
where
    A::Link: Send,
    requires some { 1 ≤ length doors.old.items }
    requires few { length doors.old.items ≤ workers_max }
    requires alike { RunAlike S.ran doors.old.items }
    requires out { (O.shows out.old).stopped ≡ false }
    ensures does { (read : Result Asked ℕ) → ReadWords (map string_bytes words.now) read →
        DoesAll A.shows S.shows S.ran S.goes (map string_bytes words.now) doors.old.items doors.new.items (O.shows out.old) (O.shows out.new) result read }

    // If no used door, link or station failed, nor the sink, no run gave too much, and no send or write took nothing: each connection was answered by
    // what it gave, or denied, or memory ran out. The status is 0, or that of lack of memory.
    ensures complete { (options : Given) → IsCommand (map string_bytes words.now) (asked.Serve options) →
        IsSmooth A.shows S.shows S.ran options doors.old.items doors.new.items (O.shows out.old) (O.shows out.new) →
        CompletedAll A.shows S.shows S.ran (map string_bytes words.now) options doors.old.items doors.new.items result (shared_bound options) }
{
    match parse_words(words) {
        Ok(Command::Help) => tell(help_text(), 0, out),
        Ok(Command::Version) => tell(version_text(), 0, out),
        Ok(Command::Serve(options)) => serve_asked(rt, alloc, words, &options, doors, out),
        Err(place) => refuse_words(alloc, place, out),
    }
}
