// Lines on the standard error that say why a run failed. One that can't be written is dropped.
ghost use Rattle.std.specs.Prelude.{◌≡◌};
ghost use Rattle.edge_programs.specs.Notices.{stream_text};

use crate::waiting::EarlyEnd;
use edge_streams::Shown;
use edge_traits::Stream;
use farm_types::Word;
use std::io::{Eprint, Error};
use std::str;
use std::time::Duration;

/// The program couldn't be started, for the system's reason.
pub fn tell_unstarted<R: Eprint>(rt: &R, program: &str, error: &Error) {
    let _ = eprintln!(rt; "{program}: cannot be started: {error}");
}

/// The first word that isn't let through, which so doesn't run.
pub fn tell_unserved<R: Eprint>(rt: &R, words: &[Word], place: usize) {
    if let Some(Word::Text(bytes)) = words.get(place) {
        let word = Shown(bytes.as_slice());
        let _ = eprintln!(rt; "{}: not let through: {word}", program_of(words));
    }
}

/// The program was killed before its end.
pub fn tell_killed<R: Eprint>(rt: &R, words: &[Word], end: EarlyEnd, lifetime: Option<Duration>) {
    let program = program_of(words);
    let _ = match (end, lifetime) {
        (EarlyEnd::Late, Some(lifetime)) => {
            eprintln!(rt; "{program}: killed after {} s", lifetime.as_secs())
        }
        _ => eprintln!(rt; "{program}: killed: its peer has gone"),
    };
}

/// The program was ended by a signal, if its wait status says so.
pub fn tell_signal<R: Eprint>(rt: &R, words: &[Word], status: u32) {
    let signal = status % 128;
    if signal != 0 {
        let _ = eprintln!(rt; "{}: killed by signal {signal}", program_of(words));
    }
}

/// The program ended with status 0, and what it left isn't of the kind that was asked for.
pub fn tell_unasked<R: Eprint>(rt: &R, words: &[Word], bytes: usize) {
    let _ = eprintln!(rt;
        "{}: what it left is no object of the asked kind: {bytes} bytes",
        program_of(words)
    );
}

/// The program ended with status 0, and what it left is empty.
pub fn tell_empty<R: Eprint>(rt: &R, words: &[Word]) {
    let _ = eprintln!(rt; "{}: what it left is empty", program_of(words));
}

/// The number of the fault of a wait for a child that isn't there: its end was taken already.
const NO_CHILD: i32 = 10;

/// The system doesn't say how a program ended, for this reason.
pub fn tell_lost<R: Eprint>(rt: &R, error: &Error) {
    let _ = if error.raw_os_error() == Some(NO_CHILD) {
        eprintln!(rt;
            "how a program ended isn't known: whoever started this one has it ignore SIGCHLD"
        )
    } else {
        eprintln!(rt; "how a program ended isn't known: {error}")
    };
}

/// The program ended with status 0, and there is no file at the path of its object.
pub fn tell_missing<R: Eprint>(rt: &R, words: &[Word]) {
    let _ = eprintln!(rt; "{}: left no object", program_of(words));
}

/// The program left more in a stream than is taken.
pub fn tell_overrun<R: Eprint>(rt: &R, words: &[Word], stream: Stream, bytes: u64) {
    let _ = eprintln!(rt;
        "{}: {} is too long: {bytes} bytes",
        program_of(words),
        name_of(stream)
    );
}

fn name_of(stream: Stream) -> &'static str
    ensures { result.now ≡ stream_text stream }
{
    match stream {
        Stream::Out => "its standard output",
        Stream::Err => "its standard error",
        Stream::Object => "its object",
    }
}

// The first word, if it is a text.
fn program_of(words: &[Word]) -> &str {
    match words.first() {
        Some(Word::Text(bytes)) => str::from_utf8(bytes.as_slice()).unwrap_or("a program"),
        _ => "a program",
    }
}
