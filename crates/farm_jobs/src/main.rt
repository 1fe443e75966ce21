//! The program `farm_jobs`: the call `farm_jobs` over the standard streams of the system.
#![tactic(auto)]

use compile_database::farm_jobs;
use edge_real::{StdSink, StdSource, WaitingStream};
use farm_types::exits::NO_MEMORY;
use kept_input::KeptSource;
use std::alloc::AllocError;
use std::env;
use std::io::Eprint;
use std::process::ExitCode;

// The words of the command line. If one isn't UTF-8, they are one empty word, which is refused.
fn words_of(rt: &HostRuntime) -> Result<Vec<String>, AllocError> {
    let mut words = Vec::new(rt.alloc());
    match env::args(rt) {
        Ok(given) => {
            for word in given.skip(1) {
                words.push(word)?;
            }
        }
        Err(_) => words.push(String::new(rt.alloc()))?,
    }
    Ok(words)
}

// Prints that a text of the database ends with a carriage return, as `"gcc -c x.c\r"` does: it is a part of the last word.
fn tell_carriage_return<R: Eprint>(rt: &R, database: &[u8]) {
    let mut last = [0u8; 3];
    for byte in database {
        let [before, backslash, letter] = last;
        if *byte == b'"' && before != b'\\' && backslash == b'\\' && letter == b'r' {
            let _ = eprintln!(rt;
                "farm_jobs: a text of the database ends with CR: the CR is a part of its last word"
            );
            return;
        }
        last = [backslash, letter, *byte];
    }
}

// Runs `farm_jobs` on these words and the standard streams, and returns its exit status.
fn run(rt: &HostRuntime, words: &[String]) -> u8 {
    let mut input = KeptSource::new(
        rt.alloc(),
        StdSource::new(WaitingStream::new(*rt, rt.stdin())),
    );
    let mut out = StdSink::new(WaitingStream::new(*rt, rt.stdout()));
    let mut err = StdSink::new(WaitingStream::new(*rt, rt.stderr()));
    let status = farm_jobs(rt.alloc(), words, &mut input, &mut out, &mut err);
    tell_carriage_return(rt, input.kept().unwrap_or(&[]));
    status
}

fn main(rt: HostRuntime) -> ExitCode {
    match words_of(&rt) {
        Ok(words) => ExitCode::from(run(&rt, words.as_slice())),
        Err(_) => ExitCode::from(NO_MEMORY),
    }
}
