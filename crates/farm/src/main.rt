//! The program `farm`: the call `farm` over the devices of the system.
#![tactic(auto)]

mod compile;
mod run;
mod sending;
mod share;

use cc_command::compile_command;
use child_ends::{Kind, start_again};
use compile::{compile, compile_unread};
use edge_real::{HeldStreams, command_words};
use farm_types::exits::{FAULT, NO_MEMORY};
use run::run;
use share::share;
use std::alloc::AllocError;
use std::process::{self, ExitCode};
use std::sync::Wait;
use std::thread::Threads;

// Does what the words of the command line ask for, and returns the exit status. Words that aren't UTF-8 are read as none, which no command
// allows; only a compile command may have them.
fn serve<W: Threads + Wait + Sync>(waits: &W, rt: &HostRuntime) -> Result<u8, AllocError> {
    let Some(words) = command_words(rt)? else {
        if let Some(status) = compile_unread(rt)? {
            return Ok(status);
        }
        let _ = eprintln!(rt; "farm: a word of the command line isn't UTF-8");
        return run(waits, rt, &[]);
    };
    if let Some(status) = start_again(
        rt,
        process::id(rt.process()),
        Kind::Command,
        words.as_slice(),
    )? {
        return Ok(status);
    }
    if compile_command(words.as_slice()).is_some() {
        return compile(waits, rt, words);
    }
    if let Some(status) = share(rt, words.as_slice())? {
        return Ok(status);
    }
    run(waits, rt, words.as_slice())
}

fn main(rt: HostRuntime) -> ExitCode {
    let Ok(_held) = HeldStreams::take(&rt) else {
        let _ = eprintln!(rt; "farm: neither / nor /dev/null can be opened");
        return ExitCode::from(FAULT);
    };
    if let Ok(status) = serve(&rt, &rt) {
        return ExitCode::from(status);
    }
    let _ = eprintln!(rt; "farm: no memory");
    ExitCode::from(NO_MEMORY)
}
