//! The program `scc`: the call `scc` over the files and the standard streams of the system.
#![tactic(auto)]

use edge_real::{DiskFiles, HeldStreams, StdSink, WaitingStream, command_words, own_folder};
use farm_types::exits::{FAULT, NO_MEMORY};
use object_delivery::FileKeeper;
use sample_program::scc;
use std::alloc::AllocError;
use std::process::{self, ExitCode};

// The words of the command line. If one isn't UTF-8, there are none, which the compiler doesn't take.
fn words_of(rt: &HostRuntime) -> Result<Vec<String>, AllocError> {
    Ok(match command_words(rt)? {
        Some(words) => words,
        None => Vec::new(rt.alloc()),
    })
}

// Runs `scc` on the program's words, and answers its exit status.
fn run(rt: &HostRuntime) -> Result<u8, AllocError> {
    let words = words_of(rt)?;
    let files = DiskFiles::new(*rt, own_folder(rt)?, process::id(rt.process()), true);
    let mut keeper = FileKeeper::new(files);
    let mut out = StdSink::new(WaitingStream::new(*rt, rt.stdout()));
    let mut err = StdSink::new(WaitingStream::new(*rt, rt.stderr()));
    let status = scc(
        rt.alloc(),
        words.as_slice(),
        &mut keeper,
        &mut out,
        &mut err,
    );
    Ok(status)
}

fn main(rt: HostRuntime) -> ExitCode {
    let Ok(_held) = HeldStreams::take(&rt) else {
        let _ = eprintln!(rt; "scc: neither / nor /dev/null can be opened");
        return ExitCode::from(FAULT);
    };
    if let Ok(status) = run(&rt) {
        return ExitCode::from(status);
    }
    let _ = eprintln!(rt; "scc: no memory");
    ExitCode::from(NO_MEMORY)
}
