//! Runs over devices in memory, in which a test has one allocation after another refused. The argument names the run: `one` and `four` are
//! twelve jobs by one worker and by four, `graph` is a graph of twelve jobs, `daemon` is a whole request of the daemon.
//!
//! It ends with 0 and prints nothing if the run ended as usual, and with 105 if memory ran out and it ended as it may then. If
//! it ended otherwise it ends with 0, too, and prints how, so that a refused allocation shows as other output with the same status.
#![tactic(auto)]

mod building;
mod judging;
mod serving;

use building::{Shape, twelve_jobs};
use farm_types::exits::{BAD_WORDS, NO_MEMORY};
use judging::Verdict;
use std::env;
use std::process::ExitCode;
use std::random::RandomSource;
use std::sync::Wait;
use std::thread::Threads;

// Does the run of this name, if there is one. It may wait for a slot.
fn run<W: Threads + Wait + RandomSource + Sync>(
    waits: &W,
    rt: &HostRuntime,
    name: &str,
) -> anyhow::Result<Option<Verdict>> {
    let alloc = rt.alloc();
    match name {
        "one" => Ok(Some(twelve_jobs(waits, alloc, Shape::One)?)),
        "four" => Ok(Some(twelve_jobs(waits, alloc, Shape::Four)?)),
        "graph" => Ok(Some(twelve_jobs(waits, alloc, Shape::Graph)?)),
        "daemon" => Ok(Some(serving::one_request(waits, alloc)?)),
        _ => Ok(None),
    }
}

fn main(rt: HostRuntime) -> anyhow::Result<ExitCode> {
    let mut words = env::args(&rt)?.skip(1);
    let Some(name) = words.next() else {
        return Ok(ExitCode::from(BAD_WORDS));
    };
    match run(&rt, &rt, name.as_str())? {
        Some(Verdict::Usual) => Ok(ExitCode::SUCCESS),
        Some(Verdict::Wanting) => Ok(ExitCode::from(NO_MEMORY)),
        Some(Verdict::Wrong(why)) => {
            println!(rt; "wrong: {why}")?;
            Ok(ExitCode::SUCCESS)
        }
        None => Ok(ExitCode::from(BAD_WORDS)),
    }
}
