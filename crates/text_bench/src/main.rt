//! Measures the writing and reading of requests and replies, and the reading of job lists, against plain copies of as many bytes.
//!
//! With the word `wire` or `jobs` it prints, for each task, how many times as long it takes as the copy.
//! Without one it prints how it is called, since printed times differ from run to run.
#![tactic(auto)]

mod jobs;
mod times;
mod wire;

use jobs::measure_jobs;
use std::env;
use std::rt::Runtime;
use wire::measure_wire;

#[derive(Clone, Copy)]
enum Subject {
    Wire,
    Jobs,
}

// The word after the program's name.
fn wanted<R: Runtime>(rt: &R) -> anyhow::Result<Option<Subject>> {
    let mut words = env::args(rt)?;
    let _program = words.next();
    let Some(word) = words.next() else {
        return Ok(None);
    };
    Ok(match word.as_str() {
        "wire" => Some(Subject::Wire),
        "jobs" => Some(Subject::Jobs),
        _ => None,
    })
}

fn main(rt: HostRuntime) -> anyhow::Result<()> {
    match wanted(&rt)? {
        Some(Subject::Wire) => measure_wire(&rt, rt.alloc()),
        Some(Subject::Jobs) => measure_jobs(&rt, rt.alloc()),
        None => {
            println!(rt; "usage: text_bench wire|jobs")?;
            Ok(())
        }
    }
}
