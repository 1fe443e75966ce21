//! Rehearsals: the two numbers, as the sample compiler itself gives them.

use crate::devices::{FIRST, Script, run};
use crate::same::{holds, same, same_output};
use farm_types::Words;
use farm_types::limits::JOBS_MAX;
use rehearsal::{Count, Rehearsed, compiler_table, rehearse};
use sample_compiler::compile;
use sample_lang::FileMap;
use std::alloc::{AllocError, Global};
use std::process::Abort;
use std::sync::Wait;
use std::test::Fail;
use std::thread::Threads;
use workload::{Load, make};

// How many bytes the object of a job has that is compiled over the files.
fn bytes_of(alloc: Global, files: &FileMap, words: &Words) -> Result<Option<u64>, AllocError> {
    let ran = compile(alloc, files, words)?;
    Ok(if ran.status == 0 {
        Some(ran.object.len() as u64)
    } else {
        None
    })
}

// How many jobs are done, and the bytes of their objects, by what the compiler leaves of each job's own words over the files.
fn sums_of(alloc: Global, load: &Load) -> Result<(u64, u64), AllocError> {
    let mut done: u64 = 0;
    let mut bytes: u64 = 0;
    for words in load.jobs.as_slice() {
        if let Some(more) = bytes_of(alloc, &load.files, words)? {
            done = done.saturating_add(1);
            bytes = bytes.saturating_add(more);
        }
    }
    Ok((done, bytes))
}

// The line of a rehearsal.
fn line_of(alloc: Global, load: &Load) -> Result<String, AllocError> {
    let jobs = load.jobs.len();
    let (done, bytes) = sums_of(alloc, load)?;
    format!(in alloc; "rehearse {jobs} ok {done} bytes {bytes}\n")
}

fn expect<R: Abort + Threads + Wait + Sync>(
    rt: &R,
    alloc: Global,
    script: &Script,
    out: &[u8],
) -> Result<(), Fail> {
    let seen = run(rt, alloc, script)?;
    same_output(rt, &seen, 0, out, &script.words);
    let nothing_else = seen.err.is_empty() && seen.object.is_none();
    holds(rt, nothing_else, &script.words);
    Ok(())
}

const OF_ONE: Script = Script {
    words: &["rehearse", "1"],
    ..FIRST
};

const OF_TWO: Script = Script {
    words: &["rehearse", "2"],
    ..FIRST
};

const OF_MOST: Script = Script {
    words: &["rehearse", "512"],
    ..FIRST
};

// The line of as many jobs as a rehearsal may have.
fn most_line(alloc: Global) -> Result<String, AllocError> {
    let load = make(alloc, 512)?;
    line_of(alloc, &load)
}

fn expect_most<R: Abort + Threads + Wait + Sync>(rt: &R, alloc: Global) -> Result<(), Fail> {
    let line = most_line(alloc)?;
    let begins = line.as_bytes().starts_with(b"rehearse 512 ok 512 bytes ");
    holds(rt, begins, &line);
    expect(rt, alloc, &OF_MOST, line.as_bytes())
}

#[test]
fn rehearsals_tell_what_the_compiler_leaves(rt: HostRuntime) -> Result<(), Fail> {
    expect(&rt, rt.alloc(), &OF_ONE, b"rehearse 1 ok 1 bytes 24\n")?;
    expect(&rt, rt.alloc(), &OF_TWO, b"rehearse 2 ok 2 bytes 48\n")?;
    expect_most(&rt, rt.alloc())
}

/// How many jobs there are, and how many bytes their objects have.
const FEW: &[(u32, u64)] = &[(1, 24), (2, 48)];

// A rehearsal of that many jobs.
fn rehearsed<R: Threads + Wait + Sync>(rt: &R, alloc: Global, n: u32) -> Result<Rehearsed, Fail> {
    if n < 1 || n > JOBS_MAX as u32 {
        return Err("a number of jobs is 1 to 512".into());
    }
    Ok(rehearse(rt, alloc, n)?)
}

fn expect_rehearsed<R: Abort + Threads + Wait + Sync>(
    rt: &R,
    alloc: Global,
    n: u32,
    bytes: u64,
) -> Result<(), Fail> {
    let seen = rehearsed(rt, alloc, n)?;
    same(rt, &seen.count, &Some(Count { done: n, bytes }), &n);
    same(rt, &seen.built.reports.len(), &(n as usize), &n);
    Ok(())
}

fn expect_few<R: Abort + Threads + Wait + Sync>(
    rt: &R,
    alloc: Global,
    rows: &[(u32, u64)],
) -> Result<(), Fail> {
    for (n, bytes) in rows {
        expect_rehearsed(rt, alloc, *n, *bytes)?;
    }
    Ok(())
}

#[test]
fn rehearsals_of_few_jobs(rt: HostRuntime) -> Result<(), Fail> {
    expect_few(&rt, rt.alloc(), FEW)?;
    let table = compiler_table(rt.alloc())?;
    same(&rt, &table.rows.len(), &1, &"the compilers");
    Ok(())
}
