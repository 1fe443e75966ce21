//! Jobs of the workload, with their sources.

use crate::same::{same, same_bytes};
use farm_types::{Bytes, Words};
use std::alloc::Global;
use std::process::Abort;
use std::test::Fail;
use workload::{Load, make};

// The number of jobs, the place of one of them, its words with a blank after each, and its source.
type Row = (u32, usize, &'static [u8], &'static [u8]);

const LOADS: &[Row] = &[
    (1, 0, b"scc -c j1.c -o j1.o ", b"int j1 = 496 * 7 + 1;\n"),
    (2, 0, b"scc -c j1.c -o j1.o ", b"int j1 = 521 * 7 + 1;\n"),
    (2, 1, b"scc -c j2.c -o j2.o ", b"int j2 = 144 * 7 + 2;\n"),
    (
        512,
        511,
        b"scc -c j512.c -o j512.o ",
        b"int j512 = 713 * 7 + 512;\n",
    ),
];

fn load_of(alloc: Global, n: u32) -> Result<Load, Fail> {
    if n == 0 || n > 512 {
        return Err("the number is 1 to 512".into());
    }
    Ok(make(alloc, n)?)
}

fn words_of(load: &Load, at: usize) -> Result<&Words, Fail> {
    match load.jobs.get(at) {
        Some(words) => Ok(words),
        None => Err("the job is there".into()),
    }
}

// The words, with a blank after each.
fn line_of(alloc: Global, words: &Words) -> Result<Bytes, Fail> {
    let mut line = Bytes::new(alloc);
    for word in words.as_slice() {
        line.try_extend(word.as_slice())?;
        line.try_push(b' ')?;
    }
    Ok(line)
}

fn source_of<'a>(load: &'a Load, words: &Words) -> Result<&'a Bytes, Fail> {
    let Some(path) = words.get(2) else {
        return Err("the source has a name".into());
    };
    match load.files.find(path) {
        Some(text) => Ok(text),
        None => Err("the source is there".into()),
    }
}

fn expect_job<R: Abort>(rt: &R, alloc: Global, load: &Load, row: &Row) -> Result<(), Fail> {
    let words = words_of(load, row.1)?;
    let line = line_of(alloc, words)?;
    same(rt, &load.jobs.len(), &(row.0 as usize), &row.1);
    same_bytes(rt, line.as_slice(), row.2, &row.1);
    same_bytes(rt, source_of(load, words)?.as_slice(), row.3, &row.1);
    Ok(())
}

fn expect_jobs<R: Abort>(rt: &R, alloc: Global, rows: &[Row]) -> Result<(), Fail> {
    for row in rows {
        expect_job(rt, alloc, &load_of(alloc, row.0)?, row)?;
    }
    Ok(())
}

#[test]
fn jobs_and_sources(rt: HostRuntime) -> Result<(), Fail> {
    expect_jobs(&rt, rt.alloc(), LOADS)
}
