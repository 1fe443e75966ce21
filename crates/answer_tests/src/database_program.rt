//! Calls of the program that lists the jobs of a database.

use crate::inputs::source_of;
use crate::same::{same, same_bytes};
use compile_database::farm_jobs;
use edge_memory::{MemSink, Moves};
use edge_traits::{CallNumbers, Sink};
use std::alloc::{AllocError, Global};
use std::process::Abort;
use std::test::Fail;

fn sink_of(alloc: Global) -> MemSink {
    MemSink::new(
        alloc,
        Moves {
            fails: CallNumbers::new(alloc),
            zeros: CallNumbers::new(alloc),
            most: 1_000,
        },
    )
}

/// The words, the input and whether it fails, and the status with what is printed on both sinks.
struct ProgramRow {
    words: &'static [&'static str],
    text: &'static str,
    fails: bool,
    status: u8,
    out: &'static str,
    err: &'static str,
}

const LISTED: ProgramRow = ProgramRow {
    words: &[],
    text: "[{\"directory\":\"/\",\"command\":\"true\"}]",
    fails: false,
    status: 0,
    out: "\"true\"\n",
    err: "",
};

const PROGRAM: &[ProgramRow] = &[
    ProgramRow {
        status: 0,
        out: "\"true\"\n",
        err: "",
        ..LISTED
    },
    ProgramRow {
        words: &["--count", "1", "--folder", "/", "--from", "0"],
        status: 0,
        out: "\"true\"\n",
        err: "",
        ..LISTED
    },
    ProgramRow {
        words: &["--version"],
        text: "",
        status: 0,
        out: "farm_jobs 0.1\n",
        err: "",
        ..LISTED
    },
    ProgramRow {
        fails: true,
        status: 107,
        out: "",
        err: "farm_jobs: cannot read the database\n",
        ..LISTED
    },
    ProgramRow {
        text: "[]",
        status: 109,
        out: "",
        err: "farm_jobs: no entries\n",
        ..LISTED
    },
    ProgramRow {
        text: "[3]",
        status: 109,
        out: "",
        err: "farm_jobs: entry 0: no directory\n",
        ..LISTED
    },
    ProgramRow {
        words: &["--from"],
        status: 101,
        out: "",
        err: "farm_jobs: bad words at word 1\n",
        ..LISTED
    },
    ProgramRow {
        words: &["--from", "01"],
        status: 101,
        out: "",
        err: "farm_jobs: bad words at word 1\n",
        ..LISTED
    },
    ProgramRow {
        words: &["--count", "513"],
        status: 101,
        out: "",
        err: "farm_jobs: bad words at word 1\n",
        ..LISTED
    },
    ProgramRow {
        words: &["--from", "1", "--from", "2"],
        status: 101,
        out: "",
        err: "farm_jobs: bad words at word 2\n",
        ..LISTED
    },
    ProgramRow {
        words: &["--help", "--help"],
        status: 101,
        out: "",
        err: "farm_jobs: bad words at word 0\n",
        ..LISTED
    },
];

fn words_of(alloc: Global, list: &[&str]) -> Result<Vec<String>, AllocError> {
    let mut words = Vec::new(alloc);
    for word in list {
        words.push(String::from_str(alloc, word)?)?;
    }
    Ok(words)
}

/// The status of a call of the program.
fn status_of<O: Sink, E: Sink>(
    alloc: Global,
    words: &[String],
    row: &ProgramRow,
    out: &mut O,
    err: &mut E,
) -> Result<u8, AllocError> {
    let mut input = source_of(alloc, row.text, row.fails)?;
    Ok(farm_jobs(alloc, words, &mut input, out, err))
}

fn expect_program<R: Abort>(
    rt: &R,
    alloc: Global,
    words: &[String],
    row: &ProgramRow,
    at: usize,
) -> Result<(), AllocError> {
    let mut out = sink_of(alloc);
    let mut err = sink_of(alloc);
    let status = status_of(alloc, words, row, &mut out, &mut err)?;
    same(rt, &status, &row.status, &at);
    same_bytes(rt, out.written(), row.out.as_bytes(), &at);
    same_bytes(rt, err.written(), row.err.as_bytes(), &at);
    Ok(())
}

fn expect_programs<R: Abort>(rt: &R, alloc: Global, rows: &[ProgramRow]) -> Result<(), Fail> {
    for (at, row) in rows.iter().enumerate() {
        let words = words_of(alloc, row.words)?;
        expect_program(rt, alloc, words.as_slice(), row, at)?;
    }
    Ok(())
}

#[test]
fn program(rt: HostRuntime) -> Result<(), Fail> {
    expect_programs(&rt, rt.alloc(), PROGRAM)
}
