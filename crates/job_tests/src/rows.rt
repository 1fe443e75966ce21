//! Jobs over devices that follow scripts, and the slots of one thread.

use crate::expectations::expect_over;
use crate::same::holds;
use crate::scripted::{Ended, Left, Passed, Row, files, memory, numbers};
use edge_traits::{Cause, FetchFault};
use farm_machine::{By, Event, Why5};
use farm_types::{Bytes, Ran};
use object_delivery::{FileKeeper, Files, MemFiles};
use std::alloc::Global;
use std::process::Abort;
use std::sync::Wait;
use std::test::Fail;

pub(crate) const WHOLE: &[u8] =
    b"DONE00000001STAT00000000SERR00000000SOUT00000000DOTO0000000dSCO1\ndef a 1\n";

const CUT: &[u8] = b"DONE00000001STAT00000000SERR00000000SOUT00000000DOTO0000000dSCO1\ndef a 1";

const EMPTY: &[u8] = b"DONE00000001STAT00000000SERR00000000SOUT00000000DOTO00000000";

const REFUSED: &[u8] = b"DONE00000001STAT00000100SERR00000004bad\nSOUT00000000DOTO00000000";

pub(crate) const REQUEST: &[u8] =
    b"DIST00000001ARGC00000005ARGV00000003sccARGV00000002-cARGV00000003x.cARGV00000002-oARGV00000003x.oDOTI0000000bint a = 1;\n";

pub(crate) const SOURCE: Left = Left(0, b"int a = 1;\n", b"note\n", b"");

pub(crate) const MADE: Left = Left(0, b"", b"w\n", b"NEW");

pub(crate) const PREPROCESSED: (&str, &[u8]) = ("scc -E x.c", b"");

pub(crate) const COMPILED: (&str, &[u8]) = ("scc -c {i} -o {o}", b"int a = 1;\n");

pub(crate) const ALONE: Event = Event::GaveBad {
    host: 0,
    until: 160,
};

pub(crate) const ALONE_TOO: Event = Event::GaveBad {
    host: 1,
    until: 160,
};

const EXCHANGED: &[Event] = &[
    Event::Ran(0),
    Event::Took(0),
    Event::Exchanged(0),
    Event::Gave(0),
];

const BROKEN: &[Event] = &[
    Event::Ran(0),
    Event::Took(0),
    Event::Exchanged(0),
    ALONE,
    Event::TookLocal,
    Event::Ran(1),
    Event::GaveLocal,
    Event::Put(0),
];

/// One host, which answers with an object.
pub(crate) const FIRST: Row = Row {
    line: "scc -c x.c",
    hosts: &[("a", false)],
    fallback: true,
    retry: true,
    period: 60,
    tries: 1,
    moments: &[100],
    dial_fails: &[],
    gives: &[WHOLE],
    most: 5,
    rans: &[SOURCE, MADE],
    run_fails: &[],
    keeper_fails: &[],
    events: &[
        Event::Ran(0),
        Event::Took(0),
        Event::Exchanged(0),
        Event::Gave(0),
        Event::Put(0),
    ],
    end: Ended::Done(0, b"", By::Remote(0)),
    exchanges: &[Passed("a", REQUEST, WHOLE)],
    runs: &[PREPROCESSED],
    object: b"SCO1\ndef a 1\n",
};

/// A host that breaks its exchange, so that the job is compiled here.
const FALLEN: Row = Row {
    gives: &[CUT],
    events: BROKEN,
    end: Ended::Done(0, b"w\n", By::Here),
    exchanges: &[Passed("a", REQUEST, CUT)],
    runs: &[PREPROCESSED, COMPILED],
    object: b"NEW",
    ..FIRST
};

/// No host, so that the job is compiled here.
pub(crate) const HERE: Row = Row {
    hosts: &[],
    events: &[
        Event::Ran(0),
        Event::Down,
        Event::TookLocal,
        Event::Ran(1),
        Event::GaveLocal,
        Event::Put(0),
    ],
    end: Ended::Done(0, b"w\n", By::Here),
    exchanges: &[],
    runs: &[PREPROCESSED, COMPILED],
    object: b"NEW",
    ..FIRST
};

fn expect_row<R: Wait + Abort>(rt: &R, alloc: Global, row: &Row) -> Result<(), Fail> {
    let keeper = memory(alloc, files(alloc)?, row.keeper_fails)?;
    expect_over(rt, alloc, row, keeper)?;
    Ok(())
}

/// Does the job of each row.
pub(crate) fn expect_rows<R: Wait + Abort>(
    rt: &R,
    alloc: Global,
    rows: &[Row],
) -> Result<(), Fail> {
    for row in rows {
        expect_row(rt, alloc, row)?;
    }
    Ok(())
}

/// One job, for which there is one host.
const BY_ONE_HOST: &[Row] = &[
    FIRST,
    // A failure of the host's compiler is tried here once more, and is the job's with no retry.
    Row {
        gives: &[REFUSED],
        events: &[
            Event::Ran(0),
            Event::Took(0),
            Event::Exchanged(0),
            Event::Gave(0),
            Event::TookLocal,
            Event::Ran(1),
            Event::GaveLocal,
            Event::Put(0),
        ],
        exchanges: &[Passed("a", REQUEST, REFUSED)],
        ..FALLEN
    },
    Row {
        gives: &[REFUSED],
        retry: false,
        events: EXCHANGED,
        end: Ended::Done(256, b"bad\n", By::Remote(0)),
        exchanges: &[Passed("a", REQUEST, REFUSED)],
        object: b"old",
        ..FIRST
    },
    // A reply that is cut is no reply.
    FALLEN,
    Row {
        period: 0,
        fallback: false,
        events: EXCHANGED,
        end: Ended::Failed(Why5::Broke {
            host: 0,
            cause: Cause::Truncated { have: 72 },
        }),
        runs: &[PREPROCESSED],
        object: b"old",
        ..FALLEN
    },
    // Nothing is there to dial.
    Row {
        fallback: false,
        dial_fails: &[1],
        events: &[Event::Ran(0), Event::Took(0), Event::Exchanged(0), ALONE],
        end: Ended::Failed(Why5::Broke {
            host: 0,
            cause: Cause::Dial,
        }),
        exchanges: &[Passed("a", b"", b"")],
        object: b"old",
        ..FIRST
    },
];

#[test]
fn a_host_compiles(rt: HostRuntime) -> Result<(), Fail> {
    expect_rows(&rt, rt.alloc(), BY_ONE_HOST)
}

/// One job, whose object goes into a file.
const INTO_A_FILE: &[Row] = &[
    FIRST,
    // The second append fails, and the reply is read to its end all the same.
    Row {
        keeper_fails: &[3],
        events: EXCHANGED,
        end: Ended::Failed(Why5::Put),
        object: b"old",
        ..FIRST
    },
    // The rename fails.
    Row {
        keeper_fails: &[5],
        events: EXCHANGED,
        end: Ended::Failed(Why5::Put),
        object: b"old",
        ..FIRST
    },
    FALLEN,
    Row {
        gives: &[EMPTY],
        exchanges: &[Passed("a", REQUEST, EMPTY)],
        object: b"",
        ..FIRST
    },
];

fn no_file<F: Files>(alloc: Global, files: &mut F, name: &[u8]) -> Result<bool, Fail> {
    let name = Bytes::from_slice(alloc, name)?;
    Ok(matches!(files.load(alloc, &name, 100), Err(FetchFault::Absent)))
}

fn expect_no_file<R: Abort>(rt: &R, alloc: Global, files: &mut MemFiles) -> Result<(), Fail> {
    let none = no_file(alloc, files, b"x.o.farm~")?;
    holds(rt, none, &"no file");
    Ok(())
}

fn made(alloc: Global, row: &Row) -> Result<MemFiles, Fail> {
    let files = files(alloc)?;
    Ok(MemFiles::new(files, numbers(alloc, row.keeper_fails)?, 1_000))
}

/// Nothing is left under the name that the file has while it is written.
fn expect_file<R: Wait + Abort>(rt: &R, alloc: Global, row: &Row) -> Result<(), Fail> {
    let made = made(alloc, row)?;
    let keeper = expect_over(rt, alloc, row, FileKeeper::new(made))?;
    let mut made = keeper.into_files();
    expect_no_file(rt, alloc, &mut made)
}

fn expect_files<R: Wait + Abort>(rt: &R, alloc: Global, rows: &[Row]) -> Result<(), Fail> {
    for row in rows {
        expect_file(rt, alloc, row)?;
    }
    Ok(())
}

// The object goes into a file while it comes, in pieces of 5 bytes: the file is made, and has three appends.
#[test]
fn an_object_goes_straight_into_its_file(rt: HostRuntime) -> Result<(), Fail> {
    expect_files(&rt, rt.alloc(), INTO_A_FILE)
}

/// One job, for which there is this machine.
const BY_THIS_MACHINE: &[Row] = &[
    HERE,
    // The object can't be put.
    Row {
        keeper_fails: &[1],
        events: &[
            Event::Ran(0),
            Event::Down,
            Event::TookLocal,
            Event::Ran(1),
            Event::GaveLocal,
        ],
        end: Ended::Failed(Why5::Put),
        object: b"old",
        ..HERE
    },
    Row {
        fallback: false,
        events: &[Event::Ran(0), Event::Down],
        end: Ended::Failed(Why5::NoHost),
        runs: &[PREPROCESSED],
        object: b"old",
        ..HERE
    },
    // The entry is this machine, and its compiler dies by signal 9.
    Row {
        hosts: &[("localhost", true)],
        rans: &[SOURCE, Left(9, b"", b"", b"")],
        events: &[Event::Ran(0), Event::Took(0), Event::Ran(1), Event::Gave(0)],
        end: Ended::Done(9, b"", By::Here),
        object: b"old",
        ..HERE
    },
    // The source is preprocessed already.
    Row {
        line: "scc -c a.i -o x.o",
        hosts: &[("localhost", true)],
        rans: &[MADE],
        events: &[
            Event::Fetched(0),
            Event::Took(0),
            Event::Ran(0),
            Event::Gave(0),
            Event::Put(0),
        ],
        runs: &[COMPILED],
        ..HERE
    },
    // It isn't there, or can't be read.
    Row {
        line: "scc -c a.i -o x.o",
        keeper_fails: &[1],
        events: &[],
        end: Ended::Failed(Why5::Fetch),
        runs: &[],
        object: b"old",
        ..HERE
    },
    Row {
        line: "scc -c b.i -o x.o",
        events: &[],
        end: Ended::Failed(Why5::Fetch),
        runs: &[],
        object: b"old",
        ..HERE
    },
    // The preprocessor fails, can't be run, or the compiler can't.
    Row {
        hosts: &[("a", false)],
        rans: &[Left(256, b"", b"x.c: none\n", b"")],
        events: &[Event::Ran(0)],
        end: Ended::Done(256, b"x.c: none\n", By::Cpp),
        runs: &[PREPROCESSED],
        object: b"old",
        ..HERE
    },
    Row {
        run_fails: &[1],
        events: &[],
        end: Ended::Failed(Why5::Station),
        runs: &[],
        object: b"old",
        ..HERE
    },
    Row {
        run_fails: &[2],
        events: &[
            Event::Ran(0),
            Event::Down,
            Event::TookLocal,
            Event::GaveLocal,
        ],
        end: Ended::Failed(Why5::Station),
        runs: &[PREPROCESSED],
        object: b"old",
        ..HERE
    },
];

#[test]
fn this_machine_compiles(rt: HostRuntime) -> Result<(), Fail> {
    expect_rows(&rt, rt.alloc(), BY_THIS_MACHINE)
}
