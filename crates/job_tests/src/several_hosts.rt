//! Jobs that ask several hosts, and hosts that are in back-off.

use crate::expectations::expect_ended;
use crate::rows::{
    ALONE, ALONE_TOO, COMPILED, FIRST, MADE, PREPROCESSED, REQUEST, SOURCE, WHOLE, expect_rows,
};
use crate::scripted::{Ended, Passed, Row, files, memory, station};
use edge_traits::Cause;
use farm_machine::{By, Event, Why5};
use farm_types::Ran;
use std::alloc::Global;
use std::process::Abort;
use std::sync::Wait;
use std::test::Fail;

/// Two hosts, of which neither can be dialed.
const BOTH: Row = Row {
    hosts: &[("a", false), ("b", false)],
    tries: 2,
    dial_fails: &[1, 2],
    exchanges: &[Passed("a", b"", b""), Passed("b", b"", b"")],
    ..FIRST
};

/// One job, for which there are two hosts.
const BY_TWO_HOSTS: &[Row] = &[
    Row {
        dial_fails: &[1],
        events: &[
            Event::Ran(0),
            Event::Took(0),
            Event::Exchanged(0),
            ALONE,
            Event::Took(1),
            Event::Exchanged(1),
            Event::Gave(1),
            Event::Put(0),
        ],
        end: Ended::Done(0, b"", By::Remote(1)),
        exchanges: &[Passed("a", b"", b""), Passed("b", REQUEST, WHOLE)],
        ..BOTH
    },
    Row {
        fallback: false,
        events: &[
            Event::Ran(0),
            Event::Took(0),
            Event::Exchanged(0),
            ALONE,
            Event::Took(1),
            Event::Exchanged(1),
            ALONE_TOO,
        ],
        end: Ended::Failed(Why5::Broke {
            host: 1,
            cause: Cause::Dial,
        }),
        object: b"old",
        ..BOTH
    },
    Row {
        tries: 3,
        fallback: false,
        events: &[
            Event::Ran(0),
            Event::Took(0),
            Event::Exchanged(0),
            ALONE,
            Event::Took(1),
            Event::Exchanged(1),
            ALONE_TOO,
            Event::Down,
        ],
        end: Ended::Failed(Why5::Broke {
            host: 1,
            cause: Cause::Dial,
        }),
        object: b"old",
        ..BOTH
    },
    Row {
        tries: 3,
        events: &[
            Event::Ran(0),
            Event::Took(0),
            Event::Exchanged(0),
            ALONE,
            Event::Took(1),
            Event::Exchanged(1),
            ALONE_TOO,
            Event::Down,
            Event::TookLocal,
            Event::Ran(1),
            Event::GaveLocal,
            Event::Put(0),
        ],
        end: Ended::Done(0, b"w\n", By::Here),
        runs: &[PREPROCESSED, COMPILED],
        object: b"NEW",
        ..BOTH
    },
];

#[test]
fn several_tries(rt: HostRuntime) -> Result<(), Fail> {
    expect_rows(&rt, rt.alloc(), BY_TWO_HOSTS)
}

/// The first dial fails, and two jobs are done.
const TWICE: Row = Row {
    dial_fails: &[1],
    rans: &[SOURCE, MADE, SOURCE, MADE],
    ..FIRST
};

const LEFT_ALONE: &[Row] = &[
    Row {
        moments: &[100, 100, 159],
        end: Ended::Done(0, b"w\n", By::Here),
        ..TWICE
    },
    Row {
        moments: &[100, 100, 160],
        ..TWICE
    },
    Row {
        period: 0,
        moments: &[100, 100, 100],
        ..TWICE
    },
];

/// Does the job of a row twice, and compares the end of the second one.
fn expect_second_end<R: Wait + Abort>(rt: &R, alloc: Global, row: &Row) -> Result<(), Fail> {
    let keeper = memory(alloc, files(alloc)?, &[])?;
    expect_ended(rt, alloc, row, true, station(alloc, row)?, keeper)
}

fn expect_second_ends<R: Wait + Abort>(rt: &R, alloc: Global, rows: &[Row]) -> Result<(), Fail> {
    for row in rows {
        expect_second_end(rt, alloc, row)?;
    }
    Ok(())
}

// A host that broke an exchange is in back-off for the period: the next job finds it down a second before its end, and gets it
// at its end. With no period the next job gets it at once.
#[test]
fn a_host_is_left_alone(rt: HostRuntime) -> Result<(), Fail> {
    expect_second_ends(&rt, rt.alloc(), LEFT_ALONE)
}
