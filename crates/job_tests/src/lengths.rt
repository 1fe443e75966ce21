//! Jobs whose sources are at their limits.

use crate::expectations::expect_ended;
use crate::rows::{FIRST, HERE, MADE};
use crate::scripted::{Ended, Row, files, memory, numbers, station};
use edge_memory::{MemStation, RanList};
use edge_traits::FileList;
use farm_machine::{By, Why5};
use farm_types::{Bytes, Ran};
use std::alloc::Global;
use std::process::Abort;
use std::sync::Wait;
use std::test::Fail;

/// Pieces are as long as they come.
const LONG: Row = Row {
    most: 100_000_000,
    ..FIRST
};

const LENGTHS: &[(usize, Row)] = &[
    (33_554_432, LONG),
    (
        33_554_433,
        Row {
            end: Ended::Done(0, b"w\n", By::Here),
            ..LONG
        },
    ),
    (
        41_943_040,
        Row {
            end: Ended::Done(0, b"w\n", By::Here),
            ..LONG
        },
    ),
    (
        41_943_041,
        Row {
            end: Ended::Failed(Why5::Station),
            ..LONG
        },
    ),
];

/// A preprocessor's run that leaves that many blanks, and a compiler's.
fn long_rans(alloc: Global, length: usize) -> Result<RanList, Fail> {
    let mut rans = RanList::new(alloc);
    rans.try_push(Ran {
        status: 0,
        out: Bytes::from_vec(vec![in alloc; b' '; length]?),
        err: Bytes::new(alloc),
        object: Bytes::new(alloc),
    })?;
    rans.try_push(Ran {
        status: 0,
        out: Bytes::new(alloc),
        err: Bytes::from_slice(alloc, b"w\n")?,
        object: Bytes::from_slice(alloc, b"NEW")?,
    })?;
    Ok(rans)
}

fn long_station(alloc: Global, length: usize) -> Result<MemStation, Fail> {
    let rans = long_rans(alloc, length)?;
    Ok(MemStation::new(rans, numbers(alloc, &[])?))
}

/// Does the job of a row whose preprocessor leaves that many bytes.
fn expect_length<R: Wait + Abort>(
    rt: &R,
    alloc: Global,
    length: usize,
    row: &Row,
) -> Result<(), Fail> {
    let keeper = memory(alloc, files(alloc)?, &[])?;
    let station = long_station(alloc, length)?;
    expect_ended(rt, alloc, row, false, station, keeper)
}

fn expect_lengths<R: Wait + Abort>(
    rt: &R,
    alloc: Global,
    rows: &[(usize, Row)],
) -> Result<(), Fail> {
    for (length, row) in rows {
        expect_length(rt, alloc, *length, row)?;
    }
    Ok(())
}

// A source of the greatest length is sent, and one byte more is compiled here. A preprocessor's output of the greatest length
// is a source, and one byte more is a failure of the station.
#[test]
fn sources_at_their_limits(rt: HostRuntime) -> Result<(), Fail> {
    expect_lengths(&rt, rt.alloc(), LENGTHS)
}

const FETCHED: Row = Row {
    line: "scc -c a.i -o x.o",
    rans: &[MADE],
    ..HERE
};

const FETCHED_LENGTHS: &[(usize, Row)] = &[
    (41_943_040, FETCHED),
    (
        41_943_041,
        Row {
            end: Ended::Failed(Why5::Fetch),
            ..FETCHED
        },
    ),
];

/// The file `a.i` has that many blanks.
fn long_file(alloc: Global, length: usize) -> Result<FileList, Fail> {
    let mut files = FileList::new(alloc);
    files.try_put(
        Bytes::from_slice(alloc, b"a.i")?,
        Bytes::from_vec(vec![in alloc; b' '; length]?),
    )?;
    Ok(files)
}

/// Does the job of a row whose source has that many bytes.
fn expect_fetched<R: Wait + Abort>(
    rt: &R,
    alloc: Global,
    length: usize,
    row: &Row,
) -> Result<(), Fail> {
    let keeper = memory(alloc, long_file(alloc, length)?, &[])?;
    expect_ended(rt, alloc, row, false, station(alloc, row)?, keeper)
}

fn expect_all_fetched<R: Wait + Abort>(
    rt: &R,
    alloc: Global,
    rows: &[(usize, Row)],
) -> Result<(), Fail> {
    for (length, row) in rows {
        expect_fetched(rt, alloc, *length, row)?;
    }
    Ok(())
}

// A source that is preprocessed already has the greatest length, and one byte more can't be fetched.
#[test]
fn fetched_sources_at_their_limits(rt: HostRuntime) -> Result<(), Fail> {
    expect_all_fetched(&rt, rt.alloc(), FETCHED_LENGTHS)
}
