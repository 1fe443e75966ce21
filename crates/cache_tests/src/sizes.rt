//! Entries of any size within the bound are kept, if memory suffices.

use crate::filled::pattern;
use crate::same::same;
use crate::scripts::{COMPILE, words_of};
use edge_memory::{MemStation, RanList};
use edge_traits::{Bounds, CallNumbers, Station};
use farm_types::{Bytes, Ran, Word};
use object_cache::{Book, CachedStation, Stats};
use std::alloc::{AllocError, Global};
use std::process::Abort;
use std::test::Fail;

/// How many inputs are run, how many bytes each and its object have, and the bound of the book.
#[derive(Clone, Copy)]
struct Row {
    inputs: usize,
    input: usize,
    object: usize,
    bound: u64,
    bytes: u64,
}

const ROWS: &[Row] = &[
    // an object of 4 MiB; the words scc, -c and -o have 7 bytes
    Row {
        inputs: 1,
        input: 100_000,
        object: 4_194_304,
        bound: 8_388_608,
        bytes: 4_294_311,
    },
    // 200 small ones
    Row {
        inputs: 200,
        input: 1_000,
        object: 500,
        bound: 1_048_576,
        bytes: 301_400,
    },
];

fn rans(alloc: Global, row: &Row) -> Result<RanList, AllocError> {
    let mut rans = RanList::new(alloc);
    for at in 0..row.inputs {
        rans.try_push(Ran {
            status: 0,
            out: Bytes::new(alloc),
            err: Bytes::new(alloc),
            object: pattern(alloc, row.object, at)?,
        })?;
    }
    Ok(rans)
}

// Runs each input once, and compares the lengths of the objects.
fn run_all<R: Abort, S: Station>(
    rt: &R,
    alloc: Global,
    station: &mut S,
    words: &[Word],
    row: &Row,
) -> Result<(), Fail> {
    let bounds = Bounds {
        out: 0,
        err: 0,
        object: 4_194_304,
    };
    for at in 0..row.inputs {
        let input = pattern(alloc, row.input, at)?;
        let ran = station.run(alloc, words, input.as_slice(), &bounds);
        let length = ran.as_ref().map_or(0, |ran| ran.object.len());
        same(rt, &length, &row.object, &at);
    }
    Ok(())
}

fn expect_kept<R: Abort, S: Station>(
    rt: &R,
    alloc: Global,
    cached: &mut CachedStation<S>,
    row: &Row,
) -> Result<(), Fail> {
    let words = words_of(alloc, COMPILE)?;
    run_all(rt, alloc, cached, words.as_slice(), row)?;
    run_all(rt, alloc, cached, words.as_slice(), row)?;
    let inputs = row.inputs as u64;
    let stats = Stats {
        hits: inputs,
        misses: inputs,
        unkept: 0,
        bytes: row.bytes,
    };
    same(rt, &cached.book.stats(), &stats, &row.bytes);
    Ok(())
}

fn expect<R: Abort>(rt: &R, alloc: Global, row: &Row) -> Result<(), Fail> {
    let station = MemStation::new(rans(alloc, row)?, CallNumbers::new(alloc));
    let mut cached = CachedStation {
        station,
        book: Book::new(alloc, row.bound),
    };
    expect_kept(rt, alloc, &mut cached, row)
}

fn expect_each<R: Abort>(rt: &R, alloc: Global, rows: &[Row]) -> Result<(), Fail> {
    for row in rows {
        expect(rt, alloc, row)?;
    }
    Ok(())
}

#[test]
fn entries_of_any_size_are_kept(rt: HostRuntime) -> Result<(), Fail> {
    expect_each(&rt, rt.alloc(), ROWS)
}
