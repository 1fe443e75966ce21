//! Entries that are kept in several pieces.

use crate::filled::pattern;
use crate::same::{same, same_bytes};
use crate::scripts::{COMPILE, words_of};
use edge_memory::{MemStation, RanList};
use edge_traits::{Bounds, CallNumbers, Station};
use farm_types::{Bytes, Ran, Word};
use object_cache::{Book, CachedStation, Stats};
use std::alloc::{AllocError, Global};
use std::process::Abort;
use std::test::Fail;

// How many bytes the outputs have, the object, and the source.
type Lengths = (usize, usize, usize);

// A piece has 320 bytes, and the numbers of 1,024 pieces are moved at once.
const LENGTHS: &[Lengths] = &[
    (0, 0, 0),
    (1, 0, 319),
    (0, 320, 320),
    (5, 321, 1),
    (320, 640, 641),
    (3, 20_000, 50_000),
    (0, 90_000, 240_000),
];

/// How many runs of several sizes there are. The book below holds some ten of them.
const CROWD: u8 = 60;

const BOUNDS: Bounds = Bounds {
    out: 10_000,
    err: 10_000,
    object: 100_000,
};

fn left(alloc: Global, lengths: Lengths, first: u8) -> Result<Ran, AllocError> {
    let first = usize::from(first);
    Ok(Ran {
        status: 0,
        out: pattern(alloc, lengths.0, first + 1)?,
        err: pattern(alloc, lengths.0, first + 2)?,
        object: pattern(alloc, lengths.1, first + 3)?,
    })
}

fn compare<R: Abort>(rt: &R, ran: &Ran, wanted: &Ran, len: usize) {
    same(rt, &ran.status, &wanted.status, &len);
    same_bytes(rt, ran.out.as_slice(), wanted.out.as_slice(), &len);
    same_bytes(rt, ran.err.as_slice(), wanted.err.as_slice(), &len);
    same_bytes(rt, ran.object.as_slice(), wanted.object.as_slice(), &len);
}

// A run leaves what is wanted.
fn expect_left<R: Abort, S: Station>(
    rt: &R,
    alloc: Global,
    station: &mut S,
    words: &[Word],
    source: &Bytes,
    wanted: &Ran,
) -> Result<(), Fail> {
    let Ok(ran) = station.run(alloc, words, source.as_slice(), &BOUNDS) else {
        return Err(Fail::from(AllocError));
    };
    compare(rt, &ran, wanted, source.len());
    Ok(())
}

// The source with a last byte, the same again, with another last byte, without one, and the first again.
fn expect_each<R: Abort, S: Station>(
    rt: &R,
    alloc: Global,
    station: &mut S,
    words: &[Word],
    source: &mut Bytes,
    wanted: &Ran,
) -> Result<(), Fail> {
    let len = source.len();
    source.try_push(252)?;
    expect_left(rt, alloc, station, words, source, wanted)?;
    expect_left(rt, alloc, station, words, source, wanted)?;
    source.truncate(len);
    source.try_push(253)?;
    expect_left(rt, alloc, station, words, source, wanted)?;
    source.truncate(len);
    expect_left(rt, alloc, station, words, source, wanted)?;
    source.try_push(252)?;
    expect_left(rt, alloc, station, words, source, wanted)
}

// What three runs of these lengths leave.
fn three(alloc: Global, lengths: Lengths) -> Result<RanList, AllocError> {
    let mut rans = RanList::new(alloc);
    for _ in 0..3 {
        rans.try_push(left(alloc, lengths, 0)?)?;
    }
    Ok(rans)
}

// Runs of these words and lengths, on five sources in turn.
fn expect_five<R: Abort, S: Station>(
    rt: &R,
    alloc: Global,
    station: &mut S,
    words: &[Word],
    lengths: Lengths,
) -> Result<(), Fail> {
    let wanted = left(alloc, lengths, 0)?;
    let mut source = pattern(alloc, lengths.2, 4)?;
    expect_each(rt, alloc, station, words, &mut source, &wanted)
}

// A station that would leave these, with a book of this bound.
fn cached(alloc: Global, rans: RanList, bound: u64) -> CachedStation<MemStation> {
    CachedStation {
        station: MemStation::new(rans, CallNumbers::new(alloc)),
        book: Book::new(alloc, bound),
    }
}

// How many runs the book answered, how many it didn't, and how many it couldn't keep.
fn expect_stats<R: Abort>(rt: &R, stats: Stats, wanted: (u64, u64, u64)) {
    let shown = (stats.hits, stats.misses, stats.unkept);
    same(rt, &shown, &wanted, &"the counts");
}

fn expect_counted<R: Abort, S: Station>(
    rt: &R,
    alloc: Global,
    cached: &mut CachedStation<S>,
    lengths: Lengths,
) -> Result<(), Fail> {
    let words = words_of(alloc, COMPILE)?;
    expect_five(rt, alloc, cached, words.as_slice(), lengths)?;
    expect_stats(rt, cached.book.stats(), (2, 3, 0));
    Ok(())
}

fn expect<R: Abort>(rt: &R, alloc: Global, lengths: Lengths) -> Result<(), Fail> {
    let mut cached = cached(alloc, three(alloc, lengths)?, 1_048_576);
    expect_counted(rt, alloc, &mut cached, lengths)
}

fn expect_lengths<R: Abort>(rt: &R, alloc: Global, all: &[Lengths]) -> Result<(), Fail> {
    for lengths in all {
        expect(rt, alloc, *lengths)?;
    }
    Ok(())
}

#[test]
fn lengths(rt: HostRuntime) -> Result<(), Fail> {
    expect_lengths(&rt, rt.alloc(), LENGTHS)
}

fn crowd_lengths(at: u8) -> Lengths {
    let at = usize::from(at);
    (at * 37 % 700, at * 61 % 1_500, at * 89 % 1_200)
}

// What the run of this number in the crowd is asked, and what it leaves.
fn expect_crowd<R: Abort, S: Station>(
    rt: &R,
    alloc: Global,
    station: &mut S,
    words: &[Word],
    at: u8,
) -> Result<(), Fail> {
    let lengths = crowd_lengths(at);
    let mut source = pattern(alloc, lengths.2, usize::from(at))?;
    source.try_push(at)?;
    let wanted = left(alloc, lengths, at)?;
    expect_left(rt, alloc, station, words, &source, &wanted)
}

// What the crowd's runs leave, one after another.
fn crowd_left(alloc: Global) -> Result<RanList, AllocError> {
    let mut rans = RanList::new(alloc);
    for at in 0..CROWD {
        rans.try_push(left(alloc, crowd_lengths(at), at)?)?;
    }
    Ok(rans)
}

// Asks for a run of the crowd, and for two of those before it.
fn expect_around<R: Abort, S: Station>(
    rt: &R,
    alloc: Global,
    station: &mut S,
    words: &[Word],
    at: u8,
) -> Result<(), Fail> {
    for back in [0, 1, 3] {
        expect_crowd(rt, alloc, station, words, at.saturating_sub(back))?;
    }
    Ok(())
}

// Asks so for all of them.
fn expect_all<R: Abort, S: Station>(
    rt: &R,
    alloc: Global,
    station: &mut S,
    words: &[Word],
) -> Result<(), Fail> {
    for at in 0..CROWD {
        expect_around(rt, alloc, station, words, at)?;
    }
    Ok(())
}

fn expect_crowded<R: Abort, S: Station>(
    rt: &R,
    alloc: Global,
    cached: &mut CachedStation<S>,
) -> Result<(), Fail> {
    let words = words_of(alloc, COMPILE)?;
    expect_all(rt, alloc, cached, words.as_slice())?;
    expect_stats(rt, cached.book.stats(), (120, 60, 0));
    Ok(())
}

#[test]
fn crowd(rt: HostRuntime) -> Result<(), Fail> {
    let mut cached = cached(rt.alloc(), crowd_left(rt.alloc())?, 24_576);
    expect_crowded(&rt, rt.alloc(), &mut cached)
}
