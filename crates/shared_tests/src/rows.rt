//! Runs at two doors beside one book.

ghost use Rattle.std.specs.Prelude.{◌≡◌, ◌<◌, ◌^◌, ⊤};
ghost use Rattle.edge_traits.specs.Told.{SameRelation3};

use crate::scripts::{NARROW, Narrow, TIGHT, Tight, WIDE, Wide, book, compile_words, station};
use edge_memory::MemStation;
use edge_traits::{Bounds, Station};
use shared_cache::{Counts, SharedStation, Sharing};
use std::alloc::{AllocError, Global};
use std::process::Abort;
use std::random::RandomSource;
use std::sync::Wait;
use std::test::Fail;

// What the first door's station leaves, and the second's.
const FIRST: &[u8] = b"SCO1\ndef a 1\n";

const SECOND: &[u8] = b"SCO1\ndef b 2\n";

// At which door, on what input, with at most how many bytes of object; and what is answered.
#[derive(Clone, Copy, Debug)]
struct Asked {
    second: bool,
    input: &'static [u8],
    object: u32,
    answer: &'static [u8],
}

const A: Asked = Asked {
    second: false,
    input: b"int a = 1;\n",
    object: 1_000,
    answer: FIRST,
};

const B: Asked = Asked {
    input: b"int b = 1;\n",
    ..A
};

const C: Asked = Asked {
    input: b"int c = 1;\n",
    ..A
};

// The runs, and of what status the stations' are; then the hits and misses of both doors, and the bytes of the book.
#[derive(Clone, Copy, Debug)]
struct Row {
    asked: &'static [Asked],
    status: u32,
    first: (u64, u64),
    second: (u64, u64),
    bytes: u64,
}

const ROW: Row = Row {
    asked: &[A, Asked { second: true, ..A }],
    status: 0,
    first: (0, 1),
    second: (1, 0),
    bytes: 31,
};

// Beside 1 MiB.
const WIDE_ROWS: &[Row] = &[
    // the second door answers what the first one's station left
    ROW,
    // each finds what the other's left
    Row {
        asked: &[
            A,
            Asked {
                second: true,
                answer: SECOND,
                ..B
            },
            Asked {
                answer: SECOND,
                ..B
            },
            Asked { second: true, ..A },
        ],
        first: (1, 1),
        second: (1, 1),
        bytes: 62,
        ..ROW
    },
    // what failed isn't kept
    Row {
        asked: &[
            A,
            Asked {
                second: true,
                answer: SECOND,
                ..A
            },
        ],
        status: 256,
        first: (0, 1),
        second: (0, 1),
        bytes: 0,
        ..ROW
    },
];

// Beside two entries: the latest used stays, and the one that wasn't used goes.
const NARROW_ROWS: &[Row] = &[
    ROW,
    Row {
        asked: &[
            A,
            B,
            Asked { second: true, ..A },
            Asked {
                second: true,
                answer: SECOND,
                ..C
            },
            A,
            B,
        ],
        first: (1, 3),
        second: (1, 1),
        bytes: 62,
        ..ROW
    },
    Row {
        asked: &[
            A,
            B,
            Asked {
                second: true,
                answer: SECOND,
                ..C
            },
            Asked {
                second: true,
                answer: SECOND,
                ..A
            },
            Asked {
                answer: SECOND,
                ..C
            },
        ],
        first: (1, 2),
        second: (0, 2),
        bytes: 62,
        ..ROW
    },
];

// Beside less than one entry: nothing is kept.
const TIGHT_ROWS: &[Row] = &[Row {
    asked: &[
        A,
        Asked {
            second: true,
            answer: SECOND,
            ..A
        },
        A,
    ],
    first: (0, 2),
    second: (0, 1),
    bytes: 0,
    ..ROW
}];

// What a station answers to one run.
fn expect_answer<R: Abort, S: Station>(
    rt: &R,
    alloc: Global,
    station: &mut S,
    asked: &Asked,
    row: &Row,
) -> Result<(), Fail> {
    let words = compile_words(alloc)?;
    let bounds = Bounds {
        out: 0,
        err: 0,
        object: asked.object,
    };
    match station.run(alloc, words.as_slice(), asked.input, &bounds) {
        Ok(ran) => assert_eq!(rt; ran.object.as_slice(), asked.answer, "{row:?}"),
        Err(fault) => assert!(rt; false, "{fault:?} {row:?}"),
    }
    Ok(())
}

fn expect_answers<R: Abort, S: Station>(
    rt: &R,
    alloc: Global,
    first: &mut S,
    second: &mut S,
    row: &Row,
) -> Result<(), Fail> {
    for asked in row.asked {
        if asked.second {
            expect_answer(rt, alloc, second, asked, row)?;
        } else {
            expect_answer(rt, alloc, first, asked, row)?;
        }
    }
    Ok(())
}

// The counts of a door, and that its station made a run for each miss.
fn expect_counts<R: Abort>(
    rt: &R,
    alloc: Global,
    apart: (MemStation, Counts),
    counts: (u64, u64),
    row: &Row,
) -> Result<(), AllocError> {
    let (station, counted) = apart;
    assert_eq!(rt; (counted.hits, counted.misses), counts, "{row:?}");
    let runs = station.into_runs().into_items(alloc)?;
    assert_eq!(rt; runs.len() as u64, counts.1, "{row:?}");
    Ok(())
}

fn expect<P: Sharing, R: Abort + Wait + RandomSource>(
    rt: &R,
    alloc: Global,
    bound: u64,
    row: &Row,
) -> Result<(), Fail>
    requires same { bound ≡ P.bound }
    requires small { bound < 2 ^ 63 }
    requires alike { SameRelation3 (λ words input ran. ⊤) P.ran }
{
    let count = row.asked.len();
    let book = book::<P, R>(rt, alloc, bound)?;
    let first = station(alloc, count, row.status, FIRST)?;
    let second = station(alloc, count, row.status, SECOND)?;
    let mut first = SharedStation::new(rt, &book, bound, first);
    let mut second = SharedStation::new(rt, &book, bound, second);
    expect_answers(rt, alloc, &mut first, &mut second, row)?;
    expect_counts(rt, alloc, first.apart(), row.first, row)?;
    expect_counts(rt, alloc, second.apart(), row.second, row)?;
    let stats = book.into_inner().stats();
    assert_eq!(rt; (stats.unkept, stats.bytes), (0, row.bytes), "{row:?}");
    Ok(())
}

fn expect_rows<P: Sharing, R: Abort + Wait + RandomSource>(
    rt: &R,
    alloc: Global,
    bound: u64,
    rows: &[Row],
) -> Result<(), Fail>
    requires same { bound ≡ P.bound }
    requires small { bound < 2 ^ 63 }
    requires alike { SameRelation3 (λ words input ran. ⊤) P.ran }
{
    for row in rows {
        expect::<P, R>(rt, alloc, bound, row)?;
    }
    Ok(())
}

#[test]
fn each_door_finds_what_the_other_left(rt: HostRuntime) -> Result<(), Fail> {
    expect_rows::<Wide, HostRuntime>(&rt, rt.alloc(), WIDE, WIDE_ROWS)
}

#[test]
fn the_latest_used_stays(rt: HostRuntime) -> Result<(), Fail> {
    expect_rows::<Narrow, HostRuntime>(&rt, rt.alloc(), NARROW, NARROW_ROWS)
}

#[test]
fn a_larger_entry_is_left_out(rt: HostRuntime) -> Result<(), Fail> {
    expect_rows::<Tight, HostRuntime>(&rt, rt.alloc(), TIGHT, TIGHT_ROWS)
}
