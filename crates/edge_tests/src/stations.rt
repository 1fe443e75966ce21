//! Stations in memory, which leave what they are given.

use crate::devices::numbers;
use crate::same::{holds, same, same_bytes};
use edge_memory::{MemStation, RanList};
use edge_traits::{Bounds, Run, Station, StationFault, Stream};
use farm_types::{Bytes, Ext, Ran, Word};
use std::alloc::{AllocError, Global};
use std::process::Abort;
use std::test::Fail;

/// The status, the output and the object of a run.
type Left = (u32, &'static [u8], &'static [u8]);

fn ran(alloc: Global, left: &Left) -> Result<Ran, AllocError> {
    let (status, out, object) = left;
    Ok(Ran {
        status: *status,
        out: Bytes::from_slice(alloc, out)?,
        err: Bytes::new(alloc),
        object: Bytes::from_slice(alloc, object)?,
    })
}

fn rans(alloc: Global, all: &[Left]) -> Result<RanList, AllocError> {
    let mut rans = RanList::new(alloc);
    for left in all {
        rans.try_push(ran(alloc, left)?)?;
    }
    Ok(rans)
}

fn station(alloc: Global, all: &[Left], fails: &[u64]) -> Result<MemStation, AllocError> {
    Ok(MemStation::new(rans(alloc, all)?, numbers(alloc, fails)?))
}

fn status_of<S: Station>(alloc: Global, station: &mut S, out: u32) -> Result<u32, StationFault> {
    let words = [Word::Output];
    let bounds = Bounds {
        out,
        err: 0,
        object: 0,
    };
    let ran = station.run(alloc, &words, b"int a;", &bounds)?;
    Ok(ran.status)
}

/// The bound of a run's output, and what its call answers.
type Bounded = (u32, Result<u32, StationFault>);

fn expect_answers<R: Abort, S: Station>(rt: &R, alloc: Global, station: &mut S, all: &[Bounded]) {
    for (out, want) in all {
        same(rt, &status_of(alloc, station, *out), want, out);
    }
}

fn expect_statuses<R: Abort>(rt: &R, runs: &[Run], all: &[u32]) {
    same(rt, &runs.len(), &all.len(), &"runs");
    for (run, status) in runs.iter().zip(all) {
        same(rt, &run.ran.status, status, &"a run");
    }
}

const RUNS: &[Bounded] = &[
    (3, Ok(256)),
    (3, Err(StationFault::Failed)),
    (
        2,
        Err(StationFault::TooMuch {
            stream: Stream::Out,
            bytes: 3,
        }),
    ),
    (0, Ok(0)),
];

/// The statuses of the runs that went well.
const STATUSES: &[u32] = &[256, 0];

/// What its runs would leave.
const OUTPUTS: &[Left] = &[(256, b"out", b""), (512, b"out", b"")];

#[test]
fn stations_give_their_runs(rt: HostRuntime) -> Result<(), Fail> {
    let mut station = station(rt.alloc(), OUTPUTS, &[2])?;
    expect_answers(&rt, rt.alloc(), &mut station, RUNS);
    let runs = station.into_runs().into_items(rt.alloc())?;
    expect_statuses(&rt, runs.as_slice(), STATUSES);
    Ok(())
}

fn object_of<S: Station>(
    alloc: Global,
    station: &mut S,
    word: Word,
) -> Result<Bytes, StationFault> {
    let words = [word];
    let bounds = Bounds {
        out: 0,
        err: 0,
        object: 3,
    };
    let ran = station.run(alloc, &words, b"", &bounds)?;
    Ok(ran.object)
}

const OBJECTS: &[Left] = &[(0, b"", b"obj"), (0, b"", b"obj")];

fn expect_objects<R: Abort, S: Station>(
    rt: &R,
    alloc: Global,
    station: &mut S,
) -> Result<(), Fail> {
    let object = object_of(alloc, station, Word::Output)?;
    same_bytes(rt, object.as_slice(), b"obj", &"an output");
    let none = object_of(alloc, station, Word::Input(Ext::I))?;
    holds(rt, none.is_empty(), &"an input");
    Ok(())
}

#[test]
fn an_object_has_its_word(rt: HostRuntime) -> Result<(), Fail> {
    let mut station = station(rt.alloc(), OBJECTS, &[])?;
    expect_objects(&rt, rt.alloc(), &mut station)
}
