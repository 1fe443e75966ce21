//! Doors beside a cache, and at one time.

use crate::programs::{ONE, Row, expect, expect_in_memory};
use crate::same::{same, same_items};
use crate::scripts::{REPLY, REQUEST, door, runs_of};
use daemon_worker::DoorKit;
use edge_gates::GateStation;
use edge_memory::{MemDoor, MemStation, RanList};
use edge_traits::{CallNumbers, Visit};
use farm_types::{Bytes, Ran};
use std::alloc::{AllocError, Global};
use std::process::Abort;
use std::random::RandomSource;
use std::sync::Wait;
use std::test::Fail;
use std::thread::Threads;

const CACHED: Row = Row {
    words: "--compiler scc=scc --jobs 1 --serve 2 --cache 1",
    doors: &[&[REQUEST, REQUEST]],
    out: "door 1 conn 1 answered 00000000\ndoor 1 conn 2 answered 00000000\ncache door 1 hits 1 misses 1 unkept 0 bytes 31\n",
    ..ONE
};

const SHARED: Row = Row {
    words: "--compiler scc=scc --jobs 1 --serve 2 --shared-cache 1",
    out: "door 1 conn 1 answered 00000000\ndoor 1 conn 2 answered 00000000\ncache door 1 hits 1 misses 1\ncache shared unkept 0 bytes 31\n",
    ..CACHED
};

fn object_ran(alloc: Global) -> Result<Ran, AllocError> {
    let object = Bytes::from_slice(alloc, b"SCO1\ndef a 1\n")?;
    Ok(Ran {
        status: 0,
        out: Bytes::new(alloc),
        err: Bytes::new(alloc),
        object,
    })
}

// A station whose first run makes an object, and no other does.
fn compiling(alloc: Global) -> Result<MemStation, AllocError> {
    let mut rans = RanList::new(alloc);
    rans.try_push(object_ran(alloc)?)?;
    Ok(MemStation::new(rans, CallNumbers::new(alloc)))
}

// A door of these requests, beside this station.
fn one_door<S: Drop>(
    alloc: Global,
    gives: &[&[u8]],
    station: S,
) -> Result<DoorKit<MemDoor, S>, AllocError> {
    let door = door(alloc, gives, &[], &[])?;
    Ok(DoorKit { door, station })
}

fn one_kit<K: Drop>(alloc: Global, kit: K) -> Result<Vec<K>, AllocError> {
    let mut kits = Vec::new(alloc);
    kits.push(kit)?;
    Ok(kits)
}

fn two_kits<K: Drop>(alloc: Global, first: K, second: K) -> Result<Vec<K>, AllocError> {
    let mut kits = Vec::new(alloc);
    kits.push(first)?;
    kits.push(second)?;
    Ok(kits)
}

fn expect_visits<R: Abort>(rt: &R, visits: &[Visit], count: usize) {
    same(rt, &visits.len(), &count, &"visits");
    for visit in visits {
        same_items(rt, visit.sent.as_slice(), REPLY, &"a visit");
    }
}

fn expect_replies<R: Abort>(
    rt: &R,
    alloc: Global,
    door: MemDoor,
    count: usize,
) -> Result<(), Fail> {
    let visits = door.into_visits().into_items(alloc)?;
    expect_visits(rt, visits.as_slice(), count);
    Ok(())
}

fn expect_one_compile<R: Abort>(
    rt: &R,
    alloc: Global,
    kit: DoorKit<MemDoor, MemStation>,
) -> Result<(), Fail> {
    let DoorKit { door, station } = kit;
    let runs = runs_of(alloc, station)?;
    same(rt, &runs, &1, &"runs");
    expect_replies(rt, alloc, door, 2)
}

// The kit of the one door, once it has served.
fn served_kit<R: Abort + Threads + Wait + RandomSource + Sync>(
    rt: &R,
    alloc: Global,
    row: &Row,
) -> Result<DoorKit<MemDoor, MemStation>, Fail> {
    let kit = one_door(alloc, &[REQUEST, REQUEST], compiling(alloc)?)?;
    let mut doors = one_kit(alloc, kit)?;
    expect_in_memory(rt, alloc, row, &mut doors)?;
    match doors.pop() {
        Some(kit) => Ok(kit),
        None => Err("there is no door".into()),
    }
}

fn expect_cache<R: Abort + Threads + Wait + RandomSource + Sync>(
    rt: &R,
    alloc: Global,
    row: &Row,
) -> Result<(), Fail> {
    expect_one_compile(rt, alloc, served_kit(rt, alloc, row)?)
}

// The same compile twice beside a book: both are answered alike, by one run.
#[test]
fn a_cache(rt: HostRuntime) -> Result<(), Fail> {
    expect_cache(&rt, rt.alloc(), &CACHED)
}

#[test]
fn a_shared_cache(rt: HostRuntime) -> Result<(), Fail> {
    expect_cache(&rt, rt.alloc(), &SHARED)
}

const SIDE_BY_SIDE: Row = Row {
    words: "--compiler scc=scc --jobs 2 --serve 1",
    doors: &[&[REQUEST], &[REQUEST]],
    out: "door 1 conn 1 answered 00000000\ndoor 2 conn 1 answered 00000000\n",
    ..ONE
};

// Two doors of one request each, by these stations.
fn two_doors<S: Drop>(
    alloc: Global,
    first: S,
    second: S,
) -> Result<Vec<DoorKit<MemDoor, S>>, AllocError> {
    let first = one_door(alloc, &[REQUEST], first)?;
    let second = one_door(alloc, &[REQUEST], second)?;
    two_kits(alloc, first, second)
}

// The station of door 1 waits until that of door 2 was called, so both doors have to be served at one time.
#[test]
fn two_doors_at_one_time(rt: HostRuntime) -> Result<(), Fail> {
    let alloc = rt.alloc();
    let (first, second) = GateStation::pair(&rt, alloc)?;
    let mut doors = two_doors(alloc, first, second)?;
    expect(&rt, alloc, &SIDE_BY_SIDE, &mut doors)
}
