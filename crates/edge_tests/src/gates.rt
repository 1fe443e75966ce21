use crate::same::{holds, same};
use edge_gates::{GateDialer, GateStation};
use edge_traits::{Bounds, Dialer, EdgeFault, Link, Station, StationFault};
use farm_types::{Bytes, HostName};
use std::alloc::{AllocError, Global};
use std::process::Abort;
use std::sync::Wait;
use std::test::Fail;
use std::thread;

const REPLY: &str = "DONE00000001STAT00000000SERR00000000SOUT00000000DOTO0000000dSCO1\ndef a 1\n";

// Receives until the end, ten bytes at once.
fn receive<L: Link>(given: &mut Bytes, link: &mut L) -> Result<(), EdgeFault> {
    for _ in 0..100 {
        let mut room = [0; 10];
        let count = link.recv(&mut room)?;
        if count == 0 {
            break;
        }
        given.try_extend(&room[..count])?;
    }
    Ok(())
}

// Whether the peer gave its reply to a request.
fn ask<L: Link>(alloc: Global, link: &mut L) -> Result<bool, EdgeFault> {
    link.send(b"request")?;
    let mut given = Bytes::new(alloc);
    receive(&mut given, link)?;
    Ok(given.as_slice() == REPLY.as_bytes())
}

// One exchange: whether the peer gave its reply.
fn exchange<R: Wait>(alloc: Global, dialer: &mut GateDialer<'_, R>) -> Result<bool, EdgeFault> {
    let host = HostName {
        text: Bytes::from_slice(alloc, b"H")?,
    };
    let mut link = dialer.dial(alloc, &host, 3632)?;
    let given = ask(alloc, &mut link);
    dialer.hang_up(link);
    given
}

// Whether a run left status 0 and nothing else.
fn run<S: Station>(alloc: Global, station: &mut S) -> Result<bool, StationFault> {
    let bounds = Bounds {
        out: 0,
        err: 0,
        object: 0,
    };
    let ran = station.run(alloc, &[], b"", &bounds)?;
    Ok(ran.status == 0 && ran.out.is_empty() && ran.err.is_empty() && ran.object.is_empty())
}

// The devices of one thread, and what they answered.
#[derive(Drop)]
struct Side<'a, R> {
    dialer: GateDialer<'a, R>,
    station: GateStation<'a, R>,
    is_given: bool,
    has_run: bool,
}

// The devices of two threads, at one gate of each kind.
fn sides<R: Wait>(rt: &R, alloc: Global) -> Result<[Side<'_, R>; 2], AllocError> {
    let (first, second) = GateDialer::pair(rt, alloc)?;
    let (waits, awaited) = GateStation::pair(rt, alloc)?;
    Ok([
        Side {
            dialer: first,
            station: waits,
            is_given: false,
            has_run: false,
        },
        Side {
            dialer: second,
            station: awaited,
            is_given: false,
            has_run: false,
        },
    ])
}

fn use_side<R: Wait>(alloc: Global, side: &mut Side<'_, R>) {
    side.is_given = exchange(alloc, &mut side.dialer) == Ok(true);
    side.has_run = run(alloc, &mut side.station) == Ok(true);
}

#[test]
fn two_threads_pass(rt: HostRuntime) -> Result<(), Fail> {
    let alloc = rt.alloc();
    let mut sides = sides(&rt, alloc)?;
    thread::for_each_mut(&rt, &mut sides, 2, &|_, side| use_side(alloc, side));
    for side in &sides {
        holds(&rt, side.is_given && side.has_run, &"a side");
    }
    Ok(())
}

// The second dialer's exchange is the first, and is held until another one has asked.
fn expect_held<A: Abort, R: Wait>(
    rt: &A,
    alloc: Global,
    first: &mut GateDialer<'_, R>,
    second: &mut GateDialer<'_, R>,
) {
    let held = exchange(alloc, second);
    same(rt, &held, &Err(EdgeFault::Failed), &"held");
    same(rt, &exchange(alloc, second), &Ok(true), &"again");
    same(rt, &exchange(alloc, first), &Ok(true), &"the other");
}

#[test]
fn the_first_exchange_is_held(rt: HostRuntime) -> Result<(), Fail> {
    let (mut first, mut second) = GateDialer::pair(&rt, rt.alloc())?;
    expect_held(&rt, rt.alloc(), &mut first, &mut second);
    Ok(())
}

fn expect_waits<R: Abort, S: Station>(rt: &R, alloc: Global, waits: &mut S, awaited: &mut S) {
    let early = run(alloc, waits);
    same(rt, &early, &Err(StationFault::Failed), &"before the second");
    same(rt, &run(alloc, awaited), &Ok(true), &"the second");
    same(rt, &run(alloc, waits), &Ok(true), &"behind the second");
}

#[test]
fn the_first_station_waits_for_the_second(rt: HostRuntime) -> Result<(), Fail> {
    let (mut waits, mut awaited) = GateStation::pair(&rt, rt.alloc())?;
    expect_waits(&rt, rt.alloc(), &mut waits, &mut awaited);
    Ok(())
}

fn expect_turns<R: Abort, S: Station>(rt: &R, alloc: Global, first: &mut S, second: &mut S) {
    for turn in 0..2u32 {
        same(rt, &run(alloc, first), &Ok(true), &("the first", turn));
        same(rt, &run(alloc, second), &Ok(true), &("the second", turn));
    }
}

#[test]
fn stations_run_one_after_the_other(rt: HostRuntime) -> Result<(), Fail> {
    let (mut first, mut second) = GateStation::solo(&rt, rt.alloc())?;
    expect_turns(&rt, rt.alloc(), &mut first, &mut second);
    Ok(())
}
