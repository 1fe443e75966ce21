//! Devices in memory, which follow their scripts.

use crate::devices::{keeper_with, numbers};
use crate::keepers::{Put, expect_puts, fetch_file};
use crate::same::{same, same_bytes};
use edge_memory::{
    LinkScript, LinkScripts, MemClock, MemDialer, MemDoor, MemLink, MemNeverLink, MemSink,
    MemSource, Moments, Moves, Peers,
};
use edge_traits::{
    Clock, Dialer, Door, EdgeFault, Exchange, FetchFault, Keeper, Link, Put as Kept, Sink, Source,
    Visit,
};
use farm_types::{Bytes, HostName};
use std::alloc::{AllocError, Global};
use std::process::Abort;
use std::test::Fail;

/// What a call answers: how many bytes it moved.
type Moved = Result<usize, EdgeFault>;

fn moves(alloc: Global) -> Result<Moves, AllocError> {
    Ok(Moves {
        fails: numbers(alloc, &[3])?,
        zeros: numbers(alloc, &[2])?,
        most: 4,
    })
}

fn script(alloc: Global) -> Result<LinkScript, AllocError> {
    Ok(LinkScript {
        gives: Bytes::from_slice(alloc, b"abcdef")?,
        moves: moves(alloc)?,
    })
}

fn one_script(alloc: Global) -> Result<LinkScripts, AllocError> {
    let mut links = LinkScripts::new(alloc);
    links.try_push(script(alloc)?)?;
    Ok(links)
}

#[derive(Clone, Copy, Debug)]
enum Step {
    /// Sends five bytes.
    Send,
    /// Receives at most three.
    Recv,
}

fn play<L: Link>(link: &mut L, step: Step) -> Moved {
    match step {
        Step::Send => link.send(b"hello"),
        Step::Recv => link.recv(&mut [0; 3]),
    }
}

fn expect_steps<R: Abort, L: Link>(rt: &R, link: &mut L, steps: &[(Step, Moved)]) {
    for (step, want) in steps {
        same(rt, &play(link, *step), want, step);
    }
}

const STEPS: &[(Step, Moved)] = &[
    (Step::Recv, Ok(3)),
    (Step::Recv, Ok(0)),
    (Step::Send, Err(EdgeFault::Failed)),
    (Step::Send, Ok(4)),
    (Step::Recv, Ok(3)),
    (Step::Recv, Ok(0)),
];

/// The same steps if no call fails.
const STEPS_WITHOUT_FAULT: &[(Step, Moved)] = &[
    (Step::Recv, Ok(3)),
    (Step::Recv, Ok(0)),
    (Step::Send, Ok(4)),
    (Step::Send, Ok(4)),
    (Step::Recv, Ok(3)),
    (Step::Recv, Ok(0)),
];

#[test]
fn links_follow_their_scripts(rt: HostRuntime) -> Result<(), Fail> {
    let mut link = MemLink::new(rt.alloc(), script(rt.alloc())?);
    expect_steps(&rt, &mut link, STEPS);
    same_bytes(&rt, link.into_sent().as_slice(), b"hell", &"sent");
    Ok(())
}

#[test]
fn a_link_that_never_fails_follows_its_script(rt: HostRuntime) -> Result<(), Fail> {
    let mut link = MemNeverLink::new(rt.alloc(), script(rt.alloc())?);
    expect_steps(&rt, &mut link, STEPS_WITHOUT_FAULT);
    Ok(())
}

fn dialer(alloc: Global) -> Result<MemDialer, AllocError> {
    Ok(MemDialer::new(one_script(alloc)?, numbers(alloc, &[2])?))
}

fn red(alloc: Global) -> Result<HostName, AllocError> {
    Ok(HostName {
        text: Bytes::from_slice(alloc, b"red")?,
    })
}

/// Sends five bytes over a new link, and answers how many were taken.
fn dial_once<D: Dialer>(alloc: Global, dialer: &mut D, host: &HostName) -> Moved {
    let mut link = dialer.dial(alloc, host, 3632)?;
    let sent = link.send(b"hello");
    dialer.hang_up(link);
    sent
}

/// Dials so often, and compares the answers.
fn expect_dials<R: Abort, D: Dialer>(
    rt: &R,
    alloc: Global,
    dialer: &mut D,
    all: &[Moved],
) -> Result<(), Fail> {
    let host = red(alloc)?;
    for want in all {
        same(rt, &dial_once(alloc, dialer, &host), want, &"a dial");
    }
    Ok(())
}

fn expect_sent<R: Abort>(rt: &R, exchanges: &[Exchange], all: &[&[u8]]) {
    same(rt, &exchanges.len(), &all.len(), &"exchanges");
    for (exchange, sent) in exchanges.iter().zip(all) {
        same_bytes(rt, exchange.sent.as_slice(), sent, &"sent");
    }
}

/// What three dials answer, and what was sent over each.
const DIALS: &[Moved] = &[Ok(4), Err(EdgeFault::Failed), Ok(5)];

const SENT: &[&[u8]] = &[b"hell", b"", b"hello"];

#[test]
fn dials(rt: HostRuntime) -> Result<(), Fail> {
    let mut dialer = dialer(rt.alloc())?;
    expect_dials(&rt, rt.alloc(), &mut dialer, DIALS)?;
    let exchanges = dialer.into_exchanges().into_items(rt.alloc())?;
    expect_sent(&rt, exchanges.as_slice(), SENT);
    Ok(())
}

fn one_peer(alloc: Global) -> Result<Peers, AllocError> {
    let mut peers = Peers::new(alloc);
    peers.try_push(7)?;
    Ok(peers)
}

fn door(alloc: Global) -> Result<MemDoor, AllocError> {
    let peers = one_peer(alloc)?;
    Ok(MemDoor::new(alloc, one_script(alloc)?, peers, numbers(alloc, &[2])?))
}

/// Receives at most three bytes over a new link, and answers whose it is.
fn accept_once<D: Door>(alloc: Global, door: &mut D) -> Result<u32, EdgeFault> {
    let (mut link, peer) = door.accept(alloc)?;
    let given = link.recv(&mut [0; 3]);
    door.leave(link);
    given?;
    Ok(peer)
}

fn expect_accepts<R: Abort, D: Door>(
    rt: &R,
    alloc: Global,
    door: &mut D,
    all: &[Result<u32, EdgeFault>],
) {
    for want in all {
        same(rt, &accept_once(alloc, door), want, &"an accept");
    }
}

fn expect_given<R: Abort>(rt: &R, visits: &[Visit], all: &[&[u8]]) {
    same(rt, &visits.len(), &all.len(), &"visits");
    for (visit, given) in visits.iter().zip(all) {
        same_bytes(rt, visit.given.as_slice(), given, &"given");
    }
}

/// What three accepts answer, and what was given over the links that there were.
const ACCEPTS: &[Result<u32, EdgeFault>] = &[Ok(7), Err(EdgeFault::Failed), Ok(0)];

const GIVEN: &[&[u8]] = &[b"abc", b""];

#[test]
fn accepts(rt: HostRuntime) -> Result<(), Fail> {
    let mut door = door(rt.alloc())?;
    expect_accepts(&rt, rt.alloc(), &mut door, ACCEPTS);
    let visits = door.into_visits().into_items(rt.alloc())?;
    expect_given(&rt, visits.as_slice(), GIVEN);
    Ok(())
}

fn fetched_len<K: Keeper>(
    alloc: Global,
    keeper: &mut K,
    name: &[u8],
    bound: u32,
) -> Result<usize, FetchFault> {
    let bytes = fetch_file(alloc, keeper, name, bound)?;
    Ok(bytes.len())
}

/// The name and the bound of a fetch, and how many bytes it answers.
type Fetched = (&'static [u8], u32, Result<usize, FetchFault>);

fn expect_lengths<R: Abort, K: Keeper>(rt: &R, alloc: Global, keeper: &mut K, all: &[Fetched]) {
    for (name, bound, want) in all {
        same(rt, &fetched_len(alloc, keeper, name, *bound), want, name);
    }
}

/// One put was made, of these bytes.
fn expect_one_put<R: Abort>(rt: &R, puts: &[Kept], bytes: &[u8]) {
    same(rt, &puts.len(), &1, &"puts");
    for put in puts {
        same_bytes(rt, put.bytes.as_slice(), bytes, &"a put");
    }
}

const PUTS: &[Put] = &[
    (b"x.o", b"new!", Ok(())),
    (b"x.o", b"", Err(EdgeFault::Failed)),
];

const FETCHES: &[Fetched] = &[
    (b"x.o", 4, Ok(4)),
    (b"x.o", 3, Err(FetchFault::TooMuch { bytes: 4 })),
    (b"y.o", 4, Err(FetchFault::Absent)),
];

#[test]
fn keepers_keep_files(rt: HostRuntime) -> Result<(), Fail> {
    let mut keeper = keeper_with(rt.alloc(), &[4])?;
    expect_puts(&rt, rt.alloc(), &mut keeper, PUTS);
    expect_lengths(&rt, rt.alloc(), &mut keeper, FETCHES);
    let puts = keeper.into_puts().into_items(rt.alloc())?;
    expect_one_put(&rt, puts.as_slice(), b"new!");
    Ok(())
}

fn next_moment<C: Clock>(clock: &mut C) -> u64 {
    clock.pause();
    clock.now()
}

fn moments(alloc: Global, all: &[u64]) -> Result<Moments, AllocError> {
    let mut moments = Moments::new(alloc);
    for moment in all {
        moments.try_push(*moment)?;
    }
    Ok(moments)
}

fn expect_moments<R: Abort, C: Clock>(rt: &R, clock: &mut C, all: &[u64]) {
    for want in all {
        same(rt, &next_moment(clock), want, &"a moment");
    }
}

#[test]
fn clocks_give_their_moments(rt: HostRuntime) -> Result<(), Fail> {
    let mut clock = MemClock::new(moments(rt.alloc(), &[5, 7])?);
    expect_moments(&rt, &mut clock, &[5, 7, 7]);
    Ok(())
}

fn source(alloc: Global) -> Result<MemSource, AllocError> {
    let text = Bytes::from_slice(alloc, b"abc")?;
    Ok(MemSource::new(text, numbers(alloc, &[2])?, 2))
}

fn read_three<S: Source>(source: &mut S) -> Moved {
    source.read(&mut [0; 3])
}

const READS: &[Moved] = &[Ok(2), Err(EdgeFault::Failed), Ok(1), Ok(0)];

fn expect_reads<R: Abort, S: Source>(rt: &R, source: &mut S, all: &[Moved]) {
    for want in all {
        same(rt, &read_three(source), want, &"a read");
    }
}

#[test]
fn sources_give_their_bytes(rt: HostRuntime) -> Result<(), Fail> {
    let mut source = source(rt.alloc())?;
    expect_reads(&rt, &mut source, READS);
    Ok(())
}

fn write_hello<S: Sink>(sink: &mut S) -> Moved {
    sink.write(b"hello")
}

const WRITES: &[Moved] = &[Ok(4), Ok(0), Err(EdgeFault::Failed), Ok(4)];

fn expect_writes<R: Abort, S: Sink>(rt: &R, sink: &mut S, all: &[Moved]) {
    for want in all {
        same(rt, &write_hello(sink), want, &"a write");
    }
}

#[test]
fn sinks_keep_what_they_take(rt: HostRuntime) -> Result<(), Fail> {
    let mut sink = MemSink::new(rt.alloc(), moves(rt.alloc())?);
    expect_writes(&rt, &mut sink, WRITES);
    same_bytes(&rt, sink.written(), b"hellhell", &"written");
    Ok(())
}
