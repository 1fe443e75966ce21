//! The service's answer to one connection.

use crate::devices::numbers;
use crate::same::{same, same_items};
use crate::scripts::{REPLY, REQUEST};
use daemon_service::{Compiler, CompilerVec, Compilers, Served, fault_number, serve_connection};
use edge_memory::{LinkScript, MemLink, MemStation, Moves, RanList};
use edge_traits::{Run, Station};
use farm_types::{Bytes, Ran, Word};
use std::alloc::{AllocError, Global};
use std::process::Abort;
use std::test::Fail;
use wire_tokens::{RequestFault, Which};

// How a link moves bytes: at most that many by one call, and which of its calls fail or move nothing.
#[derive(Clone, Copy)]
pub(crate) struct Course<'a> {
    pub(crate) most: u32,
    pub(crate) fails: &'a [u64],
    pub(crate) zeros: &'a [u64],
}

pub(crate) const PLAIN: Course<'static> = Course {
    most: 1_000,
    fails: &[],
    zeros: &[],
};

// What the one run of a station leaves, and which of its calls fail.
#[derive(Clone, Copy)]
pub(crate) struct Left<'a> {
    pub(crate) status: u32,
    pub(crate) err: &'a [u8],
    pub(crate) object: &'a [u8],
    pub(crate) fails: &'a [u64],
}

// The object of the reply of success.
pub(crate) const OBJECT: Left<'static> = Left {
    status: 0,
    err: b"",
    object: b"SCO1\ndef a 1\n",
    fails: &[],
};

// Nothing is left, and the status is 0.
pub(crate) const NOTHING: Left<'static> = Left {
    status: 0,
    err: b"",
    object: b"",
    fails: &[],
};

// The table names only `scc`; its program is elsewhere.
fn table(alloc: Global) -> Result<Compilers, AllocError> {
    let name = Bytes::from_slice(alloc, b"scc")?;
    let program = Bytes::from_slice(alloc, b"/usr/bin/scc")?;
    let mut rows = CompilerVec::new(alloc);
    rows.try_push(Compiler { name, program })?;
    Ok(Compilers { rows })
}

fn ran(alloc: Global, left: &Left) -> Result<Ran, AllocError> {
    let err = Bytes::from_slice(alloc, left.err)?;
    let object = Bytes::from_slice(alloc, left.object)?;
    Ok(Ran {
        status: left.status,
        out: Bytes::new(alloc),
        err,
        object,
    })
}

pub(crate) fn station(alloc: Global, left: &Left) -> Result<MemStation, AllocError> {
    let fails = numbers(alloc, left.fails)?;
    let mut rans = RanList::new(alloc);
    rans.try_push(ran(alloc, left)?)?;
    Ok(MemStation::new(rans, fails))
}

fn script(alloc: Global, gives: &[u8], course: &Course) -> Result<LinkScript, AllocError> {
    let fails = numbers(alloc, course.fails)?;
    let zeros = numbers(alloc, course.zeros)?;
    let gives = Bytes::from_slice(alloc, gives)?;
    Ok(LinkScript {
        gives,
        moves: Moves {
            fails,
            zeros,
            most: course.most,
        },
    })
}

// Serves one connection over a link of this script, and answers what was written too.
fn serve_link<S: Station>(
    alloc: Global,
    script: LinkScript,
    station: &mut S,
    table: &Compilers,
) -> (Served, Bytes) {
    let mut link = MemLink::new(alloc, script);
    let served = serve_connection(alloc, &mut link, station, table);
    (served, link.into_sent())
}

// Serves one connection that gives this, and answers what was written too.
fn serve<S: Station>(
    alloc: Global,
    gives: &[u8],
    course: &Course,
    station: &mut S,
) -> Result<(Served, Bytes), AllocError> {
    let table = table(alloc)?;
    let script = script(alloc, gives, course)?;
    Ok(serve_link(alloc, script, station, &table))
}

// The same, over a station whose one run leaves this.
fn serve_once(
    alloc: Global,
    gives: &[u8],
    course: &Course,
    left: &Left,
) -> Result<(Served, Bytes), AllocError> {
    let mut station = station(alloc, left)?;
    serve(alloc, gives, course, &mut station)
}

// A connection that gives this is answered so, and this is written over its link.
pub(crate) fn expect<R: Abort>(
    rt: &R,
    alloc: Global,
    gives: &[u8],
    course: &Course,
    left: &Left,
    wanted: (Served, &[u8]),
) -> Result<(), Fail> {
    let (served, written) = serve_once(alloc, gives, course, left)?;
    let place = ("bytes, and most at once", gives.len(), course.most);
    same(rt, &served, &wanted.0, &place);
    same_items(rt, written.as_slice(), wanted.1, &place);
    Ok(())
}

// The same with a link that moves at most 1, 50 and 1,000 bytes by one call.
fn expect_in_pieces<R: Abort>(
    rt: &R,
    alloc: Global,
    gives: &[u8],
    wanted: (Served, &[u8]),
) -> Result<(), Fail> {
    for most in [1, 50, 1_000] {
        let course = Course { most, ..PLAIN };
        expect(rt, alloc, gives, &course, &OBJECT, wanted)?;
    }
    Ok(())
}

// What a link gives, the status of the reply, and the reply.
type Reply = (&'static [u8], u32, &'static [u8]);

const REPLIES: &[Reply] = &[
    (REQUEST, 0, REPLY),
    (
        b"DIST00000001ARGC00000005ARGV00000003gccARGV00000002-cARGV00000003a.iARGV00000002-oARGV00000003a.oDOTI0000000bint a = 1;\n",
        28_160,
        b"DONE00000001STAT00006e00SERR00000015unknown compiler gcc\nSOUT00000000DOTO00000000",
    ),
    (
        b"DIST00000001ARGC00000002ARGV00000003sccARGV00000002-cDOTI00000000",
        28_416,
        b"DONE00000001STAT00006f00SERR0000001cnot a compile of one source\nSOUT00000000DOTO00000000",
    ),
    (
        b"DIST00000001ARGC00000001ARGV00000046aaaaaaaaaaaaaaaaaaaaaaaaaaaaaaaaaaaaaaaaaaaaaaaaaaaaaaaaaaaaaaaabbbbbbDOTI00000000",
        28_160,
        b"DONE00000001STAT00006e00SERR00000052unknown compiler aaaaaaaaaaaaaaaaaaaaaaaaaaaaaaaaaaaaaaaaaaaaaaaaaaaaaaaaaaaaaaaa\nSOUT00000000DOTO00000000",
    ),
];

fn expect_replies<R: Abort>(rt: &R, alloc: Global, rows: &[Reply]) -> Result<(), Fail> {
    for (gives, status, reply) in rows {
        expect_in_pieces(rt, alloc, gives, (Served::Answered(*status), reply))?;
    }
    Ok(())
}

#[test]
fn replies(rt: HostRuntime) -> Result<(), Fail> {
    expect_replies(&rt, rt.alloc(), REPLIES)
}

// A request cut to each number of its bytes.
fn expect_cuts<R: Abort>(rt: &R, alloc: Global, request: &[u8]) -> Result<(), Fail> {
    for len in 0..request.len() {
        let served = Served::Cut { have: len as u64 };
        expect_in_pieces(rt, alloc, &request[..len], (served, b""))?;
    }
    Ok(())
}

#[test]
fn cut_requests(rt: HostRuntime) -> Result<(), Fail> {
    same(&rt, &REQUEST.len(), &120, &"bytes");
    expect_cuts(&rt, rt.alloc(), REQUEST)
}

// What a link gives, and the place, the fault and its number.
type Refusal = (&'static [u8], u64, RequestFault, u8);

const REFUSED: &[Refusal] = &[
    (b"HTTP", 0, RequestFault::WrongName, 1),
    (b"DISTx", 4, RequestFault::BadDigit, 2),
    (b"DIST00000002", 11, RequestFault::BadVersion { n: 2 }, 3),
    (
        b"DIST00000001ARGC00000000",
        23,
        RequestFault::Count { n: 0 },
        4,
    ),
    (
        b"DIST00000001ARGC00000401",
        23,
        RequestFault::Count { n: 1_025 },
        4,
    ),
    (
        b"DIST00000001ARGC00000001ARGV00010001",
        35,
        RequestFault::TooLarge {
            which: Which::Argv,
            len: 65_537,
        },
        5,
    ),
    (
        b"DIST00000001ARGC00000005ARGV00000003sccARGV00000002-cARGV00000003a.iARGV00000002-oARGV00000003a.oDOTIffffffffint a = 1;\n",
        108,
        RequestFault::TooLarge {
            which: Which::Doti,
            len: 4_294_967_295,
        },
        5,
    ),
];

fn expect_refused<R: Abort>(rt: &R, alloc: Global, rows: &[Refusal]) -> Result<(), Fail> {
    for (gives, at, fault, number) in rows {
        let served = Served::Refused {
            at: *at,
            fault: *fault,
        };
        expect(rt, alloc, gives, &PLAIN, &OBJECT, (served, b""))?;
        same(rt, &fault_number(*fault), number, fault);
    }
    Ok(())
}

#[test]
fn refused_requests(rt: HostRuntime) -> Result<(), Fail> {
    expect_refused(&rt, rt.alloc(), REFUSED)
}

fn expect_loud<R: Abort>(rt: &R, alloc: Global) -> Result<(), Fail> {
    let long = vec![in alloc; b'w'; 1_048_577]?;
    let loud = Left {
        err: &long,
        ..NOTHING
    };
    let fault = Served::StationFault;
    expect(rt, alloc, REQUEST, &PLAIN, &loud, (fault, b""))
}

#[test]
fn a_run_that_says_too_much(rt: HostRuntime) -> Result<(), Fail> {
    expect_loud(&rt, rt.alloc())
}

#[test]
fn surplus_is_ignored(rt: HostRuntime) -> Result<(), Fail> {
    let gives =
        b"DIST00000001ARGC00000005ARGV00000003sccARGV00000002-cARGV00000003a.iARGV00000002-oARGV00000003a.oDOTI0000000bint a = 1;\nDIST000000";
    expect(
        &rt,
        rt.alloc(),
        gives,
        &PLAIN,
        &OBJECT,
        (Served::Answered(0), REPLY),
    )
}

// The words of a run, with a blank after each.
fn line_of(alloc: Global, words: &[Word]) -> Result<Bytes, AllocError> {
    let mut line = Bytes::new(alloc);
    for word in words {
        let text = match word {
            Word::Text(text) => text.as_slice(),
            Word::Input(_) => b"i",
            Word::Output => b"o",
        };
        line.try_extend(text)?;
        line.try_push(b' ')?;
    }
    Ok(line)
}

fn expect_run<R: Abort>(rt: &R, alloc: Global, run: &Run) -> Result<(), Fail> {
    let line = line_of(alloc, run.words.as_slice())?;
    same_items(rt, line.as_slice(), b"/usr/bin/scc -c i -o o ", &"words");
    same_items(rt, run.input.as_slice(), b"int a = 1;\n", &"input");
    Ok(())
}

fn expect_runs<R: Abort>(rt: &R, alloc: Global, runs: &[Run]) -> Result<(), Fail> {
    same(rt, &runs.len(), &1, &"runs");
    for run in runs {
        expect_run(rt, alloc, run)?;
    }
    Ok(())
}

fn expect_station<R: Abort>(rt: &R, alloc: Global, station: MemStation) -> Result<(), Fail> {
    let runs = station.into_runs().into_items(alloc)?;
    expect_runs(rt, alloc, runs.as_slice())
}

// A station that has served one request.
fn after_request(alloc: Global) -> Result<MemStation, AllocError> {
    let mut station = station(alloc, &NOTHING)?;
    let _ = serve(alloc, REQUEST, &PLAIN, &mut station)?;
    Ok(station)
}

fn expect_one_run<R: Abort>(rt: &R, alloc: Global) -> Result<(), Fail> {
    expect_station(rt, alloc, after_request(alloc)?)
}

#[test]
fn one_run_by_the_program_of_the_table(rt: HostRuntime) -> Result<(), Fail> {
    expect_one_run(&rt, rt.alloc())
}
