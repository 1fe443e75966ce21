//! Rows of the program `farmd`.

ghost use Rattle.std.specs.Prelude.{◌≡◌, false};
ghost use Rattle.edge_memory.specs.Sinks.{sink_state, sink_shows};
ghost use Rattle.daemon_program.specs.Sharing.{RunAlike};

use crate::devices::{numbers, sink};
use crate::lines::words_of;
use crate::same::{same, same_items};
use crate::scripts::{REQUEST, door};
use daemon_program::farmd;
use daemon_worker::DoorKit;
use edge_memory::{MemDoor, MemSink, MemStation, RanList};
use edge_traits::{Door, Sink, Station};
use std::alloc::{AllocError, Global};
use std::process::Abort;
use std::random::RandomSource;
use std::sync::Wait;
use std::test::Fail;
use std::thread::Threads;

const OTHER: &[u8] =
    b"DIST00000001ARGC00000005ARGV00000003gccARGV00000002-cARGV00000003a.iARGV00000002-oARGV00000003a.oDOTI0000000bint a = 1;\n";

const CUT: &[u8] = b"DIST00000001ARGC00000001ARGV00000003sc";

// 10.1.2.3 and 127.0.0.1
const NEAR: u32 = 167_838_211;

const HERE: u32 = 2_130_706_433;

/// What the doors' links give, one list for each door, and from which peers; which accepts and runs fail; which writes of the
/// output take nothing; what is printed.
#[derive(Clone, Copy)]
pub struct Row {
    pub words: &'static str,
    pub doors: &'static [&'static [&'static [u8]]],
    pub peers: &'static [u32],
    pub accepts_fail: &'static [u64],
    pub runs_fail: &'static [u64],
    pub zeros: &'static [u64],
    pub out: &'static str,
    pub status: u8,
}

/// One door of one request.
pub const ONE: Row = Row {
    words: "--compiler scc=scc --jobs 1 --serve 1",
    doors: &[&[REQUEST]],
    peers: &[],
    accepts_fail: &[],
    runs_fail: &[],
    zeros: &[],
    out: "door 1 conn 1 answered 00000000\n",
    status: 0,
};

// Fewer doors than jobs.
const TWO_DOORS: Row = Row {
    words: "--compiler scc=scc --serve 2",
    doors: &[&[REQUEST, CUT], &[CUT, REQUEST]],
    out: "door 1 conn 1 answered 00000000\ndoor 1 conn 2 cut 38\ndoor 2 conn 1 cut 38\ndoor 2 conn 2 answered 00000000\n",
    ..ONE
};

const NO_NUMBER: Row = Row {
    words: "--jobs",
    out: "farmd: bad words at word 1\n",
    status: 101,
    ..ONE
};

const ROWS: &[Row] = &[
    ONE,
    Row {
        doors: &[&[OTHER]],
        out: "door 1 conn 1 answered 00006e00\n",
        ..ONE
    },
    Row {
        doors: &[&[CUT]],
        out: "door 1 conn 1 cut 38\n",
        ..ONE
    },
    Row {
        doors: &[&[b"DIST00000002"]],
        out: "door 1 conn 1 refused 3 at 11\n",
        ..ONE
    },
    Row {
        doors: &[&[]],
        out: "door 1 conn 1 cut 0\n",
        ..ONE
    },
    Row {
        runs_fail: &[1],
        out: "door 1 conn 1 child fault\n",
        ..ONE
    },
    Row {
        accepts_fail: &[1],
        out: "door 1 conn 1 door fault\n",
        status: 107,
        ..ONE
    },
    // the same compile twice, beside a book: 7 bytes of words and 11 of source
    Row {
        words: "--compiler scc=scc --jobs 1 --serve 2 --cache 1",
        doors: &[&[REQUEST, REQUEST]],
        out: "door 1 conn 1 answered 00000000\ndoor 1 conn 2 answered 00000000\ncache door 1 hits 1 misses 1 unkept 0 bytes 18\n",
        ..ONE
    },
    // the same beside a book of all doors; a request that isn't compiled is none of its
    Row {
        words: "--compiler scc=scc --jobs 1 --serve 2 --shared-cache 1",
        doors: &[&[REQUEST, REQUEST]],
        out: "door 1 conn 1 answered 00000000\ndoor 1 conn 2 answered 00000000\ncache door 1 hits 1 misses 1\ncache shared unkept 0 bytes 18\n",
        ..ONE
    },
    Row {
        words: "--compiler scc=scc --jobs 2 --serve 1 --shared-cache 1",
        doors: &[&[REQUEST], &[OTHER]],
        out: "door 1 conn 1 answered 00000000\ndoor 2 conn 1 answered 00006e00\ncache door 1 hits 0 misses 1\ncache door 2 hits 0 misses 0\ncache shared unkept 0 bytes 18\n",
        ..ONE
    },
    // fewer doors than jobs, and more
    TWO_DOORS,
    Row {
        doors: &[&[REQUEST], &[REQUEST]],
        ..ONE
    },
    // who may use the daemon
    Row {
        words: "--compiler scc=scc --jobs 1 --serve 2 --allow 10.0.0.0/8 --deny 0.0.0.0/0",
        doors: &[&[REQUEST, REQUEST]],
        peers: &[NEAR, HERE],
        out: "door 1 conn 1 answered 00000000\ndoor 1 conn 2 denied by rule 2\n",
        ..ONE
    },
    Row {
        words: "--compiler scc=scc --jobs 1 --serve 1 --allow 10.0.0.0/8",
        peers: &[HERE],
        out: "door 1 conn 1 denied by no rule\n",
        ..ONE
    },
    // words that aren't right, and those that don't serve
    Row {
        words: "--allow 10.0.0.0/33",
        out: "farmd: bad words at word 1\n",
        status: 101,
        ..ONE
    },
    NO_NUMBER,
    Row {
        words: "--version",
        out: "farmd 0.1, distcc protocol 1\n",
        ..ONE
    },
];

fn station(alloc: Global, fails: &[u64]) -> Result<MemStation, AllocError> {
    let fails = numbers(alloc, fails)?;
    Ok(MemStation::new(RanList::new(alloc), fails))
}

fn kit(
    alloc: Global,
    row: &Row,
    gives: &[&[u8]],
) -> Result<DoorKit<MemDoor, MemStation>, AllocError> {
    let station = station(alloc, row.runs_fail)?;
    let door = door(alloc, gives, row.peers, row.accepts_fail)?;
    Ok(DoorKit { door, station })
}

fn kits(alloc: Global, row: &Row) -> Result<Vec<DoorKit<MemDoor, MemStation>>, AllocError> {
    let mut doors = Vec::new(alloc);
    for gives in row.doors {
        doors.push(kit(alloc, row, gives)?)?;
    }
    Ok(doors)
}

// Runs `farmd` by these words.
fn run<
    R: Threads + Wait + RandomSource + Sync,
    D: Door + Send + Drop,
    S: Station + Send + Drop,
    O: Sink,
>(
    rt: &R,
    alloc: Global,
    words: &[String],
    doors: &mut Vec<DoorKit<D, S>>,
    out: &mut O,
) -> Result<u8, Fail>
where
    D::Link: Send,
    requires alike { RunAlike S.ran doors.old.items }
    requires out { (O.shows out.old).stopped ≡ false }
{
    if doors.is_empty() || 16 < doors.len() {
        return Err("there are 1 to 16 doors".into());
    }
    Ok(farmd(rt, alloc, words, doors, out))
}

fn expect_run<
    R: Abort + Threads + Wait + RandomSource + Sync,
    D: Door + Send + Drop,
    S: Station + Send + Drop,
>(
    rt: &R,
    alloc: Global,
    row: &Row,
    words: &[String],
    doors: &mut Vec<DoorKit<D, S>>,
    out: &mut MemSink,
) -> Result<(), Fail>
where
    D::Link: Send,
    requires alike { RunAlike S.ran doors.old.items }
    requires out { (sink_shows (sink_state out.old)).stopped ≡ false }
{
    let status = run(rt, alloc, words, doors, out)?;
    same_items(rt, out.written(), row.out.as_bytes(), &row.words);
    same(
        rt,
        &(status, doors.len()),
        &(row.status, row.doors.len()),
        &row.words,
    );
    Ok(())
}

/// Runs `farmd` by a row's words and sink over these doors, and compares what is printed, the status, and how many doors are
/// there then.
pub fn expect<
    R: Abort + Threads + Wait + RandomSource + Sync,
    D: Door + Send + Drop,
    S: Station + Send + Drop,
>(rt: &R, alloc: Global, row: &Row, doors: &mut Vec<DoorKit<D, S>>) -> Result<(), Fail>
where
    D::Link: Send,
    requires alike { RunAlike S.ran doors.old.items }
{
    let words = words_of(alloc, row.words)?;
    let mut out = sink(alloc, row.zeros)?;
    expect_run(rt, alloc, row, words.as_slice(), doors, &mut out)
}

/// The same over doors in memory, whose stations' programs may leave anything.
pub fn expect_in_memory<R: Abort + Threads + Wait + RandomSource + Sync>(
    rt: &R,
    alloc: Global,
    row: &Row,
    doors: &mut Vec<DoorKit<MemDoor, MemStation>>,
) -> Result<(), Fail> {
    expect(rt, alloc, row, doors)
}

fn expect_row<R: Abort + Threads + Wait + RandomSource + Sync>(
    rt: &R,
    alloc: Global,
    row: &Row,
) -> Result<(), Fail> {
    let mut doors = kits(alloc, row)?;
    expect_in_memory(rt, alloc, row, &mut doors)
}

fn expect_rows<R: Abort + Threads + Wait + RandomSource + Sync>(
    rt: &R,
    alloc: Global,
    rows: &[Row],
) -> Result<(), Fail> {
    for row in rows {
        expect_row(rt, alloc, row)?;
    }
    Ok(())
}

#[test]
fn a_call_logs_and_ends_by_its_words(rt: HostRuntime) -> Result<(), Fail> {
    expect_rows(&rt, rt.alloc(), ROWS)
}

// The second line isn't taken: the first one stays, and the status is 100.
const STOPPED: &[Row] = &[
    Row {
        zeros: &[2],
        out: "door 1 conn 1 answered 00000000\n",
        status: 100,
        ..TWO_DOORS
    },
    Row {
        zeros: &[1],
        out: "",
        status: 100,
        ..NO_NUMBER
    },
];

#[test]
fn a_sink_that_stops(rt: HostRuntime) -> Result<(), Fail> {
    expect_rows(&rt, rt.alloc(), STOPPED)
}
