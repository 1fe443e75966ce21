//! What a build prints if one call of one device fails, for each call in turn.

ghost use Rattle.std.specs.Prelude.{◌≡◌, false, IfOk};
ghost use Rattle.edge_memory.specs.Sinks.{sink_state, sink_shows};

use crate::devices::{FIRST, Script, kits, numbers, run};
use crate::same::{same, same_items, same_output};
use edge_memory::{MemSink, Moves};
use edge_traits::{CallNumbers, Sink};
use farm_calls::{asked_for, call};
use farm_types::Bytes;
use std::alloc::{AllocError, Global};
use std::process::Abort;
use std::sync::Wait;
use std::test::Fail;
use std::thread::Threads;

const REMOTE: &str = "1 remote H:3632 stat 00000000\ntotal 1 ok 1\n";

const HERE: &str = "1 here stat 00000000\ntotal 1 ok 1\n";

// One job with fallback: calls of its links move five bytes at most.
const JOB: Script = Script {
    words: &["build", "--hosts", "H"],
    quiet: true,
    most: 5,
    ..FIRST
};

// What is seen of the run of a script, if a call is made to fail or the reply is cut: the status, the output, and whether
// there is an object.
fn expect<R: Abort + Threads + Wait + Sync>(
    rt: &R,
    alloc: Global,
    script: &Script,
    wanted: (u8, &str, bool),
) -> Result<(), Fail> {
    let seen = run(rt, alloc, script)?;
    let place = (script.link_fails, script.put_fails, script.given);
    same_output(rt, &seen, wanted.0, wanted.1.as_bytes(), &place);
    same(rt, &seen.object.is_some(), &wanted.2, &place);
    Ok(())
}

// The request is 22 pieces and the reply 15, so 37 calls are made on the link; a later one makes no difference.
fn expect_made_good<R: Abort + Threads + Wait + Sync>(
    rt: &R,
    alloc: Global,
    job: &Script,
) -> Result<(), Fail> {
    for link_fails in 1..40 {
        let script = Script { link_fails, ..*job };
        let out = if link_fails <= 37 { HERE } else { REMOTE };
        expect(rt, alloc, &script, (0, out, true))?;
    }
    Ok(())
}

const NO_DIAL: Script = Script {
    dial_fails: 1,
    ..JOB
};

#[test]
fn a_failed_dial_or_link_is_made_good_here(rt: HostRuntime) -> Result<(), Fail> {
    expect(&rt, rt.alloc(), &NO_DIAL, (0, HERE, true))?;
    expect_made_good(&rt, rt.alloc(), &JOB)
}

// The put begins, takes three pieces and is committed; the sixth call of the keeper is the look for the object.
fn expect_failed_puts<R: Abort + Threads + Wait + Sync>(
    rt: &R,
    alloc: Global,
    job: &Script,
) -> Result<(), Fail> {
    for put_fails in 1..7 {
        let script = Script { put_fails, ..*job };
        let (status, out) = if put_fails <= 5 {
            (107, "1 failed put\ntotal 1 ok 0\n")
        } else {
            (0, REMOTE)
        };
        expect(rt, alloc, &script, (status, out, false))?;
    }
    Ok(())
}

const NO_RUN: Script = Script {
    run_fails: 1,
    ..JOB
};

#[test]
fn a_failed_run_or_put_fails_the_job(rt: HostRuntime) -> Result<(), Fail> {
    let out = "1 failed child\ntotal 1 ok 0\n";
    expect(&rt, rt.alloc(), &NO_RUN, (107, out, false))?;
    expect_failed_puts(&rt, rt.alloc(), &JOB)
}

const QUIET: Script = Script {
    quiet: true,
    ..FIRST
};

fn expect_cut<R: Abort + Threads + Wait + Sync>(
    rt: &R,
    alloc: Global,
    script: &Script,
) -> Result<(), Fail> {
    let given = script.given;
    let out = format!(in alloc; "1 failed H:3632 cut {given}\ntotal 1 ok 0\n")?;
    expect(rt, alloc, script, (108, out.as_str(), false))
}

// The reply ends after each number of its bytes.
fn expect_cut_replies<R: Abort + Threads + Wait + Sync>(
    rt: &R,
    alloc: Global,
    job: &Script,
) -> Result<(), Fail> {
    for given in 0..73 {
        expect_cut(rt, alloc, &Script { given, ..*job })?;
    }
    Ok(())
}

#[test]
fn a_reply_cut_anywhere_is_never_put(rt: HostRuntime) -> Result<(), Fail> {
    expect_cut_replies(&rt, rt.alloc(), &QUIET)
}

// The calls of the two sinks that take nothing, of which 0 names none; the status and what was written.
struct Row {
    out_stops: u64,
    err_stops: u64,
    status: u8,
    out: &'static str,
    err: &'static str,
}

// A sink that takes a piece whole, and nothing at the call of this number.
fn sink(alloc: Global, stops: u64) -> Result<MemSink, AllocError>
    ensures { IfOk result (λ s. (sink_shows (sink_state s)).stopped ≡ false) }
{
    let zeros = numbers(alloc, stops)?;
    let moves = Moves {
        fails: CallNumbers::new(alloc),
        zeros,
        most: 4_096,
    };
    Ok(MemSink::new(alloc, moves))
}

// The pieces are the job's messages, its line, and the total: those before the stop are whole, and nothing comes after it.
const STOPS: &[Row] = &[
    Row {
        out_stops: 0,
        err_stops: 1,
        status: 100,
        out: "",
        err: "",
    },
    Row {
        out_stops: 1,
        err_stops: 0,
        status: 100,
        out: "",
        err: "note\n",
    },
    Row {
        out_stops: 2,
        err_stops: 0,
        status: 100,
        out: "1 remote H:3632 stat 00000000\n",
        err: "note\n",
    },
    Row {
        out_stops: 3,
        err_stops: 2,
        status: 0,
        out: REMOTE,
        err: "note\n",
    },
];

// The status of the first job over these sinks.
fn status_over<W: Threads + Wait + Sync, O: Sink, E: Sink + Send>(
    rt: &W,
    alloc: Global,
    out: &mut O,
    err: &mut E,
) -> Result<u8, AllocError>
    requires out { (O.shows out.old).stopped ≡ false }
    requires err { (E.shows err.old).stopped ≡ false }
{
    let mut kits = kits(alloc, &FIRST)?;
    let text = Bytes::from_slice(alloc, FIRST.input)?;
    let asked = asked_for(alloc, FIRST.words, text)?;
    Ok(call(rt, alloc, asked, &mut kits, out, err))
}

fn expect_over<R: Abort + Threads + Wait + Sync>(
    rt: &R,
    alloc: Global,
    row: &Row,
    out: &mut MemSink,
    err: &mut MemSink,
) -> Result<(), Fail>
    requires out { (sink_shows (sink_state out.old)).stopped ≡ false }
    requires err { (sink_shows (sink_state err.old)).stopped ≡ false }
{
    let stops = (row.out_stops, row.err_stops);
    let status = status_over(rt, alloc, out, err)?;
    same(rt, &status, &row.status, &stops);
    same_items(rt, out.written(), row.out.as_bytes(), &stops);
    same_items(rt, err.written(), row.err.as_bytes(), &stops);
    Ok(())
}

fn expect_stop<R: Abort + Threads + Wait + Sync>(
    rt: &R,
    alloc: Global,
    row: &Row,
) -> Result<(), Fail> {
    let mut out = sink(alloc, row.out_stops)?;
    let mut err = sink(alloc, row.err_stops)?;
    expect_over(rt, alloc, row, &mut out, &mut err)
}

fn expect_stops<R: Abort + Threads + Wait + Sync>(
    rt: &R,
    alloc: Global,
    rows: &[Row],
) -> Result<(), Fail> {
    for row in rows {
        expect_stop(rt, alloc, row)?;
    }
    Ok(())
}

#[test]
fn printing_stops_at_each_piece(rt: HostRuntime) -> Result<(), Fail> {
    expect_stops(&rt, rt.alloc(), STOPS)
}
