//! Many jobs, by one worker and by several.

ghost use Rattle.std.specs.Prelude.{◌≡◌, ◌≤◌, false, length, All, IfOk};
ghost use Rattle.farm_types.specs.Limits.{workers_max};
ghost use Rattle.edge_traits.specs.Keepers.{IsIdle};
ghost use Rattle.edge_memory.specs.Keepers.{keeper_state, keeper_shows};
ghost use Rattle.edge_memory.specs.Sinks.{sink_state, sink_shows};

use crate::devices::{FIRST, MemKit, Script, kits, numbers};
use crate::same::{same, same_items, same_output};
use edge_memory::{MemSink, Moves};
use edge_traits::{CallNumbers, Keeper, Sink};
use farm_calls::{Page, Seen, asked_for, call, content_of, told};
use farm_types::Bytes;
use std::alloc::{AllocError, Global};
use std::process::Abort;
use std::sync::Wait;
use std::test::Fail;
use std::thread::Threads;

fn push_job(alloc: Global, text: &mut Bytes, number: u32) -> Result<(), AllocError> {
    let line = format!(in alloc; "scc -I. -DN=3 -O2 -MD -c f{number}.c -o f{number}.o\n")?;
    text.try_extend(line.as_bytes())
}

// Each of twelve jobs has an object of its own name.
fn twelve_jobs(alloc: Global) -> Result<Bytes, AllocError> {
    let mut text = Bytes::new(alloc);
    for number in 1..13 {
        push_job(alloc, &mut text, number)?;
    }
    Ok(text)
}

fn push_line(alloc: Global, text: &mut Bytes, number: u32) -> Result<(), AllocError> {
    let line = format!(in alloc; "{number} remote H:3632 stat 00000000\n")?;
    text.try_extend(line.as_bytes())
}

fn twelve_lines(alloc: Global) -> Result<Bytes, AllocError> {
    let mut text = Bytes::new(alloc);
    for number in 1..13 {
        push_line(alloc, &mut text, number)?;
    }
    text.try_extend(b"total 12 ok 12\n")?;
    Ok(text)
}

// Whether the object of this number is in a keeper's files.
fn has_object<K: Keeper>(alloc: Global, keeper: &mut K, number: u32) -> Result<bool, AllocError> {
    let name = format!(in alloc; "f{number}.o")?;
    Ok(content_of(alloc, keeper, name.as_bytes())?.is_some())
}

// How many of the twelve objects are in a keeper's files.
fn objects_of<K: Keeper>(alloc: Global, keeper: &mut K) -> Result<u32, AllocError> {
    let mut found: u32 = 0;
    for number in 1..13 {
        if has_object(alloc, keeper, number)? {
            found = found.saturating_add(1);
        }
    }
    Ok(found)
}

fn objects_in(alloc: Global, kits: &mut [MemKit]) -> Result<u32, AllocError> {
    let mut found: u32 = 0;
    for kit in kits.iter_mut() {
        found = found.saturating_add(objects_of(alloc, &mut kit.keeper)?);
    }
    Ok(found)
}

const WORDS: &[&str] = &["build", "--hosts", "H:3632/4 localhost/2", "--workers", "4"];

const QUIET: Script = Script {
    quiet: true,
    ..FIRST
};

fn status_of<W: Threads + Wait + Sync, O: Sink>(
    rt: &W,
    alloc: Global,
    kits: &mut Vec<MemKit>,
    out: &mut O,
) -> Result<u8, AllocError>
    requires some { 1 ≤ length kits.old.items }
    requires most { length kits.old.items ≤ workers_max }
    requires idle { All (λ kit. IsIdle (keeper_shows (keeper_state kit.keeper))) kits.old.items }
    requires out { (O.shows out.old).stopped ≡ false }
{
    let text = twelve_jobs(alloc)?;
    let asked = asked_for(alloc, WORDS, text)?;
    let mut err = Page::new(alloc);
    Ok(call(rt, alloc, asked, kits, out, &mut err))
}

// The status of twelve jobs over that many kits, and how many objects there are.
fn twelve<W: Threads + Wait + Sync, O: Sink>(
    rt: &W,
    alloc: Global,
    number: usize,
    out: &mut O,
) -> Result<(u8, u32), AllocError>
    requires { (O.shows out.old).stopped ≡ false }
{
    let script = Script {
        kits: number,
        ..QUIET
    };
    let mut kits = kits(alloc, &script)?;
    let status = status_of(rt, alloc, &mut kits, out)?;
    Ok((status, objects_in(alloc, kits.as_mut_slice())?))
}

fn expect_lines<R: Abort>(rt: &R, alloc: Global, out: &Bytes, row: &usize) -> Result<(), Fail> {
    let lines = twelve_lines(alloc)?;
    same_items(rt, out.as_slice(), lines.as_slice(), row);
    Ok(())
}

fn expect_all<R: Abort + Threads + Wait + Sync>(
    rt: &R,
    alloc: Global,
    number: usize,
) -> Result<(), Fail> {
    let mut out = Page::new(alloc);
    let ended = twelve(rt, alloc, number, &mut out)?;
    same(rt, &ended, &(0, 12), &number);
    expect_lines(rt, alloc, &out.text, &number)
}

#[test]
fn twelve_jobs_by_one_worker_and_by_four(rt: HostRuntime) -> Result<(), Fail> {
    expect_all(&rt, rt.alloc(), 1)?;
    expect_all(&rt, rt.alloc(), 4)
}

// An output that takes nothing at its first write.
fn stopped_sink(alloc: Global) -> Result<MemSink, AllocError>
    ensures { IfOk result (λ s. (sink_shows (sink_state s)).stopped ≡ false) }
{
    let zeros = numbers(alloc, 1)?;
    let moves = Moves {
        fails: CallNumbers::new(alloc),
        zeros,
        most: 5,
    };
    Ok(MemSink::new(alloc, moves))
}

// All objects are there.
fn expect_stopped<R: Abort + Threads + Wait + Sync>(
    rt: &R,
    alloc: Global,
    number: usize,
) -> Result<(), Fail> {
    let mut out = stopped_sink(alloc)?;
    let ended = twelve(rt, alloc, number, &mut out)?;
    same(rt, &ended, &(100, 12), &number);
    Ok(())
}

#[test]
fn what_was_put_stays_where_a_sink_stops(rt: HostRuntime) -> Result<(), Fail> {
    expect_stopped(&rt, rt.alloc(), 1)?;
    expect_stopped(&rt, rt.alloc(), 4)
}

// A compile of that many words, all of which are sent.
fn long_command(alloc: Global, count: u32) -> Result<Bytes, AllocError> {
    let mut text = Bytes::from_slice(alloc, b"scc -c x.c -o x.o")?;
    for _ in 5..count {
        text.try_extend(b" -O2")?;
    }
    text.try_extend(b"\n")?;
    Ok(text)
}

// What is seen of a compile of that many words.
fn long_build<W: Threads + Wait + Sync>(
    rt: &W,
    alloc: Global,
    count: u32,
) -> Result<Seen, AllocError> {
    let mut kits = kits(alloc, &FIRST)?;
    let text = long_command(alloc, count)?;
    let asked = asked_for(alloc, &["build", "--hosts", "H"], text)?;
    Ok(told(rt, alloc, asked, &mut kits))
}

// A compile of that many words is done at this place.
fn expect_place<R: Abort + Threads + Wait + Sync>(
    rt: &R,
    alloc: Global,
    count: u32,
    place: &str,
) -> Result<(), Fail> {
    let line = format!(in alloc; "1 {place} stat 00000000\ntotal 1 ok 1\n")?;
    let seen = long_build(rt, alloc, count)?;
    same_output(rt, &seen, 0, line.as_bytes(), &count);
    Ok(())
}

// A request has 1,024 words at most.
#[test]
fn a_command_of_too_many_words_is_compiled_here(rt: HostRuntime) -> Result<(), Fail> {
    expect_place(&rt, rt.alloc(), 1_024, "remote H:3632")?;
    expect_place(&rt, rt.alloc(), 1_025, "here")
}
