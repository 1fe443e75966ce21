//! `farm` over its own daemon: each kit has a loop to the sample compiler.

ghost use Rattle.std.specs.Prelude.{◌≤◌, length, All, IfOk};
ghost use Rattle.farm_types.specs.Limits.{workers_max};
ghost use Rattle.edge_traits.specs.Keepers.{IsIdle};
ghost use Rattle.edge_memory.specs.Keepers.{keeper_state, keeper_shows};

use crate::same::{holds, same, same_output};
use edge_memory::{MemClock, MemKeeper};
use edge_traits::{Exchange, Keeper, Kit};
use farm_calls::{Seen, asked_for, content_of, empty_keeper, standing_clock, told};
use farm_types::Bytes;
use loop_link::LoopDialer;
use rehearsal::compiler_table;
use sample_compiler::SampleStation;
use sample_lang::FileMap;
use std::alloc::{AllocError, Global};
use std::process::Abort;
use std::sync::Wait;
use std::test::Fail;
use std::thread::Threads;

type LoopKit = Kit<LoopDialer<SampleStation>, SampleStation, MemKeeper, MemClock>;

/// The request of the first job: its words and its source.
const REQUEST: &[u8] =
    b"DIST00000001ARGC00000006ARGV00000003sccARGV00000003-O2ARGV00000002-cARGV00000004f1.cARGV00000002-oARGV00000004f1.oDOTI0000000cint f1 = 3;\n";

fn put_source(alloc: Global, files: &mut FileMap, number: u32) -> Result<(), AllocError> {
    let name = format!(in alloc; "f{number}.c")?;
    let text = format!(in alloc; "int f{number} = N;\n")?;
    let path = Bytes::from_slice(alloc, name.as_bytes())?;
    let content = Bytes::from_slice(alloc, text.as_bytes())?;
    files.try_put(path, content)
}

// Twelve sources, each with an item of its own.
fn sources(alloc: Global) -> Result<FileMap, AllocError> {
    let mut files = FileMap::new(alloc);
    for number in 1..13 {
        put_source(alloc, &mut files, number)?;
    }
    Ok(files)
}

fn dialer(alloc: Global) -> Result<LoopDialer<SampleStation>, AllocError> {
    let table = compiler_table(alloc)?;
    let sources = sources(alloc)?;
    Ok(LoopDialer::new(SampleStation::new(sources), table))
}

fn loop_kit(alloc: Global) -> Result<LoopKit, AllocError>
    ensures { IfOk result (λ kit. IsIdle (keeper_shows (keeper_state kit.keeper))) }
{
    let sources = sources(alloc)?;
    let dialer = dialer(alloc)?;
    Ok(Kit {
        dialer,
        station: SampleStation::new(sources),
        keeper: empty_keeper(alloc),
        clock: standing_clock(alloc),
    })
}

fn loop_kits(alloc: Global, count: usize) -> Result<Vec<LoopKit>, AllocError>
    requires some { 1 ≤ count }
    requires most { count ≤ workers_max }
    ensures some { IfOk result (λ kits. 1 ≤ length kits.items) }
    ensures most { IfOk result (λ kits. length kits.items ≤ workers_max) }
    ensures idle { IfOk result (λ kits. All (λ kit. IsIdle (keeper_shows (keeper_state kit.keeper))) kits.items) }
{
    let mut kits = Vec::new(alloc);
    'making: while kits.len() < count {
        kits.push(loop_kit(alloc)?)?;
    }
    Ok(kits)
}

fn push_job(alloc: Global, text: &mut Bytes, number: u32) -> Result<(), AllocError> {
    let line = format!(in alloc; "scc -I. -DN=3 -O2 -MD -c f{number}.c -o f{number}.o\n")?;
    text.try_extend(line.as_bytes())
}

fn job_list(alloc: Global) -> Result<Bytes, AllocError> {
    let mut text = Bytes::new(alloc);
    for number in 1..13 {
        push_job(alloc, &mut text, number)?;
    }
    Ok(text)
}

fn push_line(alloc: Global, text: &mut Bytes, number: u32) -> Result<(), AllocError> {
    let line = format!(in alloc; "{number} remote 127.0.0.1:3632 stat 00000000\n")?;
    text.try_extend(line.as_bytes())
}

fn lines(alloc: Global) -> Result<Bytes, AllocError> {
    let mut text = Bytes::new(alloc);
    for number in 1..13 {
        push_line(alloc, &mut text, number)?;
    }
    text.try_extend(b"total 12 ok 12\n")?;
    Ok(text)
}

fn is_object<K: Keeper>(
    alloc: Global,
    keeper: &mut K,
    name: &str,
    object: &str,
) -> Result<bool, AllocError> {
    match content_of(alloc, keeper, name.as_bytes())? {
        Some(content) => Ok(content.as_slice() == object.as_bytes()),
        None => Ok(false),
    }
}

// Whether the object of this number is in a keeper's files, with its own item.
fn has_object<K: Keeper>(alloc: Global, keeper: &mut K, number: u32) -> Result<bool, AllocError> {
    let name = format!(in alloc; "f{number}.o")?;
    let object = format!(in alloc; "SCO1\ndef f{number} 3\n")?;
    is_object(alloc, keeper, name.as_str(), object.as_str())
}

// How many of the twelve objects are in a keeper's files, each with its own item.
fn objects_in<K: Keeper>(alloc: Global, keeper: &mut K) -> Result<u32, AllocError> {
    let mut found: u32 = 0;
    for number in 1..13 {
        if has_object(alloc, keeper, number)? {
            found = found.saturating_add(1);
        }
    }
    Ok(found)
}

fn all_objects(alloc: Global, kits: &mut [LoopKit]) -> Result<u32, AllocError> {
    let mut found: u32 = 0;
    for kit in kits.iter_mut() {
        found = found.saturating_add(objects_in(alloc, &mut kit.keeper)?);
    }
    Ok(found)
}

// Whether one of the exchanges sent this.
fn is_sent(exchanges: &[Exchange], request: &[u8]) -> bool {
    for exchange in exchanges {
        if exchange.sent.as_slice() == request {
            return true;
        }
    }
    false
}

fn is_sent_by(
    alloc: Global,
    dialer: LoopDialer<SampleStation>,
    request: &[u8],
) -> Result<bool, AllocError> {
    let exchanges = dialer.into_exchanges().into_items(alloc)?;
    Ok(is_sent(exchanges.as_slice(), request))
}

fn dialer_of<D, S: Drop, K: Drop, C: Drop>(kit: Kit<D, S, K, C>) -> D {
    kit.dialer
}

fn is_sent_by_any(
    alloc: Global,
    mut kits: Vec<LoopKit>,
    request: &[u8],
) -> Result<bool, AllocError> {
    let mut sent = false;
    'looking: while let Some(kit) = kits.pop() {
        let found = is_sent_by(alloc, dialer_of(kit), request)?;
        sent = sent || found;
    }
    Ok(sent)
}

const WORDS: &[&str] = &[
    "build",
    "--hosts",
    "127.0.0.1:3632/4 localhost/2",
    "--workers",
    "4",
];

fn build_twelve<W: Threads + Wait + Sync>(
    rt: &W,
    alloc: Global,
    kits: &mut Vec<LoopKit>,
) -> Result<Seen, AllocError>
    requires some { 1 ≤ length kits.old.items }
    requires most { length kits.old.items ≤ workers_max }
    requires idle { All (λ kit. IsIdle (keeper_shows (keeper_state kit.keeper))) kits.old.items }
{
    let asked = asked_for(alloc, WORDS, job_list(alloc)?)?;
    Ok(told(rt, alloc, asked, kits))
}

fn expect_printed<R: Abort>(rt: &R, alloc: Global, seen: &Seen) -> Result<(), Fail> {
    let lines = lines(alloc)?;
    same_output(rt, seen, 0, lines.as_slice(), &"twelve jobs");
    holds(rt, seen.err.is_empty(), &"no messages");
    Ok(())
}

fn expect_build<R: Abort + Threads + Wait + Sync>(
    rt: &R,
    alloc: Global,
    kits: &mut Vec<LoopKit>,
) -> Result<(), Fail>
    requires some { 1 ≤ length kits.old.items }
    requires most { length kits.old.items ≤ workers_max }
    requires idle { All (λ kit. IsIdle (keeper_shows (keeper_state kit.keeper))) kits.old.items }
{
    let seen = build_twelve(rt, alloc, kits)?;
    expect_printed(rt, alloc, &seen)?;
    let objects = all_objects(alloc, kits.as_mut_slice())?;
    same(rt, &objects, &12, &"objects");
    Ok(())
}

fn expect_twelve<R: Abort + Threads + Wait + Sync>(
    rt: &R,
    alloc: Global,
    count: usize,
) -> Result<(), Fail>
    requires some { 1 ≤ count }
    requires most { count ≤ workers_max }
{
    let mut kits = loop_kits(alloc, count)?;
    expect_build(rt, alloc, &mut kits)?;
    let sent = is_sent_by_any(alloc, kits, REQUEST)?;
    holds(rt, sent, &"the first request");
    Ok(())
}

#[test]
fn twelve_jobs_over_loops(rt: HostRuntime) -> Result<(), Fail> {
    expect_twelve(&rt, rt.alloc(), 1)?;
    expect_twelve(&rt, rt.alloc(), 4)
}
