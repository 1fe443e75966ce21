//! The clock and the standard streams.

use crate::same::same;
use edge_real::{StdSink, StdSource, WallClock};
use edge_traits::{Clock, EdgeFault, Sink, Source};
use std::io::pipe;
use std::process::Abort;
use std::test::Fail;
use std::time::{Duration, Instant};

#[test]
fn the_clock_goes_on(rt: HostRuntime) {
    let mut clock = WallClock::new(rt);
    let first = clock.now();
    clock.pause();
    assert!(rt; 1_577_836_800 < first && first <= clock.now());
}

#[test]
fn a_pause_is_short(rt: HostRuntime) -> Result<(), Fail> {
    let mut clock = WallClock::new(rt);
    let before = Instant::now(&rt)?;
    clock.pause();
    let paused = before.elapsed(&rt)?;
    assert!(rt; Duration::from_millis(5) <= paused && paused < Duration::from_secs(3));
    Ok(())
}

fn write_two<S: Sink>(sink: &mut S) -> Result<usize, EdgeFault> {
    sink.write(b"ab")
}

/// Reads at most this many bytes, and answers their number and the bytes.
fn read_some<S: Source>(source: &mut S) -> (Result<usize, EdgeFault>, [u8; 2]) {
    let mut room = *b"--";
    let count = source.read(&mut room);
    (count, room)
}

#[test]
fn streams_end_and_break(rt: HostRuntime) -> Result<(), Fail> {
    let (reader, writer) = pipe(&rt)?;
    let mut sink = StdSink::new(writer);
    let mut source = StdSource::new(reader);
    same(&rt, &write_two(&mut sink), &Ok(2), &"a write");
    same(&rt, &read_some(&mut source).0, &Ok(2), &"a read");
    drop(source);
    let broken = Err(EdgeFault::Failed);
    same(&rt, &write_two(&mut sink), &broken, &"nobody reads");
    Ok(())
}

#[test]
fn a_stream_without_its_other_end_is_at_its_end(rt: HostRuntime) -> Result<(), Fail> {
    let (reader, writer) = pipe(&rt)?;
    drop(writer);
    let read = read_some(&mut StdSource::new(reader)).0;
    same(&rt, &read, &Ok(0), &"nobody writes");
    let mut none = [0u8; 0];
    let written = write_two(&mut StdSink::new(none.as_mut_slice()));
    same(&rt, &written, &Ok(0), &"no room");
    Ok(())
}

/// What three reads of two bytes at most give of `abc`.
const READS: &[(usize, &[u8; 2])] = &[(2, b"ab"), (1, b"c-"), (0, b"--")];

fn expect_reads<R: Abort, S: Source>(rt: &R, source: &mut S, rows: &[(usize, &[u8; 2])]) {
    for (count, bytes) in rows {
        let (given, room) = read_some(source);
        same(rt, &given, &Ok(*count), bytes);
        same(rt, &room, *bytes, bytes);
    }
}

#[test]
fn streams_in_memory_give_and_keep_their_bytes(rt: HostRuntime) -> Result<(), Fail> {
    expect_reads(&rt, &mut StdSource::new(b"abc".as_slice()), READS);
    let mut sink = StdSink::new(Vec::new(rt.alloc()));
    same(&rt, &write_two(&mut sink), &Ok(2), &"a write");
    Ok(())
}
