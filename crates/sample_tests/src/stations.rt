//! Files that are loaded from a keeper, and runs at a station.

use crate::devices::keeper_of;
use crate::files::{files_of, words_of};
use crate::runs::{FILES, Left, compare, compile_by};
use crate::same::{holds, same};
use edge_traits::{Bounds, Station, StationFault, Stream};
use farm_types::{Bytes, Ext, PlacedWords, Ran, Word};
use file_map::FileMap;
use sample_compiler::{LoadFault, SampleStation, load};
use std::alloc::{AllocError, Global};
use std::process::Abort;
use std::test::Fail;

// The files that these words look up.
fn load_by(
    alloc: Global,
    list: &[&str],
    fails: &[u64],
) -> Result<Result<FileMap, LoadFault>, AllocError> {
    let words = words_of(alloc, list)?;
    let mut keeper = keeper_of(alloc, FILES, fails)?;
    Ok(load(alloc, &words, &mut keeper))
}

const LOOKED_UP: &[&str] = &["-E", "-Id", "m.c"];

// The keeper's second call fails.
fn fails_to_load(alloc: Global) -> Result<bool, AllocError> {
    let loaded = load_by(alloc, LOOKED_UP, &[2])?;
    Ok(matches!(&loaded, Err(LoadFault::Failed)))
}

fn has_file(alloc: Global, files: &FileMap, name: &[u8]) -> Result<bool, AllocError> {
    Ok(files.find(&Bytes::from_slice(alloc, name)?).is_some())
}

fn expect_loaded<R: Abort>(rt: &R, alloc: Global, files: &FileMap) -> Result<(), Fail> {
    let ran = compile_by(alloc, files, LOOKED_UP)?;
    compare(rt, &ran, (0, b"N\nint n = 3;\n3\n", b"", b""), &LOOKED_UP);
    holds(rt, !has_file(alloc, files, b"a.c")?, &"a.c");
    Ok(())
}

#[test]
fn loaded_files(rt: HostRuntime) -> Result<(), Fail> {
    let Ok(files) = load_by(rt.alloc(), LOOKED_UP, &[])? else {
        return Err("the files are loaded".into());
    };
    expect_loaded(&rt, rt.alloc(), &files)?;
    holds(&rt, fails_to_load(rt.alloc())?, &"the second call");
    Ok(())
}

// `scc`, this word, the input, and `-o` with the object.
fn placed(alloc: Global, command: &str) -> Result<PlacedWords, AllocError> {
    let mut words = PlacedWords::new(alloc);
    words.try_push(Word::Text(Bytes::from_slice(alloc, b"scc")?))?;
    words.try_push(Word::Text(Bytes::from_slice(alloc, command.as_bytes())?))?;
    words.try_push(Word::Input(Ext::I))?;
    words.try_push(Word::Text(Bytes::from_slice(alloc, b"-o")?))?;
    words.try_push(Word::Output)?;
    Ok(words)
}

// A run of those words on this source.
fn run_on(
    alloc: Global,
    command: &str,
    source: &[u8],
    bounds: Bounds,
) -> Result<Result<Ran, StationFault>, AllocError> {
    let words = placed(alloc, command)?;
    let mut station = SampleStation::new(files_of(alloc, FILES)?);
    Ok(station.run(alloc, words.as_slice(), source, &bounds))
}

const WIDE: Bounds = Bounds {
    out: 100,
    err: 100,
    object: 100,
};

// A command, its input, and what its run leaves.
type Run = (&'static str, &'static [u8], Left);

const RUNS: &[Run] = &[
    ("-c", b"int a = 2;\n", (0, b"", b"", b"SCO1\ndef a 2\n")),
    (
        "-c",
        b"int a = b;\n",
        (256, b"", b"line 1: unknown name b\n", b""),
    ),
    ("-E", b"int a = 2;\n", (0, b"int a = 2;\n", b"", b"")),
];

// A run that gives one byte more than it may: on which stream, and how many.
type Over = (&'static str, &'static [u8], Bounds, Stream, u64);

const OVER: &[Over] = &[
    (
        "-E",
        b"int a = 2;\n",
        Bounds { out: 10, ..WIDE },
        Stream::Out,
        11,
    ),
    (
        "-c",
        b"int a = b;\n",
        Bounds { err: 22, ..WIDE },
        Stream::Err,
        23,
    ),
    (
        "-c",
        b"int a = 2;\n",
        Bounds { object: 12, ..WIDE },
        Stream::Object,
        13,
    ),
];

fn expect_runs<R: Abort>(rt: &R, alloc: Global, all: &[Run]) -> Result<(), Fail> {
    for (command, source, want) in all {
        let Ok(ran) = run_on(alloc, command, source, WIDE)? else {
            return Err("the compiler runs".into());
        };
        compare(rt, &ran, *want, command);
    }
    Ok(())
}

// The fault of a run, if it has one.
fn fault_on(
    alloc: Global,
    command: &str,
    source: &[u8],
    bounds: Bounds,
) -> Result<Option<StationFault>, AllocError> {
    Ok(run_on(alloc, command, source, bounds)?.err())
}

fn expect_faults<R: Abort>(rt: &R, alloc: Global, all: &[Over]) -> Result<(), Fail> {
    for (command, source, bounds, stream, bytes) in all {
        let fault = fault_on(alloc, command, source, *bounds)?;
        let want = StationFault::TooMuch {
            stream: *stream,
            bytes: *bytes,
        };
        same(rt, &fault, &Some(want), command);
    }
    Ok(())
}

#[test]
fn runs_at_a_station(rt: HostRuntime) -> Result<(), Fail> {
    expect_runs(&rt, rt.alloc(), RUNS)?;
    expect_faults(&rt, rt.alloc(), OVER)
}
