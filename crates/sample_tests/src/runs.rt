//! Rows of commands over files, with what the compiler leaves.

use crate::files::{Listed, chain, files_of, words_of};
use crate::same::{same, same_bytes};
use farm_types::Ran;
use file_map::FileMap;
use sample_compiler::{compile, preprocess};
use std::alloc::{AllocError, Global};
use std::fmt::Debug;
use std::process::Abort;
use std::test::Fail;

/// The files of all rows.
pub const FILES: Listed = &[
    (b"a.c", b"int a = 1;\n"),
    (b"a.h", b"int a = 1;\n"),
    (b"b.i", b"int a = b;\n"),
    (b"d/f.h", b"int far = 1;\n"),
    (b"d/m.h", b"#include \"n.h\"\n"),
    (b"e.c", b""),
    (b"f.c", b"#include \"f.h\"\n"),
    (b"f.h", b"int near = 1;\n"),
    (b"g.c", b"int a = N;\n"),
    (b"k.c", b"\n#include \"k.h\"\n"),
    (b"l.c", b"#include \"l.c\"\n"),
    (b"m.c", b"N\n#include \"m.h\"\nN\n"),
    (b"n.h", b"#define N 3\nint n = N;"),
    (b"o.c", b"extern int b; int a = b*(2+b);\n"),
    (b"p.c", b"#pragma once\n"),
    (b"s.c", b"int a = 5 - 2 - 1;\n"),
    (b"t.ii", b"#define N 1\n"),
    (
        b"w.c",
        b"#define N 1\n#define N 3 \n#define a N\nint x = N; a+N NN N1 1N _N\n",
    ),
    (b"x.c", b"#define N 3\nint a = N;\n"),
];

/// What a run leaves: the status, the output, the messages and the object.
pub type Left = (u32, &'static [u8], &'static [u8], &'static [u8]);

/// What bad words leave.
const BAD: Left = (512, b"", b"scc: bad words\n", b"");

// Words after the compiler's name, and what they leave.
type Words = &'static [&'static str];

const RUNS: &[(Words, Left)] = &[
    (
        &["-c", "a.c", "-o", "a.o"],
        (0, b"", b"", b"SCO1\ndef a 1\n"),
    ),
    (
        &["-c", "o.c"],
        (0, b"", b"", b"SCO1\nneed b\ndef a @b 2 @b + *\n"),
    ),
    (&["-S", "s.c"], (0, b"", b"", b"SCO1\ndef a 5 2 - 1 -\n")),
    (&["-c", "e.c"], (0, b"", b"", b"SCO1\n")),
    (
        &["-c", "b.i", "-o", "b.o"],
        (256, b"", b"line 1: unknown name b\n", b""),
    ),
    (&["-c", "t.ii"], (256, b"", b"line 1: bad byte\n", b"")),
    (&["-E", "t.ii"], (0, b"", b"", b"")),
    (&["-E", "x.c"], (0, b"int a = 3;\n", b"", b"")),
    (
        &["-E", "-I", "d", "m.c"],
        (0, b"N\nint n = 3;\n3\n", b"", b""),
    ),
    (&["-E", "m.c"], (256, b"", b"line 2: no file m.h\n", b"")),
    (
        &["-E", "w.c"],
        (0, b"int x = 3; N+3 NN N1 1N _N\n", b"", b""),
    ),
    (
        &["-E", "-DN=1", "-D", "N=2", "g.c"],
        (0, b"int a = 2;\n", b"", b""),
    ),
    (&["-D", "N", "-c", "g.c"], (0, b"", b"", b"SCO1\ndef a 1\n")),
    (&["-DN=", "-E", "g.c"], (0, b"int a = ;\n", b"", b"")),
    (&["-E", "-c", "a.h"], (0, b"int a = 1;\n", b"", b"")),
    (&["-c", "-E", "a.c"], (0, b"", b"", b"SCO1\ndef a 1\n")),
    (&["-c", "k.c"], (256, b"", b"line 2: no file k.h\n", b"")),
    (&["-c", "p.c"], (256, b"", b"line 1: bad directive\n", b"")),
    (
        &["-c", "l.c"],
        (256, b"", b"line 1: includes too deep\n", b""),
    ),
    (&["-E", "-Id", "f.c"], (0, b"int near = 1;\n", b"", b"")),
    (&["-c", "z.c"], (256, b"", b"line 0: no file z.c\n", b"")),
    (
        &["-O2", "-MD", "-", "-c", "a.c"],
        (0, b"", b"", b"SCO1\ndef a 1\n"),
    ),
    (
        &["-c", "a.h", "-o", "a.o"],
        (0, b"", b"", b"SCO1\ndef a 1\n"),
    ),
    (&[], BAD),
    (&["a.c"], BAD),
    (&["-c"], BAD),
    (&["-c", "a.c", "b.c"], BAD),
    (&["-c", "a.c", "-o"], BAD),
    (&["-c", "a.c", "-o", "x", "-o", "y"], BAD),
    (&["-c", "a.h"], BAD),
    (&["-c", "a.c", "-o", "x.farm~"], BAD),
    (&["-E", "a.c", "-o", "x.farm~"], BAD),
    (&["-c", "a.c", "-I"], BAD),
    (&["-c", "a.c", "-D"], BAD),
];

/// Compares a run, in this row, with what is wanted.
pub fn compare<R: Abort, W: Debug>(rt: &R, ran: &Ran, want: (u32, &[u8], &[u8], &[u8]), row: &W) {
    let (status, out, err, object) = want;
    same(rt, &ran.status, &status, row);
    same_bytes(rt, ran.out.as_slice(), out, row);
    same_bytes(rt, ran.err.as_slice(), err, row);
    same_bytes(rt, ran.object.as_slice(), object, row);
}

/// What the compiler leaves by these words after its name.
pub fn compile_by(alloc: Global, files: &FileMap, list: &[&str]) -> Result<Ran, AllocError> {
    let words = words_of(alloc, list)?;
    compile(alloc, files, &words)
}

fn preprocess_by(alloc: Global, files: &FileMap, list: &[&str]) -> Result<Ran, AllocError> {
    let words = words_of(alloc, list)?;
    preprocess(alloc, files, &words)
}

fn expect_runs<R: Abort>(
    rt: &R,
    alloc: Global,
    files: &FileMap,
    all: &[(Words, Left)],
) -> Result<(), Fail> {
    for (list, want) in all {
        compare(rt, &compile_by(alloc, files, list)?, *want, list);
    }
    Ok(())
}

fn expect_text<R: Abort>(rt: &R, alloc: Global, files: &FileMap) -> Result<(), Fail> {
    let text = preprocess_by(alloc, files, &["-c", "x.c"])?;
    compare(rt, &text, (0, b"int a = 3;\n", b"", b""), &"preprocessed");
    Ok(())
}

#[test]
fn runs(rt: HostRuntime) -> Result<(), Fail> {
    let files = files_of(rt.alloc(), FILES)?;
    expect_runs(&rt, rt.alloc(), &files, RUNS)?;
    expect_text(&rt, rt.alloc(), &files)
}

// How many files are within one another below the input, and the result of its text.
const CHAINS: &[(u32, Left)] = &[
    (16, (0, b"int a = 1;\n", b"", b"")),
    (17, (256, b"", b"line 1: includes too deep\n", b"")),
];

fn compile_chain(alloc: Global, count: u32) -> Result<Ran, AllocError> {
    let files = chain(alloc, count)?;
    compile_by(alloc, &files, &["-E", "c.c"])
}

fn expect_chains<R: Abort>(rt: &R, alloc: Global, all: &[(u32, Left)]) -> Result<(), Fail> {
    for (count, want) in all {
        compare(rt, &compile_chain(alloc, *count)?, *want, count);
    }
    Ok(())
}

#[test]
fn includes_within_one_another(rt: HostRuntime) -> Result<(), Fail> {
    expect_chains(&rt, rt.alloc(), CHAINS)
}
