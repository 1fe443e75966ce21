//! Rows of the program `scc`.

use crate::calls::{PLAIN, Row, expect_calls};
use crate::files::Listed;
use std::test::Fail;

const FILES: Listed = &[
    (b"a.c", b"int a = 1;\n"),
    (b"b.c", b"\nint a = b;\n"),
    (b"x.c", b"#define N 3\nint a = N;\n"),
];

const COMPILE: Row = Row {
    words: &["-c", "a.c", "-o", "a.o"],
    ..PLAIN
};

const ROWS: &[Row] = &[
    Row {
        put: Some((b"a.o", b"SCO1\ndef a 1\n")),
        ..COMPILE
    },
    Row {
        fails: &[1],
        status: 107,
        err: b"scc: file fault\n",
        ..COMPILE
    },
    Row {
        fails: &[2],
        status: 107,
        err: b"scc: file fault\n",
        ..COMPILE
    },
    Row {
        fails: &[3],
        status: 107,
        err: b"scc: file fault\n",
        ..COMPILE
    },
    Row {
        fails: &[4],
        status: 107,
        err: b"scc: file fault\n",
        ..COMPILE
    },
    Row {
        words: &["-c", "z.c"],
        status: 1,
        err: b"line 0: no file z.c\n",
        ..PLAIN
    },
    Row {
        words: &["-c", "b.c"],
        status: 1,
        err: b"line 2: unknown name b\n",
        ..PLAIN
    },
    Row {
        words: &[],
        status: 2,
        err: b"scc: bad words\n",
        ..PLAIN
    },
    Row {
        words: &["-E", "x.c"],
        out: b"int a = 3;\n",
        ..PLAIN
    },
    Row {
        words: &["-E", "x.c"],
        out_moves: (&[], &[1]),
        status: 100,
        ..PLAIN
    },
    Row {
        words: &["-E", "x.c"],
        out_moves: (&[1], &[]),
        status: 100,
        ..PLAIN
    },
    Row {
        words: &["-c", "b.c"],
        err_moves: (&[], &[1]),
        status: 100,
        ..PLAIN
    },
    Row {
        words: &["-c", "b.c"],
        err_moves: (&[1], &[]),
        status: 100,
        ..PLAIN
    },
    // The keeper fails, and that can't be printed.
    Row {
        fails: &[1],
        err_moves: (&[1], &[]),
        status: 100,
        ..COMPILE
    },
    Row {
        words: &["--version"],
        out_moves: (&[1], &[]),
        status: 100,
        ..PLAIN
    },
    Row {
        words: &["--version"],
        out: b"scc 0.1\n",
        ..PLAIN
    },
];

#[test]
fn rows(rt: HostRuntime) -> Result<(), Fail> {
    expect_calls(&rt, rt.alloc(), FILES, ROWS)
}
