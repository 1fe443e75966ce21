//! Rows of the program `scc` with `--link` or `--run` as its first word.

ghost use Rattle.std.specs.Prelude.{IfOk};
ghost use Rattle.edge_memory.specs.Keepers.{keeper_state, keeper_shows};
ghost use Rattle.edge_traits.specs.Keepers.{IsIdle};

use crate::calls::{PLAIN, Row, expect_calls, status_of, strings};
use crate::files::{Listed, put};
use crate::same::same;
use edge_memory::MemKeeper;
use farm_types::Items;
use file_map::FileMap;
use std::alloc::{AllocError, Global};
use std::process::Abort;
use std::test::Fail;

const FILES: Listed = &[
    (b"a.o", b"SCO1\nneed b\ndef main @b 2 @b + *\n"),
    (b"b.o", b"SCO1\ndef b 3\n"),
    (b"c.o", b"SCO1\nneed a\nneed b\ndef c @a @b -\n"),
    (b"x.o", b"SCO1\nneed y\ndef x @y\n"),
    (b"y.o", b"SCO1\nneed z\ndef y @z\n"),
    (b"z.o", b"SCO1\nneed x\ndef z @x\n"),
    (b"cut.o", b"SCO1\ndef k 1"),
    (b"empty", b""),
    (b"p", b"SCP1\ndef b 3\ndef main @b 2 @b + *\n"),
    (b"none", b"SCP1\ndef b 3\n"),
    (b"low", b"SCP1\ndef main 0 1 -\n"),
    (b"q.farm~", b"SCP1\ndef main 1\n"),
    (b"--run", b"SCO1\ndef b 3\n"),
];

const RUN: Row = Row {
    words: &["--run", "p"],
    ..PLAIN
};

const BAD: Row = Row {
    status: 2,
    err: b"scc: bad words\n",
    ..PLAIN
};

const FAULT: Row = Row { status: 1, ..PLAIN };

const FAILED: Row = Row {
    status: 107,
    err: b"scc: file fault\n",
    ..RUN
};

const ROWS: &[Row] = &[
    Row {
        out: b"15\n",
        ..RUN
    },
    Row {
        words: &["--run", "low"],
        out: b"18446744073709551615\n",
        ..PLAIN
    },
    Row {
        words: &["--link", "a.o", "b.o", "-o", "q"],
        put: Some((b"q", b"SCP1\ndef b 3\ndef main @b 2 @b + *\n")),
        ..PLAIN
    },
    // A name of a file may be that of a form, and a file may be needed twice.
    Row {
        words: &["--link", "--run", "a.o", "-o", "a.o"],
        put: Some((b"a.o", b"SCP1\ndef b 3\ndef main @b 2 @b + *\n")),
        ..PLAIN
    },
    Row {
        words: &["--link", "a.o", "-o", "q"],
        err: b"link: unresolved b\n",
        ..FAULT
    },
    Row {
        words: &["--link", "a.o", "c.o", "b.o", "-o", "q"],
        err: b"link: unresolved a\n",
        ..FAULT
    },
    Row {
        words: &["--link", "b.o", "a.o", "b.o", "-o", "q"],
        err: b"link: doubled b\n",
        ..FAULT
    },
    Row {
        words: &["--link", "b.o", "z.o", "y.o", "x.o", "-o", "q"],
        err: b"link: circular z x y\n",
        ..FAULT
    },
    Row {
        words: &["--link", "b.o", "cut.o", "empty", "-o", "q"],
        err: b"link: bad object cut.o at line 2\n",
        ..FAULT
    },
    Row {
        words: &["--link", "empty", "-o", "q"],
        err: b"link: bad object empty at line 1\n",
        ..FAULT
    },
    Row {
        words: &["--link", "b.o", "w.o", "v.o", "-o", "q"],
        err: b"no file w.o\n",
        ..FAULT
    },
    Row {
        words: &["--link", "q.farm~", "-o", "q"],
        err: b"no file q.farm~\n",
        ..FAULT
    },
    Row {
        words: &["--run", "q.farm~"],
        err: b"no file q.farm~\n",
        ..FAULT
    },
    Row {
        words: &["--run", "w"],
        err: b"no file w\n",
        ..FAULT
    },
    Row {
        words: &["--run", "none"],
        err: b"run: no main\n",
        ..FAULT
    },
    Row {
        words: &["--run", "b.o"],
        err: b"run: bad image at line 1\n",
        ..FAULT
    },
    Row {
        words: &["--link", "b.o", "-o", "q.farm~"],
        ..BAD
    },
    Row {
        words: &["--link", "b.o", "-o"],
        ..BAD
    },
    Row {
        words: &["--link", "b.o", "q"],
        ..BAD
    },
    Row {
        words: &["--link", "-o", "q"],
        ..BAD
    },
    Row {
        words: &["--link", "b.o", "-o", "-o", "q"],
        ..BAD
    },
    Row {
        words: &["--link"],
        ..BAD
    },
    Row {
        words: &["--run"],
        ..BAD
    },
    Row {
        words: &["--run", "p", "p"],
        ..BAD
    },
    // After another first word they are passed over, as before.
    Row {
        words: &["-c", "--run", "p.c"],
        err: b"line 0: no file p.c\n",
        ..FAULT
    },
    Row {
        fails: &[1],
        ..FAILED
    },
    Row {
        words: &["--link", "a.o", "b.o", "-o", "q"],
        fails: &[2],
        ..FAILED
    },
    Row {
        words: &["--link", "a.o", "b.o", "-o", "q"],
        fails: &[3],
        ..FAILED
    },
];

#[test]
fn rows_of_link_and_run(rt: HostRuntime) -> Result<(), Fail> {
    expect_calls(&rt, rt.alloc(), FILES, ROWS)
}

// An object of this number, and the word that names it.
fn add_object(
    alloc: Global,
    files: &mut FileMap,
    words: &mut Vec<String>,
    number: u32,
) -> Result<(), AllocError> {
    let name = format!(in alloc; "o{number}")?;
    let content = format!(in alloc; "SCO1\ndef n{number} {number}\n")?;
    put(alloc, files, name.as_bytes(), content.as_bytes())?;
    words.push(name)?;
    Ok(())
}

// Words that link that many objects, which are put among the files.
fn add_objects(
    alloc: Global,
    files: &mut FileMap,
    words: &mut Vec<String>,
    count: u32,
) -> Result<(), AllocError> {
    for number in 0..count {
        add_object(alloc, files, words, number)?;
    }
    for word in ["-o", "p"] {
        words.push(String::from_str(alloc, word)?)?;
    }
    Ok(())
}

// A keeper of that many objects, and the words that link them.
fn many_objects(alloc: Global, count: u32) -> Result<(MemKeeper, Vec<String>), AllocError>
    ensures { IfOk result (λ made. IsIdle (keeper_shows (keeper_state made.0))) }
{
    let mut files = FileMap::new(alloc);
    let mut words = strings(alloc, &["--link"])?;
    add_objects(alloc, &mut files, &mut words, count)?;
    Ok((MemKeeper::new(files, Items::new(alloc)), words))
}

// The status if that many objects are linked, and how many puts were made.
fn link_many(alloc: Global, count: u32) -> Result<(u8, usize), AllocError> {
    let (mut keeper, words) = many_objects(alloc, count)?;
    let status = status_of(alloc, words.as_slice(), &mut keeper)?;
    let puts = keeper.into_puts().into_items(alloc)?;
    Ok((status, puts.len()))
}

fn expect_many<R: Abort>(rt: &R, alloc: Global) -> Result<(), Fail> {
    same(rt, &link_many(alloc, 512)?, &(0, 1), &512);
    same(rt, &link_many(alloc, 513)?, &(2, 0), &513);
    Ok(())
}

#[test]
fn many_objects_link(rt: HostRuntime) -> Result<(), Fail> {
    expect_many(&rt, rt.alloc())
}
