ghost use Rattle.arg_scan.specs.Class.{IsRemote};

use crate::lines::{line_of, words_of};
use crate::same::{holds, same_bytes};
use arg_strip::{cpp_words, is_remote, placed, strip};
use farm_types::{Bytes, Ext, PlacedWords, Word, Words};
use std::alloc::{AllocError, Global};
use std::process::Abort;
use std::test::Fail;

/// A command, and the words that are sent, those of the preprocessing, and those of the compile.
struct Row {
    line: &'static str,
    sent: &'static str,
    preprocessing: &'static str,
    compile: &'static str,
}

const ROWS: &[Row] = &[
    Row {
        line: "scc -MD -c x.c",
        sent: "scc -c x.c -o x.o",
        preprocessing: "scc -MD -E x.c",
        compile: "scc -c INPUT.i -o OUTPUT",
    },
    Row {
        line: "scc -D -E -c x.c",
        sent: "scc -c x.c -o x.o",
        preprocessing: "scc -D -E -E x.c",
        compile: "scc -c INPUT.i -o OUTPUT",
    },
    Row {
        line: "gcc -O2 -Wall -Iinc -DX=1 -MD -MF d -c a.cc -o b.o",
        sent: "gcc -O2 -Wall -c a.cc -o b.o",
        preprocessing: "gcc -O2 -Wall -Iinc -DX=1 -MD -MF d -E a.cc",
        compile: "gcc -O2 -Wall -c INPUT.ii -o OUTPUT",
    },
    Row {
        line: "scc -I. -DN=3 -O2 -MD -c f1.c -o f1.o",
        sent: "scc -O2 -c f1.c -o f1.o",
        preprocessing: "scc -I. -DN=3 -O2 -MD -E f1.c",
        compile: "scc -O2 -c INPUT.i -o OUTPUT",
    },
    Row {
        line: "gcc -oobj/a.o -target -c -S -g -iwithprefixbefore -S src/a.C",
        sent: "gcc -target -c -S -g src/a.C -o obj/a.o",
        preprocessing: "gcc -target -c -E -g -iwithprefixbefore -S src/a.C",
        compile: "gcc -target -c -S -g INPUT.ii -o OUTPUT",
    },
    Row {
        line: "x86_64-linux-gnu-gcc -g -O2 -Wall -o hello.o -c hello.c -isystem inc -Wp,-MD,hello.d",
        sent: "x86_64-linux-gnu-gcc -g -O2 -Wall -c hello.c -o hello.o",
        preprocessing: "x86_64-linux-gnu-gcc -g -O2 -Wall -E hello.c -isystem inc -Wp,-MD,hello.d",
        compile: "x86_64-linux-gnu-gcc -g -O2 -Wall -c INPUT.i -o OUTPUT",
    },
    Row {
        line: "scc -c a.i -o a.o",
        sent: "scc -c a.i -o a.o",
        preprocessing: "scc -E a.i",
        compile: "scc -c INPUT.i -o OUTPUT",
    },
];

fn text_of(alloc: Global, word: &Word) -> Result<Bytes, AllocError> {
    match word {
        Word::Text(text) => text.copy(),
        Word::Input(Ext::I) => Bytes::from_slice(alloc, b"INPUT.i"),
        Word::Input(Ext::Ii) => Bytes::from_slice(alloc, b"INPUT.ii"),
        Word::Output => Bytes::from_slice(alloc, b"OUTPUT"),
    }
}

// Placed words, each as a text.
fn texts_of(alloc: Global, words: &PlacedWords) -> Result<Words, AllocError> {
    let mut texts = Words::new(alloc);
    for word in words.as_slice() {
        texts.try_push(text_of(alloc, word)?)?;
    }
    Ok(texts)
}

fn sent(alloc: Global, words: &Words) -> Result<Bytes, AllocError>
    requires { IsRemote words.now }
{
    let sent = strip(alloc, words)?;
    line_of(alloc, sent.as_slice())
}

fn preprocessing(alloc: Global, words: &Words) -> Result<Bytes, AllocError>
    requires { IsRemote words.now }
{
    let preprocessing = cpp_words(alloc, words)?;
    line_of(alloc, preprocessing.as_slice())
}

fn compile(alloc: Global, words: &Words) -> Result<Bytes, AllocError>
    requires { IsRemote words.now }
{
    let placed = placed(alloc, words)?;
    let texts = texts_of(alloc, &placed)?;
    line_of(alloc, texts.as_slice())
}

fn expect_line<R: Abort>(
    rt: &R,
    line: Result<Bytes, AllocError>,
    wanted: &str,
    row: &Row,
) -> Result<(), AllocError> {
    same_bytes(rt, line?.as_slice(), wanted.as_bytes(), &row.line);
    Ok(())
}

fn expect_words<R: Abort>(rt: &R, alloc: Global, words: &Words, row: &Row) -> Result<(), Fail> {
    if !is_remote(words) {
        return Err(Fail::from("not remote"));
    }
    expect_line(rt, sent(alloc, words), row.sent, row)?;
    expect_line(rt, preprocessing(alloc, words), row.preprocessing, row)?;
    expect_line(rt, compile(alloc, words), row.compile, row)?;
    Ok(())
}

fn expect_rows<R: Abort>(rt: &R, alloc: Global, rows: &[Row]) -> Result<(), Fail> {
    for row in rows {
        let words = words_of(alloc, row.line)?;
        expect_words(rt, alloc, &words, row)?;
    }
    Ok(())
}

#[test]
fn the_words_of_each_command(rt: HostRuntime) -> Result<(), Fail> {
    expect_rows(&rt, rt.alloc(), ROWS)
}

const STAY_HERE: &[&str] = &[
    "scc",
    "scc x.c",
    "scc -c x.c y.c",
    "scc -march=native -c x.c",
    "scc -c conftest.c",
    "scc -E -c x.c",
    "scc -c x.c -o",
];

fn expect_here<R: Abort>(rt: &R, alloc: Global, lines: &[&str]) -> Result<(), Fail> {
    for line in lines {
        let words = words_of(alloc, line)?;
        holds(rt, !is_remote(&words), line);
    }
    Ok(())
}

#[test]
fn some_commands_stay_here(rt: HostRuntime) -> Result<(), Fail> {
    expect_here(&rt, rt.alloc(), STAY_HERE)?;
    holds(&rt, !is_remote(&Words::new(rt.alloc())), &"no words");
    Ok(())
}
