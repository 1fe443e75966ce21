//! Rows of sources, with what they mean or the line at which they are wrong.

use crate::same::same_bytes;
use farm_types::Bytes;
use sample_lang::{Item, Parsed, Part, parse};
use std::alloc::{AllocError, Global};
use std::process::Abort;
use std::test::Fail;

// A part of a code, after a blank.
fn put_part(alloc: Global, text: &mut Bytes, part: &Part) -> Result<(), AllocError> {
    match part {
        Part::Number(n) => {
            let digits = format!(in alloc; " {n}")?;
            text.try_extend(digits.as_bytes())
        }
        Part::Name(name) => {
            text.try_extend(b" @")?;
            text.try_extend(name.as_slice())
        }
        Part::Add => text.try_extend(b" +"),
        Part::Sub => text.try_extend(b" -"),
        Part::Mul => text.try_extend(b" *"),
    }
}

fn put_code(alloc: Global, text: &mut Bytes, code: &[Part]) -> Result<(), AllocError> {
    for part in code {
        put_part(alloc, text, part)?;
    }
    Ok(())
}

// An item, with `;` after it.
fn put_item(alloc: Global, text: &mut Bytes, item: &Item) -> Result<(), AllocError> {
    match item {
        Item::Extern(name) => {
            text.try_extend(b"need ")?;
            text.try_extend(name.as_slice())?;
        }
        Item::Def { name, code } => {
            text.try_extend(b"def ")?;
            text.try_extend(name.as_slice())?;
            put_code(alloc, text, code.as_slice())?;
        }
    }
    text.try_push(b';')
}

fn items_text(alloc: Global, items: &[Item]) -> Result<Bytes, AllocError> {
    let mut text = Bytes::new(alloc);
    for item in items {
        put_item(alloc, &mut text, item)?;
    }
    Ok(text)
}

fn fault_text(alloc: Global, line: u64, message: &[u8]) -> Result<Bytes, AllocError> {
    let front = format!(in alloc; "line {line}: ")?;
    let mut text = Bytes::from_slice(alloc, front.as_bytes())?;
    text.try_extend(message)?;
    Ok(text)
}

fn parsed_text(alloc: Global, parsed: &Parsed) -> Result<Bytes, AllocError> {
    match parsed {
        Parsed::Program(items) => items_text(alloc, items.as_slice()),
        Parsed::Fault { line, message } => fault_text(alloc, *line, message.as_slice()),
        Parsed::Memory => Bytes::from_slice(alloc, b"no memory"),
    }
}

// The items that a source means, or its fault after the line.
fn answer_to(alloc: Global, text: &[u8]) -> Result<Bytes, AllocError> {
    let text = Bytes::from_slice(alloc, text)?;
    parsed_text(alloc, &parse(alloc, &text))
}

// A source, and the result for it.
type Source = (&'static [u8], &'static [u8]);

const SOURCES: &[Source] = &[
    (b"int a = 1;\n", b"def a 1;"),
    (
        b"extern int b; int a = b*(2+b);\n",
        b"need b;def a @b 2 @b + *;",
    ),
    (b"int a = 5 - 2 - 1;\n", b"def a 5 2 - 1 -;"),
    (b"", b""),
    (b" \t\n\n", b""),
    (b"int\na\n=\n0010\n;", b"def a 10;"),
    (b"int a=1;int b=a+2*a-3;", b"def a 1;def b @a 2 @a * + 3 -;"),
    (b"int a = ((1));", b"def a 1;"),
    (b"int a = (1-2)*(3-4);", b"def a 1 2 - 3 4 - *;"),
    (
        b"int a = 18446744073709551615;",
        b"def a 18446744073709551615;",
    ),
    (
        b"int int1 = 1; extern int externx;",
        b"def int1 1;need externx;",
    ),
    (b"int _ = 1 - 2 * 3 * 4 + 5;", b"def _ 1 2 3 * 4 * - 5 +;"),
    (b"int a = b;\n", b"line 1: unknown name b"),
    (b"int a = a;\n", b"line 1: unknown name a"),
    (b"int a = b; int b = 1;", b"line 1: unknown name b"),
    (b"int a = 1;\nint a = 2;\n", b"line 2: name a again"),
    (b"extern int a;\n\nint a = 2;", b"line 3: name a again"),
    (b"int a = 1;\nextern int a = 2;", b"line 2: name a again"),
    (b"int a = 1 # 2;", b"line 1: bad byte"),
    (b"\n\x00", b"line 2: bad byte"),
    (b"int a = 1\r;", b"line 1: bad byte"),
    (
        b"int a = 18446744073709551616;",
        b"line 1: number too large",
    ),
    (
        b"int a = 1 99999999999999999999;",
        b"line 1: number too large",
    ),
    (b"int a = 12a;", b"line 1: syntax"),
    (b"a", b"line 1: syntax"),
    (b"int int = 1;", b"line 1: syntax"),
    (b"extern a;", b"line 1: syntax"),
    (b"extern int;", b"line 1: syntax"),
    (b"extern int a\n= 2;", b"line 2: syntax"),
    (b"int a 1;", b"line 1: syntax"),
    (b"int a = ;", b"line 1: syntax"),
    (b"int a = 1 +\n;", b"line 2: syntax"),
    (b"int a = (1;", b"line 1: syntax"),
    (b"int a = 1);", b"line 1: syntax"),
    (b"int a = 1;;", b"line 1: syntax"),
    (b"int a = 1", b"line 1: syntax"),
    (b"int a\n=\n1\n", b"line 4: syntax"),
];

fn expect_sources<R: Abort>(rt: &R, alloc: Global, all: &[Source]) -> Result<(), Fail> {
    for (text, want) in all {
        let answer = answer_to(alloc, text)?;
        same_bytes(rt, answer.as_slice(), want, text);
    }
    Ok(())
}

#[test]
fn sources(rt: HostRuntime) -> Result<(), Fail> {
    expect_sources(&rt, rt.alloc(), SOURCES)
}

// A byte, that many times.
fn put_many(text: &mut Bytes, byte: u8, count: u32) -> Result<(), AllocError> {
    for _ in 0..count {
        text.try_push(byte)?;
    }
    Ok(())
}

// An item whose name has that many bytes, and whose number is in that many parentheses.
fn put_number(text: &mut Bytes, len: u32, depth: u32) -> Result<(), AllocError> {
    text.try_extend(b"int ")?;
    put_many(text, b'x', len)?;
    text.try_extend(b" = ")?;
    put_many(text, b'(', depth)?;
    text.try_push(b'1')?;
    put_many(text, b')', depth)?;
    text.try_push(b';')
}

// The bytes of a name, the parentheses, and the result.
type Limit = (u32, u32, &'static [u8]);

const LIMITS: &[Limit] = &[
    (1, 64, b"def x 1;"),
    (1, 65, b"line 1: syntax"),
    (
        63,
        0,
        b"def xxxxxxxxxxxxxxxxxxxxxxxxxxxxxxxxxxxxxxxxxxxxxxxxxxxxxxxxxxxxxxx 1;",
    ),
    (64, 0, b"line 1: name too long"),
];

fn answer_at(alloc: Global, len: u32, depth: u32) -> Result<Bytes, AllocError> {
    let mut text = Bytes::new(alloc);
    put_number(&mut text, len, depth)?;
    answer_to(alloc, text.as_slice())
}

fn expect_limits<R: Abort>(rt: &R, alloc: Global, all: &[Limit]) -> Result<(), Fail> {
    for (len, depth, want) in all {
        let answer = answer_at(alloc, *len, *depth)?;
        same_bytes(rt, answer.as_slice(), want, &(*len, *depth));
    }
    Ok(())
}

#[test]
fn names_and_parentheses_have_limits(rt: HostRuntime) -> Result<(), Fail> {
    expect_limits(&rt, rt.alloc(), LIMITS)
}
