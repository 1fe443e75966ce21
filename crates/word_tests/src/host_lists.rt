//! Rows of texts, with what they are printed as or the place at which they are wrong.

use crate::same::{same, same_bytes};
use farm_types::{Bytes, Host};
use host_list::{HostError, Meaning, parse, print, read_port, read_word};
use std::alloc::Global;
use std::process::Abort;
use std::test::Fail;

/// What a text is printed as.
fn printed(alloc: Global, text: &[u8]) -> Result<Bytes, Fail> {
    let hosts = parse(alloc, text)?;
    Ok(print(alloc, &hosts)?)
}

/// The fault's number and place.
fn fault_of(alloc: Global, text: &[u8]) -> Option<(u8, u64)> {
    match parse(alloc, text) {
        Err(HostError::Fault { at, fault }) => Some((fault.number(), at)),
        _ => None,
    }
}

/// A text, and what it is printed as.
type Right = (&'static [u8], &'static [u8]);

const RIGHT: &[Right] = &[
    (
        b"red/2:4000 blue:4001/3 # x",
        b"red:4000/2\nblue:4001/3\n--localslots=4\n--localslots_cpp=8\n",
    ),
    (b"", b"--localslots=4\n--localslots_cpp=8\n"),
    (
        b" \t\n\x0c # a b\n",
        b"--localslots=4\n--localslots_cpp=8\n",
    ),
    (b"red", b"red:3632/4\n--localslots=4\n--localslots_cpp=8\n"),
    (
        b"localhost",
        b"localhost/2\n--localslots=4\n--localslots_cpp=8\n",
    ),
    (
        b"localhost/9 localhost:3632 localhost:1/1",
        b"localhost/9\nlocalhost:3632/4\nlocalhost:1/1\n--localslots=4\n--localslots_cpp=8\n",
    ),
    (
        b"a\tb\nc\x0cd  a",
        b"a:3632/4\nb:3632/4\nc:3632/4\nd:3632/4\na:3632/4\n--localslots=4\n--localslots_cpp=8\n",
    ),
    (
        b"red#blue green\nwhite",
        b"red:3632/4\nwhite:3632/4\n--localslots=4\n--localslots_cpp=8\n",
    ),
    (
        b"--localslots=1 --randomize --localslots=255 --localslots_cpp=007 a",
        b"a:3632/4\n--localslots=255\n--localslots_cpp=7\n--randomize\n",
    ),
    (
        b"a:65535/255",
        b"a:65535/255\n--localslots=4\n--localslots_cpp=8\n",
    ),
    (
        b"a:00001/001",
        b"a:1/1\n--localslots=4\n--localslots_cpp=8\n",
    ),
    (
        b"_x.Y-9",
        b"_x.Y-9:3632/4\n--localslots=4\n--localslots_cpp=8\n",
    ),
];

fn expect_printed<R: Abort>(
    rt: &R,
    alloc: Global,
    text: &[u8],
    wanted: &[u8],
    row: &[u8],
) -> Result<Bytes, Fail> {
    let printed = printed(alloc, text)?;
    same_bytes(rt, printed.as_slice(), wanted, &row);
    Ok(printed)
}

/// What is printed is printed again unchanged.
fn expect_right<R: Abort>(rt: &R, alloc: Global, rows: &[Right]) -> Result<(), Fail> {
    for (text, wanted) in rows {
        let printed = expect_printed(rt, alloc, text, wanted, text)?;
        expect_printed(rt, alloc, printed.as_slice(), wanted, text)?;
    }
    Ok(())
}

#[test]
fn right_texts(rt: HostRuntime) -> Result<(), Fail> {
    expect_right(&rt, rt.alloc(), RIGHT)
}

/// A text, and the fault's number and place.
type Wrong = (&'static [u8], u8, u64);

const WRONG: &[Wrong] = &[
    (b"@red", 1, 0),
    (b"a red@blue", 1, 2),
    (b"red,lzo@x", 1, 0),
    (b"red,lzo", 2, 0),
    (b"red/0,x", 2, 0),
    (b"+zeroconf", 3, 0),
    (b"red:0", 4, 4),
    (b"red:65536", 4, 4),
    (b"red:000001", 4, 4),
    (b"red:", 4, 4),
    (b"red:4x", 4, 4),
    (b"red:1:2", 4, 6),
    (b"red:70000:2", 4, 4),
    (b"red/1:2:3", 4, 8),
    (b"fe80::1", 4, 5),
    (b"red/0", 5, 4),
    (b"red/256", 5, 4),
    (b"red/0001", 5, 4),
    (b"red/", 5, 4),
    (b"red/1/2", 5, 6),
    (b"red:1/2/3", 5, 8),
    (b"--localslots=", 5, 13),
    (b"--localslots=0", 5, 13),
    (b"--localslots=256", 5, 13),
    (b"--localslots=0004", 5, 13),
    (b" --localslots_cpp=1x", 5, 18),
    (b"[::1]", 6, 0),
    (b"::1", 6, 0),
    (b"/2", 6, 0),
    (b"-red", 6, 0),
    (b"re+d", 6, 2),
    (b"+zeroconf2", 6, 0),
    (b"a a a a a a a a a a a a a a a a a", 7, 32),
    (b"--randomize=1", 8, 0),
];

fn expect_wrong<R: Abort>(rt: &R, alloc: Global, rows: &[Wrong]) {
    for (text, number, at) in rows {
        same(rt, &fault_of(alloc, text), &Some((*number, *at)), text);
    }
}

#[test]
fn wrong_texts(rt: HostRuntime) {
    expect_wrong(&rt, rt.alloc(), WRONG);
}

/// A text, and the fault's number and place if it has one.
type Long = (&'static [u8], Option<(u8, u64)>);

const LONG: &[Long] = &[
    (b"a a a a a a a a a a a a a a a a a:0", Some((4, 34))),
    (b"a a a a a a a a a a a a a a a a --localslots=2", None),
];

fn expect_long<R: Abort>(rt: &R, alloc: Global, rows: &[Long]) {
    for (text, fault) in rows {
        same(rt, &fault_of(alloc, text), fault, text);
    }
}

fn expect_names<R: Abort>(rt: &R, alloc: Global) {
    let mut name = [b'n'; 257];
    same(rt, &fault_of(alloc, &name[..255]), &None, &"255 bytes");
    same(
        rt,
        &fault_of(alloc, &name[..256]),
        &Some((6, 255)),
        &"256 bytes",
    );
    name[100] = b'!';
    same(
        rt,
        &fault_of(alloc, &name),
        &Some((6, 100)),
        &"another byte",
    );
}

#[test]
fn a_17th_word_and_long_names(rt: HostRuntime) {
    expect_long(&rt, rt.alloc(), LONG);
    expect_names(&rt, rt.alloc());
}

fn expect_host<R: Abort>(rt: &R, host: &Host) {
    same_bytes(rt, host.name.text.as_slice(), b"red", &"the name");
    let shown = (host.port, host.limit, host.local);
    same(rt, &shown, &(4000, 2, false), &"the host");
}

fn host_of(alloc: Global, word: &[u8]) -> Result<Host, Fail> {
    match read_word(alloc, word)? {
        Meaning::Entry(host) => Ok(host),
        _ => Err("the word is a host".into()),
    }
}

#[test]
fn one_word(rt: HostRuntime) -> Result<(), Fail> {
    expect_host(&rt, &host_of(rt.alloc(), b"red:4000/2")?);
    same(&rt, &read_port(b"3632"), &Some(3632), &"3632");
    same(&rt, &read_port(b"0"), &None, &"0");
    Ok(())
}
