use crate::lines::{line_of, words_of};
use crate::same::same_bytes;
use arg_scan::remote_plan;
use arg_strip::is_remote;
use dependency_options::dependency_words;
use farm_types::{Bytes, Words};
use std::alloc::{AllocError, Global};
use std::process::Abort;
use std::test::Fail;

/// A command, and what is added after it.
type Row = (&'static str, &'static str);

const ROWS: &[Row] = &[
    ("gcc -c x.c -o obj/x.o", ""),
    ("gcc -MD -c x.c", ""),
    ("gcc -MMD -MP -c x.c -o obj/x.o", " -MF obj/x.d -MQ obj/x.o"),
    ("gcc -MD -c x.c -oobj/x.o", " -MF obj/x.d -MQ obj/x.o"),
    ("gcc -MD -S x.c -o x.y.s", " -MF x.y.d -MQ x.y.s"),
    ("gcc -MD -c x.c -o obj.d/x", " -MF obj.d/x.d -MQ obj.d/x"),
    ("gcc -MD -c x.c -o obj/.x", " -MF obj/.d -MQ obj/.x"),
    ("gcc -MD -c x.c -o ./../x", " -MF ./../x.d -MQ ./../x"),
    ("gcc -MD -MF x.dep -c x.c -o x.o", " -MQ x.o"),
    ("gcc -MD -MFx.dep -c x.c -o x.o", " -MQ x.o"),
    ("gcc -MD -MT t -c x.c -o x.o", " -MF x.d"),
    ("gcc -MD -MQt -c x.c -o x.o", " -MF x.d"),
    ("gcc -MD -MF d -MT t -c x.c -o x.o", ""),
    ("gcc -MF d -c x.c -o x.o", ""),
    ("gcc -D -MD -c x.c -o x.o", ""),
    ("gcc -MD -D -MF -c x.c -o x.o", " -MF x.d -MQ x.o"),
    ("gcc -MD -c x.c -o -MF", " -MF -MF.d -MQ -MF"),
    ("gcc -Wp,-MD,d -c x.c -o x.o", ""),
    ("gcc -MD -MMD -c a.i -o a.o", " -MF a.d -MQ a.o"),
];

fn joined(alloc: Global, line: &str, added: &str) -> Result<Bytes, AllocError> {
    let mut text = Bytes::from_slice(alloc, line.as_bytes())?;
    text.try_extend(added.as_bytes())?;
    Ok(text)
}

/// The line of the words with those that are added.
fn with_added(alloc: Global, given: &Words) -> Result<Bytes, Fail> {
    if !is_remote(given) {
        return Err(Fail::from("not remote"));
    }
    let all = dependency_words(alloc, given, &remote_plan(given))?;
    Ok(line_of(alloc, all.as_slice())?)
}

fn expect_added<R: Abort>(rt: &R, alloc: Global, given: &Words, row: &Row) -> Result<(), Fail> {
    let (line, added) = row;
    let shown = with_added(alloc, given)?;
    let wanted = joined(alloc, line, added)?;
    same_bytes(rt, shown.as_slice(), wanted.as_slice(), line);
    Ok(())
}

fn expect_rows<R: Abort>(rt: &R, alloc: Global, rows: &[Row]) -> Result<(), Fail> {
    for row in rows {
        let given = words_of(alloc, row.0)?;
        expect_added(rt, alloc, &given, row)?;
    }
    Ok(())
}

#[test]
fn the_words_added_to_each_command(rt: HostRuntime) -> Result<(), Fail> {
    expect_rows(&rt, rt.alloc(), ROWS)
}
