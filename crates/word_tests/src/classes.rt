use crate::lines::words_of;
use crate::option_rows::{KEPT_HERE, SENT};
use crate::same::{holds, same, same_bytes};
use arg_scan::{Action, Ending, OutputPlace, Plan, Scan, Verdict, Why, classify, scan};
use farm_types::{Ext, Words};
use std::alloc::Global;
use std::process::Abort;
use std::test::Fail;

/// A command that stays here, the reason, and its place.
type Local = (&'static str, Why, usize);

const EACH_REASON: &[Local] = &[
    ("scc", Why::NoAction, 1),
    ("scc x.c", Why::NoAction, 2),
    ("scc -c -S x.c", Why::BothActions, 4),
    ("scc -c -E x.c", Why::Preprocess, 2),
    ("scc -M -c x.c", Why::Depend, 1),
    ("scc -c", Why::NoInput, 2),
    ("scc -c x.c y.c", Why::ManyInputs, 3),
    ("scc -march=native -c x.c", Why::Native, 1),
    ("scc -c x.c -fprofile-use", Why::Profile, 3),
    ("scc -c x.c -frepo", Why::Repo, 3),
    ("scc -c x.c -specs=y", Why::Specs, 3),
    ("scc -x c -c x.c", Why::Language, 1),
    ("scc -c -save-temps=obj x.c", Why::SaveTemps, 2),
    ("scc -c -dD x.c", Why::Dump, 2),
    ("scc -c x.c -Wa,-al=x.s", Why::AsmListing, 3),
    ("scc -c x.c @more", Why::ResponseFile, 3),
    ("scc -c conftest.c", Why::Conftest, 2),
    ("gcc -c -", Why::StandardStream, 2),
    ("scc -c x.c -o -", Why::StandardStream, 4),
    ("scc -c x.c -o-", Why::StandardStream, 3),
    ("scc -c x.c -o", Why::MissingOperand, 3),
    ("scc -c x.c -wrapper", Why::MissingOperand, 3),
    ("scc -c -o a x.c -o b", Why::ManyOutputs, 5),
    ("scc -c x.c y", Why::OtherWord, 3),
    ("scc -c  x.c", Why::OtherWord, 2),
    ("scc -c x.c -gsplit-dwarf", Why::SideFile, 3),
    ("gcc -c a.c -o x.farm~", Why::ReservedName, 4),
    ("gcc -c a.c -ox.farm~", Why::ReservedName, 3),
];

const FIRST_REASON: &[Local] = &[
    ("scc -c y -E x.c", Why::OtherWord, 2),
    ("scc -c x.c -o x.o -ox.farm~", Why::ManyOutputs, 5),
    ("scc -c x.c -o x.o -o", Why::MissingOperand, 5),
    ("scc -c x.c -o x.o -o -", Why::ManyOutputs, 5),
    ("scc -c x.c dir/conftest.c", Why::ManyInputs, 3),
    ("scc -M", Why::Depend, 1),
    ("scc -c -S", Why::BothActions, 3),
    ("scc -Xclang", Why::MissingOperand, 1),
];

fn expect_class<R: Abort>(rt: &R, words: &Words, row: &Local) {
    let (line, why, at) = row;
    let wanted = Verdict::Local { why: *why, at: *at };
    same(rt, &classify(words), &wanted, line);
}

fn expect_scan<R: Abort>(rt: &R, alloc: Global, words: &Words, row: &Local) -> Result<(), Fail> {
    match scan(alloc, words) {
        Scan::Local { why, at } => {
            same(rt, &why, &row.1, &row.0);
            same(rt, &at, &(row.2 as u64), &row.0);
            Ok(())
        }
        _ => Err(row.0.into()),
    }
}

fn expect_scans<R: Abort>(rt: &R, alloc: Global, rows: &[Local]) -> Result<(), Fail> {
    for row in rows {
        let words = words_of(alloc, row.0)?;
        expect_class(rt, &words, row);
        expect_scan(rt, alloc, &words, row)?;
    }
    Ok(())
}

#[test]
fn each_reason_has_its_place(rt: HostRuntime) -> Result<(), Fail> {
    expect_scans(&rt, rt.alloc(), EACH_REASON)
}

fn expect_classes<R: Abort>(rt: &R, alloc: Global, rows: &[Local]) -> Result<(), Fail> {
    for row in rows {
        let words = words_of(alloc, row.0)?;
        expect_class(rt, &words, row);
    }
    Ok(())
}

#[test]
fn the_least_place_and_the_first_reason_count(rt: HostRuntime) -> Result<(), Fail> {
    expect_classes(&rt, rt.alloc(), FIRST_REASON)
}

#[test]
fn options_beyond_the_first_rows_keep_a_command_here(rt: HostRuntime) -> Result<(), Fail> {
    expect_classes(&rt, rt.alloc(), KEPT_HERE)
}

fn expect_sent<R: Abort>(rt: &R, alloc: Global, lines: &[&str]) -> Result<(), Fail> {
    for line in lines {
        let words = words_of(alloc, line)?;
        holds(rt, matches!(classify(&words), Verdict::Remote(_)), line);
    }
    Ok(())
}

#[test]
fn options_that_are_known_to_be_safe_are_sent(rt: HostRuntime) -> Result<(), Fail> {
    expect_sent(&rt, rt.alloc(), SENT)
}

/// A command that may be sent, and its class.
struct Row {
    line: &'static str,
    action: Action,
    input: u64,
    output: &'static str,
    preprocessed: bool,
    ext: Ext,
}

const COMPILE: Row = Row {
    line: "",
    action: Action::Compile,
    input: 0,
    output: "",
    preprocessed: false,
    ext: Ext::I,
};

const REMOTE: &[Row] = &[
    Row {
        line: "scc -MD -c x.c",
        input: 3,
        output: "x.o",
        ..COMPILE
    },
    Row {
        line: "scc -D -E -c x.c",
        input: 4,
        output: "x.o",
        ..COMPILE
    },
    Row {
        line: "gcc -iwithprefixbefore p -c a.c",
        input: 4,
        output: "a.o",
        ..COMPILE
    },
    Row {
        line: "gcc -O2 -Wall -Iinc -DX=1 -MD -MF d -c a.cc -o b.o",
        input: 9,
        output: "b.o",
        ext: Ext::Ii,
        ..COMPILE
    },
    Row {
        line: "scc -S src/x.cpp",
        action: Action::Assemble,
        input: 2,
        output: "x.s",
        ext: Ext::Ii,
        ..COMPILE
    },
    Row {
        line: "scc -c -c x.cxx -obuild/y.o",
        input: 3,
        output: "build/y.o",
        ext: Ext::Ii,
        ..COMPILE
    },
    Row {
        line: "scc -c x.C",
        input: 2,
        output: "x.o",
        ext: Ext::Ii,
        ..COMPILE
    },
    Row {
        line: "scc -c x.i",
        input: 2,
        output: "x.o",
        preprocessed: true,
        ..COMPILE
    },
    Row {
        line: "scc -c x.y.ii",
        input: 2,
        output: "x.y.o",
        preprocessed: true,
        ext: Ext::Ii,
        ..COMPILE
    },
    Row {
        line: "scc -I -S -c x.c -Wa,--noexecstack",
        input: 4,
        output: "x.o",
        ..COMPILE
    },
];

fn expect_remote<R: Abort>(rt: &R, class: &Scan, row: &Row) -> Result<(), Fail> {
    match class {
        Scan::Remote {
            action,
            input,
            output,
            preprocessed,
            ext,
        } => {
            same(rt, action, &row.action, &row.line);
            same(rt, input, &row.input, &row.line);
            same_bytes(rt, output.as_slice(), row.output.as_bytes(), &row.line);
            same(rt, preprocessed, &row.preprocessed, &row.line);
            same(rt, ext, &row.ext, &row.line);
            Ok(())
        }
        _ => Err(row.line.into()),
    }
}

fn class_of(alloc: Global, line: &str) -> Result<Scan, Fail> {
    let words = words_of(alloc, line)?;
    Ok(scan(alloc, &words))
}

fn expect_rows<R: Abort>(rt: &R, alloc: Global, rows: &[Row]) -> Result<(), Fail> {
    for row in rows {
        expect_remote(rt, &class_of(alloc, row.line)?, row)?;
    }
    Ok(())
}

#[test]
fn commands_that_may_be_sent(rt: HostRuntime) -> Result<(), Fail> {
    expect_rows(&rt, rt.alloc(), REMOTE)
}

fn expect_empty<R: Abort>(rt: &R, alloc: Global, none: &Words) {
    same(rt, &classify(none), &Verdict::Empty, &"no words");
    let empty = matches!(scan(alloc, none), Scan::Empty);
    holds(rt, empty, &"no words");
}

const PLAN: Plan = Plan {
    action: Action::Compile,
    input: 2,
    ending: Ending::Cc,
    output: Some(OutputPlace { at: 3, from: 2 }),
};

#[test]
fn a_plan_names_places(rt: HostRuntime) -> Result<(), Fail> {
    let none = Words::new(rt.alloc());
    expect_empty(&rt, rt.alloc(), &none);
    let line = "scc -c src/x.cc -obuild/x.o";
    let words = words_of(rt.alloc(), line)?;
    same(&rt, &classify(&words), &Verdict::Remote(PLAN), &line);
    Ok(())
}
