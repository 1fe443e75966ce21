//! What `farm` answers to its words, to its environment and to an input that asks for no job.

use crate::command_rows::{BUILDS, COMMANDS, DONE, Row};
use crate::devices::{FIRST, Script, run};
use crate::same::{holds, same, same_items, same_output};
use farm_calls::Seen;
use std::alloc::Global;
use std::process::Abort;
use std::sync::Wait;
use std::test::Fail;
use std::thread::Threads;

// Words, and a text about them.
type Line = (&'static [&'static str], &'static str);

// Builds that compile here: the compile gives an empty object.
const HERE: &[Line] = &[
    (&["build"], "1 here stat 00000000\ntotal 1 ok 1\n"),
    (
        &["build", "--no-fallback", "--hosts", "localhost"],
        "1 here stat 00000000\ntotal 1 ok 1\n",
    ),
];

// Words that don't fit, and the place of the first that doesn't.
const BAD_WORDS: &[Line] = &[
    (&[], "0"),
    (&["make"], "0"),
    (&["build", "--workers", "0"], "2"),
    (&["build", "--workers", "17"], "2"),
    (&["build", "--workers", "017"], "2"),
    (&["build", "--workers", "+4"], "2"),
    (&["build", "--workers"], "2"),
    (&["build", "--hosts", "@red", "--hosts", "H"], "3"),
    (&["build", "--workers", "4", "--workers", "4"], "3"),
    (
        &["build", "--no-fallback", "--hosts", "H", "--no-fallback"],
        "4",
    ),
    (&["build", "--no-retry", "--no-retry"], "2"),
    (&["build", "--help", "x"], "2"),
    (&["hosts", "--no-fallback"], "1"),
    (&["hosts", "--hosts"], "2"),
    (&["scan"], "1"),
    (&["cc"], "1"),
    (&["rehearse", "513"], "1"),
    (&["--version", "x"], "1"),
    (&["--help", "build"], "1"),
];

// What the help of each command begins with.
const HELP: &[Line] = &[
    (
        &["--help"],
        "Usage: farm build --hosts 'build1/4 build2/4' --workers 8 <jobs\n",
    ),
    (&["build", "--help"], "Usage: farm build [OPTION]...\n"),
    (&["cc", "--help"], "Usage: farm cc WORD...\n"),
    (&["hosts", "--help"], "Usage: farm hosts [--hosts LIST]\n"),
    (&["scan", "--help"], "Usage: farm scan WORD...\n"),
    (&["rehearse", "--help"], "Usage: farm rehearse N\n"),
];

const UNREAD: &str = "farm: cannot read the job list\n";

// Inputs that are no job list, or can't be read: which read fails, 0 for none; the status, and what is said.
type Input = (&'static [u8], u64, u8, &'static str);

const INPUTS: &[Input] = &[
    (b"", 0, 109, "farm: job list: fault 3 at line 0\n"),
    (b"# gcc\n\n", 0, 109, "farm: job list: fault 3 at line 0\n"),
    (
        b"gcc -c 'x.c\n",
        0,
        109,
        "farm: job list: fault 1 at line 1\n",
    ),
    (
        b"gcc -c x.c\\",
        0,
        109,
        "farm: job list: fault 2 at line 1\n",
    ),
    (
        b"scc -c a.c\nscc -c a.c\n",
        0,
        109,
        "farm: job list: fault 6 at line 2\n",
    ),
    (b"gcc -c x.c\n", 2, 107, UNREAD),
    (b"gcc -c 'x.c'\n", 1, 107, UNREAD),
];

// What is wanted of a run: its status, and what is printed.
#[derive(Drop)]
struct Wanted<'a> {
    status: u8,
    out: &'a str,
    err: &'a str,
}

// Nothing but this is printed in the run of a script, and there is an object exactly if the status is 0 and a job ran.
fn check_run<R: Abort + Threads + Wait + Sync>(
    rt: &R,
    alloc: Global,
    script: &Script,
    wanted: &Wanted,
) -> Result<(), Fail> {
    let seen = run(rt, alloc, script)?;
    check_seen(rt, script.words, &seen, wanted);
    Ok(())
}

fn check_seen<R: Abort>(rt: &R, words: &[&str], seen: &Seen, wanted: &Wanted) {
    let place = (words, seen.status, &seen.out, &seen.err);
    same_output(rt, seen, wanted.status, wanted.out.as_bytes(), &place);
    same_items(rt, seen.err.as_slice(), wanted.err.as_bytes(), &place);
    same(rt, &seen.object.is_some(), &(wanted.out == DONE), &place);
}

fn check_rows<R: Abort + Threads + Wait + Sync>(
    rt: &R,
    alloc: Global,
    rows: &[Row],
    first: &Script,
) -> Result<(), Fail> {
    for row in rows {
        let script = Script {
            words: row.words,
            env: row.env,
            ..*first
        };
        let wanted = Wanted {
            status: row.status,
            out: row.out,
            err: row.err,
        };
        check_run(rt, alloc, &script, &wanted)?;
    }
    Ok(())
}

#[test]
fn commands_answer_by_their_words(rt: HostRuntime) -> Result<(), Fail> {
    check_rows(&rt, rt.alloc(), COMMANDS, &FIRST)?;
    check_rows(&rt, rt.alloc(), BUILDS, &FIRST)
}

// What these words print, which is only this, and there is an object.
fn check_here<R: Abort + Threads + Wait + Sync>(
    rt: &R,
    alloc: Global,
    rows: &[Line],
    first: &Script,
) -> Result<(), Fail> {
    for &(words, out) in rows {
        let seen = run(rt, alloc, &Script { words, ..*first })?;
        same_output(rt, &seen, 0, out.as_bytes(), &words);
        holds(rt, seen.object.is_some(), &words);
    }
    Ok(())
}

#[test]
fn this_machine_compiles_where_no_host_does(rt: HostRuntime) -> Result<(), Fail> {
    check_here(&rt, rt.alloc(), HERE, &FIRST)
}

fn check_bad_words<R: Abort + Threads + Wait + Sync>(
    rt: &R,
    alloc: Global,
    script: &Script,
    place: &str,
) -> Result<(), Fail> {
    let err = format!(in alloc; "farm: bad words at word {place}\n")?;
    let wanted = Wanted {
        status: 101,
        out: "",
        err: err.as_str(),
    };
    check_run(rt, alloc, script, &wanted)
}

fn check_all_bad_words<R: Abort + Threads + Wait + Sync>(
    rt: &R,
    alloc: Global,
    rows: &[Line],
    unread: &Script,
) -> Result<(), Fail> {
    for &(words, place) in rows {
        check_bad_words(rt, alloc, &Script { words, ..*unread }, place)?;
    }
    Ok(())
}

// The input can't be read, and isn't.
const NO_INPUT: Script = Script {
    read_fails: 1,
    ..FIRST
};

#[test]
fn words_that_do_not_fit_are_named_by_their_place(rt: HostRuntime) -> Result<(), Fail> {
    check_all_bad_words(&rt, rt.alloc(), BAD_WORDS, &NO_INPUT)
}

fn check_help<R: Abort + Threads + Wait + Sync>(
    rt: &R,
    alloc: Global,
    rows: &[Line],
    first: &Script,
) -> Result<(), Fail> {
    for &(words, usage) in rows {
        let seen = run(rt, alloc, &Script { words, ..*first })?;
        same(rt, &seen.status, &0, &words);
        holds(
            rt,
            seen.out.as_slice().starts_with(usage.as_bytes()),
            &words,
        );
        holds(rt, seen.err.is_empty(), &words);
    }
    Ok(())
}

#[test]
fn help_is_printed(rt: HostRuntime) -> Result<(), Fail> {
    check_help(&rt, rt.alloc(), HELP, &FIRST)
}

fn check_inputs<R: Abort + Threads + Wait + Sync>(
    rt: &R,
    alloc: Global,
    rows: &[Input],
    first: &Script,
) -> Result<(), Fail> {
    for &(input, read_fails, status, err) in rows {
        let script = Script {
            input,
            read_fails,
            ..*first
        };
        let wanted = Wanted {
            status,
            out: "",
            err,
        };
        check_run(rt, alloc, &script, &wanted)?;
    }
    Ok(())
}

#[test]
fn inputs_without_a_job_are_refused(rt: HostRuntime) -> Result<(), Fail> {
    check_inputs(&rt, rt.alloc(), INPUTS, &FIRST)
}
