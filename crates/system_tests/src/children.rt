//! Programs that are run as children.

use crate::same::{holds, same, same_bytes};
use edge_real::{ChildStation, RunWatch, ServingRules, Unwatched, WordPolicy, current_folder};
use edge_traits::{Bounds, Station, StationFault, Stream};
use farm_types::{Bytes, Ext, Ran, Word};
use std::alloc::{AllocError, Global};
use std::fs;
use std::process::Abort;
use std::rt::{Clock, Files};
use std::test::Fail;
use std::time::{Duration, Instant};

const BOUNDS: Bounds = Bounds {
    out: 100_000,
    err: 100_000,
    object: 100_000,
};

fn station(rt: HostRuntime) -> Result<ChildStation<HostRuntime>, AllocError> {
    let folder = String::from_str(rt.alloc(), ".")?;
    Ok(ChildStation::new(rt, folder))
}

/// A station that serves others by these rules, from the root of the system's files.
fn serving_by<W: Drop>(
    rt: HostRuntime,
    rules: ServingRules,
    watch: W,
) -> Result<ChildStation<HostRuntime, W>, AllocError> {
    let folder = String::from_str(rt.alloc(), ".")?;
    let here = String::from_str(rt.alloc(), "/")?;
    Ok(ChildStation::serving(rt, folder, here, rules, None, watch))
}

/// A station that serves others by this policy.
fn serving(rt: HostRuntime, policy: WordPolicy) -> Result<ChildStation<HostRuntime>, AllocError> {
    let rules = ServingRules {
        policy,
        lifetime: None,
    };
    serving_by(rt, rules, Unwatched)
}

/// The policy of a station to which anybody may send words, with one folder of tools.
fn served(rt: HostRuntime) -> Result<WordPolicy, AllocError> {
    let mut tools = Vec::new(rt.alloc());
    tools.push(String::from_str(rt.alloc(), "/opt/sdk")?)?;
    Ok(WordPolicy::ServedWords { tools })
}

/// A command of these words.
fn command(alloc: Global, texts: &[&[u8]]) -> Result<Vec<Word>, AllocError> {
    let mut words = Vec::new(alloc);
    for text in texts {
        words.push(Word::Text(Bytes::from_slice(alloc, text)?))?;
    }
    Ok(words)
}

/// Runs the program of the first of these words by the others.
fn run_words<S: Station>(
    alloc: Global,
    station: &mut S,
    texts: &[&[u8]],
) -> Result<Ran, StationFault> {
    let words = command(alloc, texts)?;
    station.run(alloc, words.as_slice(), b"", &BOUNDS)
}

fn shell(alloc: Global, script: &str) -> Result<Vec<Word>, AllocError> {
    let mut words = command(alloc, &[b"/bin/sh", b"-c", script.as_bytes()])?;
    words.push(Word::Input(Ext::Ii))?;
    words.push(Word::Output)?;
    Ok(words)
}

/// Runs a script, with the names of its input and of its output as $0 and $1.
fn run_script<S: Station>(
    alloc: Global,
    station: &mut S,
    script: &str,
    input: &[u8],
) -> Result<Ran, StationFault> {
    let words = shell(alloc, script)?;
    station.run(alloc, words.as_slice(), input, &BOUNDS)
}

/// Only the status of what was run.
fn status_of(ended: Result<Ran, StationFault>) -> Result<u32, StationFault> {
    Ok(ended?.status)
}

/// Whether a file is that of a run.
fn is_of_a_run(name: &[u8]) -> bool {
    name.starts_with(b"farm-")
}

/// No folder of a run is left.
fn expect_empty<R: Abort + Files + AllocGlobal + Clone + Drop>(rt: &R) -> Result<(), Fail> {
    for entry in fs::read_dir(rt, ".")? {
        let entry = entry?;
        holds(rt, !is_of_a_run(entry.file_name().as_bytes()), &"no folder");
    }
    Ok(())
}

/// A script, its input, and what its run leaves.
struct Row {
    script: &'static str,
    input: &'static [u8],
    status: u32,
    out: &'static [u8],
    err: &'static [u8],
    object: &'static [u8],
}

fn expect_ran<R: Abort>(rt: &R, ran: &Ran, row: &Row) {
    same(rt, &ran.status, &row.status, &row.script);
    same_bytes(rt, ran.out.as_slice(), row.out, &row.script);
    same_bytes(rt, ran.err.as_slice(), row.err, &row.script);
    same_bytes(rt, ran.object.as_slice(), row.object, &row.script);
}

fn expect_run<R: Abort, S: Station>(
    rt: &R,
    alloc: Global,
    station: &mut S,
    row: &Row,
) -> Result<(), Fail> {
    let ran = run_script(alloc, station, row.script, row.input)?;
    expect_ran(rt, &ran, row);
    Ok(())
}

/// Runs the script of a row, after which no folder is left.
fn expect_clean_run<R: Abort + Files + AllocGlobal + Clone + Drop, S: Station>(
    rt: &R,
    station: &mut S,
    row: &Row,
) -> Result<(), Fail> {
    expect_run(rt, rt.alloc(), station, row)?;
    expect_empty(rt)
}

const WHOLE: &Row = &Row {
    script: "test -e $1 && exit 9; cat $0 > $1; cat; stat -c %a ${0%/*} $0; readlink /proc/$$/fd/0; ls ${0%/*}; echo no >&2; exit 3",
    input: b"int a;\n",
    status: 768,
    out: b"700\n600\n/dev/null\ninput.ii\noutput.o\n",
    err: b"no\n",
    object: b"int a;\n",
};

#[test]
fn a_child_gives_its_status_outputs_and_object(rt: HostRuntime) -> Result<(), Fail> {
    let mut station = station(rt)?;
    expect_clean_run(&rt, &mut station, WHOLE)
}

/// What a run prints that names its input and removes it. It leaves no object.
fn input_name<R: Abort, S: Station>(rt: &R, alloc: Global, station: &mut S) -> Result<Bytes, Fail> {
    let ran = run_script(alloc, station, "echo $0; rm $0", b"")?;
    holds(rt, ran.object.is_empty(), &"no object");
    Ok(ran.out)
}

/// Whether the bytes are those of a hexadecimal number.
fn are_digits(text: &[u8]) -> bool {
    for byte in text {
        if !byte.is_ascii_hexdigit() {
            return false;
        }
    }
    true
}

fn expect_input_name<R: Abort>(rt: &R, name: &[u8]) {
    same(rt, &name.len(), &49, &name);
    holds(rt, name.starts_with(b"./farm-"), &name);
    holds(rt, are_digits(name.get(7..39).unwrap_or(b"-")), &name);
    same_bytes(rt, name.get(39..).unwrap_or(b""), b"/input.ii\n", &name);
}

fn expect_two_names<R: Abort, S: Station>(
    rt: &R,
    alloc: Global,
    station: &mut S,
) -> Result<(), Fail> {
    let one = input_name(rt, alloc, station)?;
    let other = input_name(rt, alloc, station)?;
    expect_input_name(rt, one.as_slice());
    expect_input_name(rt, other.as_slice());
    holds(rt, one.as_slice() != other.as_slice(), &one.as_slice());
    Ok(())
}

#[test]
fn no_two_runs_share_a_folder(rt: HostRuntime) -> Result<(), Fail> {
    let mut station = station(rt)?;
    expect_two_names(&rt, rt.alloc(), &mut station)?;
    expect_empty(&rt)
}

const LEFTOVERS: &Row = &Row {
    script: "d=${0%/*}; echo su > $d/output.su; mkdir -p $d/a/b $d/c; echo x > $d/a/b/x; ln -s ../mine $d/c/link; ln -s .. $d/up; cat mine",
    input: b"",
    status: 0,
    out: b"mine",
    err: b"",
    object: b"",
};

fn expect_mine<R: Abort + Files + AllocGlobal>(rt: &R) -> Result<(), Fail> {
    let mine = fs::read_to_string(rt, "mine")?;
    same_bytes(rt, mine.as_bytes(), b"mine", &"mine");
    Ok(())
}

/// A file that a run's folder links to stays.
fn expect_leftovers<R: Abort + Files + AllocGlobal + Clone + Drop, S: Station>(
    rt: &R,
    station: &mut S,
) -> Result<(), Fail> {
    fs::write(rt, "mine", "mine")?;
    expect_run(rt, rt.alloc(), station, LEFTOVERS)?;
    expect_mine(rt)?;
    fs::remove_file(rt, "mine")?;
    expect_empty(rt)
}

#[test]
fn what_a_child_left_is_removed(rt: HostRuntime) -> Result<(), Fail> {
    let mut station = station(rt)?;
    expect_leftovers(&rt, &mut station)
}

const FOR_OTHERS: &Row = &Row {
    script: "echo $0 $1; ls -a; cat $0 > $1; echo su > output.su; echo no >&2",
    input: b"int a;\n",
    status: 0,
    out: b"input.ii output.o\n.\n..\ninput.ii\n",
    err: b"no\n",
    object: b"int a;\n",
};

#[test]
fn a_child_for_others_runs_in_the_folder_of_its_run(rt: HostRuntime) -> Result<(), Fail> {
    let mut station = serving(rt, WordPolicy::AllWords)?;
    expect_clean_run(&rt, &mut station, FOR_OTHERS)
}

/// Whether the program of this name goes well and prints a path from the root.
fn prints_a_path<S: Station>(
    alloc: Global,
    station: &mut S,
    name: &[u8],
) -> Result<bool, StationFault> {
    let ran = run_words(alloc, station, &[name])?;
    Ok(ran.status == 0 && ran.out.as_slice().starts_with(b"/"))
}

fn expect_paths<R: Abort, S: Station>(rt: &R, alloc: Global, station: &mut S, names: &[&[u8]]) {
    for name in names {
        same(rt, &prints_a_path(alloc, station, name), &Ok(true), name);
    }
}

const NAMES: &[&[u8]] = &[b"bin/pwd", b"/bin/pwd", b"pwd"];

#[test]
fn a_program_is_named_from_the_folder_of_the_process(rt: HostRuntime) -> Result<(), Fail> {
    let mut station = serving(rt, WordPolicy::AllWords)?;
    expect_paths(&rt, rt.alloc(), &mut station, NAMES);
    Ok(())
}

/// A command, and how its run ends.
type Command = (&'static [&'static [u8]], Result<u32, StationFault>);

fn expect_commands<R: Abort, S: Station>(rt: &R, alloc: Global, station: &mut S, all: &[Command]) {
    for (texts, want) in all {
        same(
            rt,
            &status_of(run_words(alloc, station, texts)),
            want,
            texts,
        );
    }
}

const SERVED: &[Command] = &[
    (&[b"/bin/true", b"-O2"], Ok(0)),
    (&[b"/bin/true", b"@words"], Ok(28_416)),
    (&[b"/bin/true", b"-fplugin=x.so"], Ok(28_416)),
    (&[b"/bin/true", b"--specs=x"], Ok(28_416)),
    (&[b"/bin/true", b"--sysroot=/opt/sdk/root"], Ok(0)),
    (&[b"/bin/true", b"--sysroot=/opt/sdk2"], Ok(28_416)),
];

#[test]
fn words_that_are_not_let_through_do_not_run(rt: HostRuntime) -> Result<(), Fail> {
    let mut station = serving(rt, served(rt)?)?;
    expect_commands(&rt, rt.alloc(), &mut station, SERVED);
    expect_empty(&rt)
}

#[test]
fn the_reply_says_which_word_is_not_let_through(rt: HostRuntime) -> Result<(), Fail> {
    let mut station = serving(rt, served(rt)?)?;
    let ran = run_words(rt.alloc(), &mut station, &[b"/bin/true", b"-O2", b"@words"])?;
    same_bytes(
        &rt,
        ran.err.as_slice(),
        b"farmd: not let through: @words\n",
        &"its text",
    );
    Ok(())
}

/// The watch of a run whose peer has gone.
#[derive(Drop)]
struct Left;

impl RunWatch for Left {
    fn has_gone(&self) -> bool {
        true
    }

    fn want_descriptors(&self) {}
}

/// Runs a script that takes half a minute, which is killed long before that.
fn expect_killed<R: Abort + Files + AllocGlobal + Clone + Clock + Drop, S: Station>(
    rt: &R,
    station: &mut S,
) -> Result<(), Fail> {
    let begun = Instant::now(rt)?;
    expect_faults(
        rt,
        rt.alloc(),
        station,
        &[("exec sleep 30", StationFault::Failed)],
    );
    holds(rt, begun.elapsed(rt)? < Duration::from_secs(20), &"killed");
    expect_empty(rt)
}

#[test]
fn a_program_is_killed_after_its_lifetime(rt: HostRuntime) -> Result<(), Fail> {
    let rules = ServingRules {
        policy: WordPolicy::AllWords,
        lifetime: Some(Duration::from_millis(300)),
    };
    let mut station = serving_by(rt, rules, Unwatched)?;
    expect_killed(&rt, &mut station)
}

#[test]
fn a_program_is_killed_whose_peer_has_gone(rt: HostRuntime) -> Result<(), Fail> {
    let rules = ServingRules {
        policy: WordPolicy::AllWords,
        lifetime: None,
    };
    let mut station = serving_by(rt, rules, Left)?;
    expect_killed(&rt, &mut station)
}

#[test]
fn temporary_files_are_made_in_the_folder_of_the_run(rt: HostRuntime) -> Result<(), Fail> {
    let folder = String::from_str(rt.alloc(), ".")?;
    let here = current_folder(&rt)?;
    let rules = ServingRules {
        policy: WordPolicy::AllWords,
        lifetime: None,
    };
    let mut station = ChildStation::serving(rt, folder, here, rules, None, Unwatched);
    expect_clean_run(&rt, &mut station, OWN_TEMPORARY_FILES)
}

const OWN_TEMPORARY_FILES: &Row = &Row {
    script: "[ $TMPDIR -ef . ] && : >$TMPDIR/left && ls",
    input: b"",
    status: 0,
    out: b"input.ii\nleft\n",
    err: b"",
    object: b"",
};

/// A script, and the fault of its run.
type Faulty = (&'static str, StationFault);

fn expect_faults<R: Abort, S: Station>(rt: &R, alloc: Global, station: &mut S, all: &[Faulty]) {
    for (script, fault) in all {
        let status = status_of(run_script(alloc, station, script, b""));
        same(rt, &status, &Err(*fault), script);
    }
}

/// Of several streams above their bounds, standard output is named first, then standard error, then the object.
const OVERRUNS: &[Faulty] = &[
    (
        "head -c 300000 /dev/zero; head -c 300000 /dev/zero >&2",
        StationFault::TooMuch {
            stream: Stream::Out,
            bytes: 300_000,
        },
    ),
    (
        "head -c 300000 /dev/zero >&2; head -c 300000 /dev/zero >$1",
        StationFault::TooMuch {
            stream: Stream::Err,
            bytes: 300_000,
        },
    ),
    (
        "head -c 300000 /dev/zero >$1",
        StationFault::TooMuch {
            stream: Stream::Object,
            bytes: 300_000,
        },
    ),
];

#[test]
fn a_stream_that_is_too_long_is_named(rt: HostRuntime) -> Result<(), Fail> {
    let mut station = station(rt)?;
    expect_faults(&rt, rt.alloc(), &mut station, OVERRUNS);
    expect_empty(&rt)
}

const KILLED: &Row = &Row {
    script: "kill -KILL $$",
    input: b"",
    status: 9,
    out: b"",
    err: b"",
    object: b"",
};

#[test]
fn a_child_that_is_killed_has_ended(rt: HostRuntime) -> Result<(), Fail> {
    let mut station = station(rt)?;
    expect_clean_run(&rt, &mut station, KILLED)
}

const NOT_STARTED: &[Command] = &[
    (&[b"no/such/program"], Err(StationFault::Failed)),
    (&[b"\xff"], Err(StationFault::Failed)),
    (&[b"sh\0"], Err(StationFault::Failed)),
];

#[test]
fn a_program_that_cannot_be_started_is_a_fault(rt: HostRuntime) -> Result<(), Fail> {
    let mut station = station(rt)?;
    expect_commands(&rt, rt.alloc(), &mut station, NOT_STARTED);
    expect_empty(&rt)
}

const WITHOUT_FOLDER: &[Faulty] = &[("exit 0", StationFault::Failed)];

#[test]
fn a_folder_that_is_not_there_is_a_fault(rt: HostRuntime) -> Result<(), Fail> {
    let folder = String::from_str(rt.alloc(), "no/such/folder")?;
    let mut station = ChildStation::new(rt, folder);
    expect_faults(&rt, rt.alloc(), &mut station, WITHOUT_FOLDER);
    Ok(())
}
