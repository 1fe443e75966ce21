use crate::same::{same, same_bytes};
use arg_scan::{Scan, scan};
use arg_strip::is_remote;
use child_runner::{compile, in_place, preprocess};
use edge_memory::{MemStation, RanList};
use edge_traits::{CallNumbers, Station, StationFault, Stream};
use farm_types::limits::CHILD_ERR_MAX;
use farm_types::{Bytes, Ran, Words};
use std::alloc::Global;
use std::process::Abort;
use std::test::Fail;

#[derive(Clone, Copy, Debug)]
enum Call {
    Preprocess,
    Compile,
    InPlace,
}

fn command(alloc: Global, line: &str) -> Result<Words, Fail> {
    let mut words = Words::new(alloc);
    for word in line.split(' ') {
        words.try_push(Bytes::from_slice(alloc, word.as_bytes())?)?;
    }
    Ok(words)
}

// A station whose one run leaves this; its first run fails if `fails` is true.
fn station(alloc: Global, ran: Ran, fails: bool) -> Result<MemStation, Fail> {
    let mut rans = RanList::new(alloc);
    rans.try_push(ran)?;
    let mut numbers = CallNumbers::new(alloc);
    if fails {
        numbers.try_push(1)?;
    }
    Ok(MemStation::new(rans, numbers))
}

fn ran(alloc: Global, status: u32, out: &[u8], err: &[u8], object: &[u8]) -> Result<Ran, Fail> {
    Ok(Ran {
        status,
        out: Bytes::from_slice(alloc, out)?,
        err: Bytes::from_slice(alloc, err)?,
        object: Bytes::from_slice(alloc, object)?,
    })
}

fn preprocessed<S: Station>(
    alloc: Global,
    words: &Words,
    station: &mut S,
) -> Result<Result<Ran, StationFault>, Fail> {
    if !is_remote(words) {
        return Err("the command may be sent".into());
    }
    match scan(alloc, words) {
        Scan::Remote {
            preprocessed: false,
            ..
        } => Ok(preprocess(alloc, words, station)),
        _ => Err("the source isn't preprocessed".into()),
    }
}

fn compiled<S: Station>(
    alloc: Global,
    words: &Words,
    station: &mut S,
) -> Result<Result<Ran, StationFault>, Fail> {
    if !is_remote(words) {
        return Err("the command may be sent".into());
    }
    let source = Bytes::from_slice(alloc, b"int a = 1;\n")?;
    Ok(compile(alloc, words, &source, station))
}

fn ran_in_place<S: Station>(
    alloc: Global,
    words: &Words,
    station: &mut S,
) -> Result<Result<Ran, StationFault>, Fail> {
    if words.is_empty() {
        return Err("the command has a word".into());
    }
    Ok(in_place(alloc, words, station))
}

fn run<S: Station>(
    alloc: Global,
    call: Call,
    line: &str,
    station: &mut S,
) -> Result<Result<Ran, StationFault>, Fail> {
    let words = command(alloc, line)?;
    match call {
        Call::Preprocess => preprocessed(alloc, &words, station),
        Call::Compile => compiled(alloc, &words, station),
        Call::InPlace => ran_in_place(alloc, &words, station),
    }
}

/// A call, its command, and what its run leaves: the status and the object.
struct Answer {
    call: Call,
    line: &'static str,
    status: u32,
    object: &'static [u8],
}

const ANSWERS: &[Answer] = &[
    Answer {
        call: Call::Preprocess,
        line: "scc -MD -c x.c",
        status: 0,
        object: b"",
    },
    Answer {
        call: Call::Preprocess,
        line: "scc -c x.c -o x.o",
        status: 256,
        object: b"",
    },
    Answer {
        call: Call::Compile,
        line: "scc -c x.c",
        status: 0,
        object: b"SCO1\ndef a 1\n",
    },
    Answer {
        call: Call::Compile,
        line: "scc -c a.i -o a.o",
        status: 9,
        object: b"",
    },
    Answer {
        call: Call::InPlace,
        line: "scc -c x.c",
        status: 256,
        object: b"",
    },
];

fn expect_ran<R: Abort>(rt: &R, ran: &Ran, row: &Answer) {
    same(rt, &ran.status, &row.status, &row.line);
    same_bytes(rt, ran.out.as_slice(), b"int a = 1;\n", &row.line);
    same_bytes(rt, ran.err.as_slice(), b"w\n", &row.line);
    same_bytes(rt, ran.object.as_slice(), row.object, &row.line);
}

fn expect_one_run<R: Abort>(
    rt: &R,
    alloc: Global,
    station: MemStation,
    line: &str,
) -> Result<(), Fail> {
    let runs = station.into_runs().into_items(alloc)?;
    same(rt, &runs.len(), &1, &line);
    Ok(())
}

fn expect_left<R: Abort, S: Station>(
    rt: &R,
    alloc: Global,
    row: &Answer,
    station: &mut S,
) -> Result<(), Fail> {
    match run(alloc, row.call, row.line, station)? {
        Ok(ran) => {
            expect_ran(rt, &ran, row);
            Ok(())
        }
        Err(_) => Err("the run went well".into()),
    }
}

/// A station whose one run leaves this of a row.
fn left(alloc: Global, row: &Answer) -> Result<MemStation, Fail> {
    let ran = ran(alloc, row.status, b"int a = 1;\n", b"w\n", row.object)?;
    station(alloc, ran, false)
}

fn expect_answer<R: Abort>(rt: &R, alloc: Global, row: &Answer) -> Result<(), Fail> {
    let mut station = left(alloc, row)?;
    expect_left(rt, alloc, row, &mut station)?;
    expect_one_run(rt, alloc, station, row.line)
}

fn expect_answers<R: Abort>(rt: &R, alloc: Global, rows: &[Answer]) -> Result<(), Fail> {
    for row in rows {
        expect_answer(rt, alloc, row)?;
    }
    Ok(())
}

#[test]
fn a_run_answers_what_its_station_leaves(rt: HostRuntime) -> Result<(), Fail> {
    expect_answers(&rt, rt.alloc(), ANSWERS)
}

/// The number of bytes that a preprocessor is to give, and what is reported of them.
type Given = (u32, Result<usize, StationFault>);

const LIMITS: &[Given] = &[
    (41_943_040, Ok(41_943_040)),
    (
        41_943_041,
        Err(StationFault::TooMuch {
            stream: Stream::Out,
            bytes: 41_943_041,
        }),
    ),
];

/// A station whose run puts out that many bytes, and writes that many messages.
fn long_station(alloc: Global, out: u32, err: u32) -> Result<MemStation, Fail> {
    let ran = Ran {
        status: 0,
        out: Bytes::from_vec(vec![in alloc; b'x'; out as usize]?),
        err: Bytes::from_vec(vec![in alloc; b'w'; err as usize]?),
        object: Bytes::new(alloc),
    };
    station(alloc, ran, false)
}

/// How many bytes a preprocessor gives at this station.
fn length<S: Station>(alloc: Global, station: &mut S) -> Result<Result<usize, StationFault>, Fail> {
    match run(alloc, Call::Preprocess, "scc -c x.c", station)? {
        Ok(ran) => Ok(Ok(ran.out.len())),
        Err(fault) => Ok(Err(fault)),
    }
}

/// How many bytes a preprocessor gives that has that many.
fn given(alloc: Global, len: u32) -> Result<Result<usize, StationFault>, Fail> {
    let mut station = long_station(alloc, len, 0)?;
    length(alloc, &mut station)
}

fn expect_given<R: Abort>(rt: &R, alloc: Global, rows: &[Given]) -> Result<(), Fail> {
    for (len, wanted) in rows {
        same(rt, &given(alloc, *len)?, wanted, len);
    }
    Ok(())
}

#[test]
fn a_preprocessor_gives_at_most_its_limit(rt: HostRuntime) -> Result<(), Fail> {
    expect_given(&rt, rt.alloc(), LIMITS)
}

/// How a call ends at this station.
fn expect_fault<R: Abort, S: Station>(
    rt: &R,
    alloc: Global,
    call: Call,
    station: &mut S,
    wanted: StationFault,
) -> Result<(), Fail> {
    match run(alloc, call, "scc -c x.c", station)? {
        Err(fault) => {
            same(rt, &fault, &wanted, &call);
            Ok(())
        }
        Ok(_) => Err("the run has a fault".into()),
    }
}

fn expect_failing<R: Abort>(rt: &R, alloc: Global, call: Call) -> Result<(), Fail> {
    let mut failing = station(alloc, Ran::nothing(alloc), true)?;
    expect_fault(rt, alloc, call, &mut failing, StationFault::Failed)
}

const TOO_LOUD: StationFault = StationFault::TooMuch {
    stream: Stream::Err,
    bytes: 1_048_577,
};

fn expect_loud<R: Abort>(rt: &R, alloc: Global, call: Call) -> Result<(), Fail> {
    let mut loud = long_station(alloc, 0, CHILD_ERR_MAX + 1)?;
    expect_fault(rt, alloc, call, &mut loud, TOO_LOUD)
}

fn expect_faults<R: Abort>(rt: &R, alloc: Global, call: Call) -> Result<(), Fail> {
    expect_failing(rt, alloc, call)?;
    expect_loud(rt, alloc, call)
}

#[test]
fn a_run_that_fails_or_is_too_loud_is_told(rt: HostRuntime) -> Result<(), Fail> {
    expect_faults(&rt, rt.alloc(), Call::Preprocess)?;
    expect_faults(&rt, rt.alloc(), Call::Compile)?;
    expect_faults(&rt, rt.alloc(), Call::InPlace)
}
