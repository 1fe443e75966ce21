//! What `farm` prints, answers and puts, job by job.

use crate::devices::{FIRST, Script, run};
use crate::same::{holds, same_items, same_output};
use farm_calls::Seen;
use farm_types::Bytes;
use std::alloc::Global;
use std::process::Abort;
use std::sync::Wait;
use std::test::Fail;
use std::thread::Threads;

// A script, and what is seen of its run.
struct Row {
    script: Script,
    status: u8,
    out: &'static [u8],
    err: &'static [u8],
    object: Option<&'static [u8]>,
}

// Jobs that are run. The object is that of the file `x.o`.
const JOBS: &[Row] = &[
    Row {
        script: FIRST,
        status: 0,
        out: b"1 remote H:3632 stat 00000000\ntotal 1 ok 1\n",
        err: b"note\n",
        object: Some(b"SCO1\ndef a 1\n"),
    },
    Row {
        script: Script {
            input: b"gcc -O2 -c x.c -o x.o\n",
            ..FIRST
        },
        status: 0,
        out: b"1 remote H:3632 stat 00000000\ntotal 1 ok 1\n",
        err: b"note\n",
        object: Some(b"SCO1\ndef a 1\n"),
    },
    Row {
        script: Script {
            input: b"gcc -c -Wall sub/x.c\n",
            ..FIRST
        },
        status: 0,
        out: b"1 remote H:3632 stat 00000000\ntotal 1 ok 1\n",
        err: b"note\n",
        object: Some(b"SCO1\ndef a 1\n"),
    },
    Row {
        script: Script {
            input: b"gcc -c x.c -o y.o\n",
            ..FIRST
        },
        status: 0,
        out: b"1 remote H:3632 stat 00000000\ntotal 1 ok 1\n",
        err: b"note\n",
        object: None,
    },
    Row {
        script: Script {
            dial_fails: 1,
            ..FIRST
        },
        status: 103,
        out: b"1 failed H:3632 dial\ntotal 1 ok 0\n",
        err: b"",
        object: None,
    },
    Row {
        script: Script {
            reply: b"DONE00000001STAT00000100SERR00000004bad\nSOUT00000003okyDOTO00000000",
            ..FIRST
        },
        status: 1,
        out: b"oky1 remote H:3632 stat 00000100\ntotal 1 ok 0\n",
        err: b"note\nbad\n",
        object: None,
    },
    Row {
        script: Script {
            reply: b"DONE00000001STAT00000000SERR00000000SOUT00000000DOTO0000000dSCO1\ndef a 1",
            ..FIRST
        },
        status: 108,
        out: b"1 failed H:3632 cut 72\ntotal 1 ok 0\n",
        err: b"",
        object: None,
    },
    Row {
        script: Script {
            reply: b"DONE00000001STAT00000100SERR00000000SOUT00000000DOTO00000004",
            ..FIRST
        },
        status: 109,
        out: b"1 failed H:3632 reply 6 at 59\ntotal 1 ok 0\n",
        err: b"",
        object: None,
    },
    Row {
        script: Script {
            run_status: 256,
            ..FIRST
        },
        status: 1,
        out: b"1 cpp stat 00000100\ntotal 1 ok 0\n",
        err: b"note\n",
        object: None,
    },
    Row {
        script: Script {
            reply: b"DONE00000001STAT00000000SERR00000000SOUT00000000DOTO00000000",
            ..FIRST
        },
        status: 0,
        out: b"1 remote H:3632 stat 00000000\ntotal 1 ok 1\n",
        err: b"note\n",
        object: Some(b""),
    },
    Row {
        script: Script {
            link_stops: 1,
            ..FIRST
        },
        status: 107,
        out: b"1 failed H:3632 stopped\ntotal 1 ok 0\n",
        err: b"",
        object: None,
    },
    Row {
        script: Script {
            link_fails: 2,
            ..FIRST
        },
        status: 107,
        out: b"1 failed H:3632 recv\ntotal 1 ok 0\n",
        err: b"",
        object: None,
    },
    Row {
        script: Script {
            run_fails: 1,
            ..FIRST
        },
        status: 107,
        out: b"1 failed child\ntotal 1 ok 0\n",
        err: b"",
        object: None,
    },
    Row {
        script: Script {
            put_fails: 1,
            ..FIRST
        },
        status: 107,
        out: b"1 failed put\ntotal 1 ok 0\n",
        err: b"",
        object: None,
    },
    Row {
        script: Script {
            input: b"scc -c x.c\n# y\nscc -c 'y.c'\n\nscc -c z.c",
            put_fails: 6,
            ..FIRST
        },
        status: 107,
        out: b"1 remote H:3632 stat 00000000\n2 failed put\n3 remote H:3632 stat 00000000\ntotal 3 ok 2\n",
        err: b"note\n",
        object: Some(b"SCO1\ndef a 1\n"),
    },
    Row {
        script: Script {
            words: &["build", "--hosts", "a b", "--tries", "2", "--no-fallback"],
            dial_fails: 1,
            ..FIRST
        },
        status: 0,
        out: b"1 remote b:3632 stat 00000000\ntotal 1 ok 1\n",
        err: b"note\n",
        object: Some(b"SCO1\ndef a 1\n"),
    },
    Row {
        script: Script {
            words: &["build", "--no-fallback"],
            ..FIRST
        },
        status: 116,
        out: b"1 failed no host\ntotal 1 ok 0\n",
        err: b"",
        object: None,
    },
    Row {
        script: Script {
            input: b"scc -c x.c y.c\n",
            ..FIRST
        },
        status: 0,
        out: b"int a = 1;\n1 local stat 00000000\ntotal 1 ok 1\n",
        err: b"note\n",
        object: None,
    },
    Row {
        script: Script {
            words: &["cc", "scc", "-c", "x.c"],
            env: &[("DISTCC_HOSTS", "H")],
            ..FIRST
        },
        status: 0,
        out: b"",
        err: b"note\n",
        object: Some(b"SCO1\ndef a 1\n"),
    },
    Row {
        script: Script {
            words: &["cc", "scc", "-c", "x.c"],
            env: &[("DISTCC_HOSTS", "H"), ("DISTCC_FALLBACK", "0")],
            dial_fails: 1,
            ..FIRST
        },
        status: 103,
        out: b"",
        err: b"farm: failed H:3632 dial\n",
        object: None,
    },
    Row {
        script: Script {
            words: &["build", "--hosts", "H", "--no-retry"],
            reply: b"DONE00000001STAT00000100SERR00000004bad\nSOUT00000000DOTO00000000",
            ..FIRST
        },
        status: 1,
        out: b"1 remote H:3632 stat 00000100\ntotal 1 ok 0\n",
        err: b"note\nbad\n",
        object: None,
    },
    Row {
        script: Script {
            words: &["build"],
            compile_status: 9,
            ..FIRST
        },
        status: 104,
        out: b"1 here stat 00000009\ntotal 1 ok 0\n",
        err: b"note\n",
        object: None,
    },
    Row {
        script: Script {
            words: &["cc", "scc", "-c", "a.i", "-o", "x.o"],
            file: Some("a.i"),
            quiet: true,
            ..FIRST
        },
        status: 0,
        out: b"",
        err: b"",
        object: Some(b""),
    },
];

fn is_object(seen: &Option<Bytes>, expected: Option<&[u8]>) -> bool {
    match seen {
        Some(object) => expected == Some(object.as_slice()),
        None => expected.is_none(),
    }
}

fn check_seen<R: Abort>(rt: &R, at: usize, seen: &Seen, row: &Row) {
    let place = ("row", at, seen.status, &seen.out, &seen.err);
    same_output(rt, seen, row.status, row.out, &place);
    same_items(rt, seen.err.as_slice(), row.err, &place);
    holds(rt, is_object(&seen.object, row.object), &place);
}

fn check_rows<R: Abort + Threads + Wait + Sync>(
    rt: &R,
    alloc: Global,
    rows: &[Row],
) -> Result<(), Fail> {
    for (at, row) in rows.iter().enumerate() {
        let seen = run(rt, alloc, &row.script)?;
        check_seen(rt, at, &seen, row);
    }
    Ok(())
}

#[test]
fn jobs_end_as_their_devices_let_them(rt: HostRuntime) -> Result<(), Fail> {
    check_rows(&rt, rt.alloc(), JOBS)
}

// Jobs that stay here by their words.
const STAY: Script = Script {
    words: &["build", "--hosts", "H --localslots=1", "--workers", "16"],
    input: b"scc -c x.c y.c\nscc -march=native -c x.c\nscc -c conftest.c\n",
    quiet: true,
    dial_fails: 1,
    ..FIRST
};

const LOCAL: &[u8] =
    b"1 local stat 00000000\n2 local stat 00000000\n3 local stat 00000000\ntotal 3 ok 3\n";

// Jobs for which there is no host.
const NO_HOST: Script = Script {
    words: &["build", "--workers", "16"],
    input: b"scc -c x.c\nscc -c y.c\nscc -c z.c\n",
    ..STAY
};

const LOCAL_HOST: Script = Script {
    words: &[
        "build",
        "--hosts",
        "localhost/1",
        "--no-fallback",
        "--workers",
        "3",
    ],
    ..NO_HOST
};

const HERE: &[u8] =
    b"1 here stat 00000000\n2 here stat 00000000\n3 here stat 00000000\ntotal 3 ok 3\n";

// Jobs that no host gets, whichever worker has them, and what is printed.
const STAYING: &[(Script, &[u8])] = &[(STAY, LOCAL), (NO_HOST, HERE), (LOCAL_HOST, HERE)];

fn check_staying<R: Abort + Threads + Wait + Sync>(
    rt: &R,
    alloc: Global,
    script: &Script,
    out: &[u8],
) -> Result<(), Fail> {
    let seen = run(rt, alloc, script)?;
    same_output(rt, &seen, 0, out, &(script.words, script.kits));
    Ok(())
}

fn check_all_staying<R: Abort + Threads + Wait + Sync>(
    rt: &R,
    alloc: Global,
    rows: &[(Script, &[u8])],
    kits: usize,
) -> Result<(), Fail> {
    for (script, out) in rows {
        check_staying(rt, alloc, &Script { kits, ..*script }, out)?;
    }
    Ok(())
}

#[test]
fn jobs_stay_here_whoever_has_them(rt: HostRuntime) -> Result<(), Fail> {
    for kits in [1, 2, 4, 16] {
        check_all_staying(&rt, rt.alloc(), STAYING, kits)?;
    }
    Ok(())
}
