//! What `farm graph` prints and answers.

use crate::devices::{FIRST, Script, run};
use crate::same::{same_items, same_output};
use std::alloc::Global;
use std::process::Abort;
use std::sync::Wait;
use std::test::Fail;
use std::thread::Threads;

// What is printed and answered.
#[derive(Clone, Copy)]
struct Told {
    status: u8,
    out: &'static [u8],
    err: &'static [u8],
}

const GRAPH: Script = Script {
    words: &["graph"],
    quiet: true,
    ..FIRST
};

const DIAMOND: &[u8] =
    b"scc -c a.c\nneeds: 1\nscc -c b.c\nneeds: 1\nscc -c c.c\nneeds: 3 2\nscc -c d.c\n";

const ROWS: &[(Script, Told)] = &[
    (
        Script {
            input: b"scc -c a.c -o a.o\nneeds: 1\nscc -c b.c -o b.o\n",
            quiet: false,
            compile_status: 256,
            ..GRAPH
        },
        Told {
            status: 1,
            out: b"1 here stat 00000100\n2 skipped by 1\ntotal 2 ok 0\n",
            err: b"note\n",
        },
    ),
    (
        Script {
            input: b"needs: 2\nscc -c a.c\nneeds: 1\nscc -c b.c\n",
            ..GRAPH
        },
        Told {
            status: 109,
            out: b"",
            err: b"farm: needs: cycle 1 2\n",
        },
    ),
    (
        Script {
            input: b"needs: 1\nscc -c a.c\n",
            ..GRAPH
        },
        Told {
            status: 109,
            out: b"",
            err: b"farm: needs: cycle 1\n",
        },
    ),
    (
        Script {
            input: b"needs: 3\nscc -c a.c\nscc -c b.c\n",
            ..GRAPH
        },
        Told {
            status: 109,
            out: b"",
            err: b"farm: needs: fault 1 at line 1\n",
        },
    ),
    (
        Script {
            input: b"scc -c a.c\nneeds: 1\n",
            ..GRAPH
        },
        Told {
            status: 109,
            out: b"",
            err: b"farm: needs: fault 2 at line 2\n",
        },
    ),
    (
        Script {
            input: b"needs: 9\nscc -c a.c\nscc '\n",
            ..GRAPH
        },
        Told {
            status: 109,
            out: b"",
            err: b"farm: job list: fault 1 at line 3\n",
        },
    ),
    // The third run is the second job's first.
    (
        Script {
            input: DIAMOND,
            run_fails: 3,
            ..GRAPH
        },
        Told {
            status: 107,
            out: b"1 here stat 00000000\n2 failed child\n3 here stat 00000000\n4 skipped by 2\ntotal 4 ok 2\n",
            err: b"",
        },
    ),
    // A level without a run.
    (
        Script {
            input: b"needs: 2\nscc -c a.c\nneeds: 3\nscc -c b.c\nscc -c c.c\n",
            run_fails: 1,
            ..GRAPH
        },
        Told {
            status: 117,
            out: b"1 skipped by 2\n2 skipped by 3\n3 failed child\ntotal 3 ok 0\n",
            err: b"",
        },
    ),
    // A host is asked again in the next level.
    (
        Script {
            words: &["graph", "--hosts", "H"],
            input: b"scc -c a.c\nneeds: 1\nscc -c b.c\n",
            dial_fails: 1,
            ..GRAPH
        },
        Told {
            status: 0,
            out: b"1 here stat 00000000\n2 remote H:3632 stat 00000000\ntotal 2 ok 2\n",
            err: b"",
        },
    ),
    (
        Script {
            words: &["build"],
            input: b"needs: 1\n",
            ..GRAPH
        },
        Told {
            status: 0,
            out: b"1 local stat 00000000\ntotal 1 ok 1\n",
            err: b"",
        },
    ),
];

fn check_row<R: Abort + Threads + Wait + Sync>(
    rt: &R,
    alloc: Global,
    script: &Script,
    told: &Told,
) -> Result<(), Fail> {
    let seen = run(rt, alloc, script)?;
    same_output(rt, &seen, told.status, told.out, &script.input);
    same_items(rt, seen.err.as_slice(), told.err, &script.input);
    Ok(())
}

fn check_rows<R: Abort + Threads + Wait + Sync>(
    rt: &R,
    alloc: Global,
    rows: &[(Script, Told)],
) -> Result<(), Fail> {
    for (script, told) in rows {
        check_row(rt, alloc, script, told)?;
    }
    Ok(())
}

#[test]
fn graphs_end_by_their_needs(rt: HostRuntime) -> Result<(), Fail> {
    check_rows(&rt, rt.alloc(), ROWS)
}

const WHOLE: Told = Told {
    status: 0,
    out: b"1 here stat 00000000\n2 here stat 00000000\n3 here stat 00000000\n4 here stat 00000000\ntotal 4 ok 4\n",
    err: b"",
};

const ONE_WORKER: Script = Script {
    words: &["graph", "--workers", "16"],
    input: DIAMOND,
    kits: 1,
    ..GRAPH
};

const BY_WORKERS: &[(Script, Told)] = &[
    (ONE_WORKER, WHOLE),
    (
        Script {
            kits: 16,
            ..ONE_WORKER
        },
        WHOLE,
    ),
];

#[test]
fn a_graph_ends_alike_by_any_workers(rt: HostRuntime) -> Result<(), Fail> {
    check_rows(&rt, rt.alloc(), BY_WORKERS)
}
