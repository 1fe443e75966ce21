//! Builds that are watched.

ghost use Rattle.std.specs.Prelude.{◌≡◌, false, length, All, IfOk};
ghost use Rattle.edge_traits.specs.Keepers.{IsIdle};
ghost use Rattle.farm_machine.specs.Usable.{AreDoable, IsUsable};

use crate::devices::{FIRST, Script, kits, run};
use crate::same::{holds, same, same_output};
use edge_traits::{Clock, Dialer, Keeper, Kit, Sink, Station};
use farm_calls::Page;
use farm_types::{Bytes, HostVec, Hosts, JobConfig, Jobs};
use job_driver::{LineEnd, build_watched};
use job_list::parse;
use std::alloc::{AllocError, Global};
use std::process::Abort;
use std::sync::Wait;
use std::test::Fail;
use std::thread::Threads;

const FOUR_JOBS: &[u8] = b"scc -c a.c\nscc -c b.c\nscc -c c.c\nscc -c d.c\n";

#[tactic(auto, using(farm_program::proofs::Building::doable_jobs))]
fn four_jobs(alloc: Global) -> Result<Jobs, AllocError>
    ensures { IfOk result (λ jobs. AreDoable jobs) }
{
    match parse(alloc, FOUR_JOBS) {
        Ok(jobs) => Ok(jobs),
        Err(_) => Err(AllocError),
    }
}

fn here_alone(alloc: Global) -> JobConfig
    ensures { IsUsable result }
{
    JobConfig {
        hosts: Hosts {
            list: HostVec::new(alloc),
            local_slots: 2,
            local_cpp: 8,
            randomize: false,
        },
        fallback: true,
        retry: true,
        period: 60,
        tries: 1,
    }
}

// Watches four jobs by two of these workers, and answers whether the lines were printed whole, and how many reports there are.
fn watch<
    W: Threads + Wait + Sync,
    D: Dialer + Send + Drop,
    S: Station + Send + Drop,
    K: Keeper + Send + Drop,
    C: Clock + Send + Drop,
    E: Sink + Send,
>(
    rt: &W,
    alloc: Global,
    kits: &mut Vec<Kit<D, S, K, C>>,
    err: &mut E,
) -> Result<(bool, usize), AllocError>
where
    D::Link: Send,
    requires three { length kits.old.items ≡ 3 }
    requires idle { All (λ kit. IsIdle (K.shows kit.keeper)) kits.old.items }
    requires err { (E.shows err.old).stopped ≡ false }
{
    let jobs = four_jobs(alloc)?;
    let config = here_alone(alloc);
    let watched = build_watched(rt, alloc, &jobs, &config, kits, 2, 3, err)?;
    let whole = watched.printed == LineEnd::Whole && watched.told;
    Ok((whole, watched.built.reports.as_slice().len()))
}

fn expect_lines<R: Abort>(rt: &R, lines: &Bytes) {
    let text = lines.as_slice();
    holds(rt, text.starts_with(b"watch 1 ended "), lines);
    holds(
        rt,
        text.ends_with(b"\nwatch last ended 4 of 4 busy 0\n"),
        lines,
    );
}

const THREE_KITS: Script = Script { kits: 3, ..FIRST };

fn expect_watched<R: Abort + Threads + Wait + Sync>(rt: &R, alloc: Global) -> Result<(), Fail> {
    let mut kits = kits(alloc, &THREE_KITS)?;
    if kits.len() != 3 {
        return Err("there are three kits".into());
    }
    let mut err = Page::new(alloc);
    let seen = watch(rt, alloc, &mut kits, &mut err)?;
    same(rt, &seen, &(true, 4), &"whole lines, and reports");
    expect_lines(rt, &err.text);
    Ok(())
}

#[test]
fn the_last_line_says_that_all_jobs_have_ended(rt: HostRuntime) -> Result<(), Fail> {
    expect_watched(&rt, rt.alloc())
}

// The words of a watched build of the first run's job.
const WATCH: Script = Script {
    words: &[
        "watch",
        "--hosts",
        "H:3632",
        "--no-fallback",
        "--lines",
        "1",
    ],
    ..FIRST
};

const DONE: &[u8] = b"1 remote H:3632 stat 00000000\ntotal 1 ok 1\n";

// The script, and how the error sink begins and ends.
type WatchRow = (Script, &'static [u8], &'static [u8]);

const WATCHES: &[WatchRow] = &[
    (
        Script {
            kits: 2,
            quiet: true,
            ..WATCH
        },
        b"watch 1 ended ",
        b"\nwatch last ended 1 of 1 busy 0\n",
    ),
    (
        Script { kits: 2, ..WATCH },
        b"watch 1 ended ",
        b"\nwatch last ended 1 of 1 busy 0\nnote\n",
    ),
    (WATCH, b"note\n", b"note\n"),
];

fn expect_messages<R: Abort>(rt: &R, kits: usize, err: &Bytes, row: &WatchRow) {
    let (_, begin, end) = row;
    let text = err.as_slice();
    holds(rt, text.starts_with(begin), err);
    holds(rt, text.ends_with(end), err);
    holds(rt, kits == 2 || text.len() == end.len(), err);
}

fn expect_watches<R: Abort + Threads + Wait + Sync>(
    rt: &R,
    alloc: Global,
    rows: &[WatchRow],
) -> Result<(), Fail> {
    for row in rows {
        let kits = row.0.kits;
        let seen = run(rt, alloc, &row.0)?;
        same_output(rt, &seen, 0, DONE, &("kits", kits));
        expect_messages(rt, kits, &seen.err, row);
    }
    Ok(())
}

#[test]
fn lines_come_before_what_a_build_prints(rt: HostRuntime) -> Result<(), Fail> {
    expect_watches(&rt, rt.alloc(), WATCHES)
}
