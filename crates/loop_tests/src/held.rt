//! Watched builds by one worker, which is held in one of its runs until a line has reported how far it is then.

ghost use Rattle.std.specs.Prelude.{◌≡◌, ◌≤◌, [], false, length, All, IfOk, IfErr, OnOk};
ghost use Rattle.edge_traits.specs.Keepers.{IsIdle};
ghost use Rattle.edge_traits.specs.Told.{told, untold};
ghost use Rattle.edge_gates.specs.Gates.{gate_station_view, leaves_nothing};
ghost use Rattle.edge_memory.specs.Keepers.{keeper_state, keeper_shows};

use crate::same::{holds, same};
use edge_gates::GateStation;
use edge_memory::{LinkScripts, MemDialer, MemKeeper};
use edge_traits::{
    Bounds, CallNumbers, Clock, Dialer, EdgeFault, Keeper, Kit, Sink, Station, StationFault,
};
use farm_calls::{Page, asked_for, call, empty_keeper};
use farm_types::{Bytes, Ran, Word};
use std::alloc::{AllocError, Global};
use std::process::Abort;
use std::sync::Wait;
use std::test::Fail;
use std::thread::Threads;
use std::{str, thread};

// A station of which one run, counted from 0, says that it has begun, and waits until the other end of its gate is asked.
#[derive(Drop)]
struct HeldStation<'a, R> {
    begun: GateStation<'a, R>,
    gate: GateStation<'a, R>,
    before: u32,
}

impl<'a, R: Wait> Station for HeldStation<'a, R> {
    ghost shows = { λ station. gate_station_view station.gate };

    ghost ran = { λ station. leaves_nothing };

    #[tactic(auto, using(edge_traits::proofs::Counting::causes))]
    fn run(
        &mut self,
        alloc: Global,
        words: &[Word],
        input: &[u8],
        bounds: &Bounds,
    ) -> Result<Ran, StationFault> {
        if self.before > 0 {
            self.before -= 1;
            return Ok(Ran::nothing(alloc));
        }
        let _ = self.begun.run(alloc, words, input, bounds);
        self.gate.run(alloc, words, input, bounds)
    }
}

// A sink that asks at its end of a gate once a line has this text.
#[derive(Drop)]
struct AskingSink<'a, R> {
    page: Page,
    gate: GateStation<'a, R>,
    tells: &'static str,
    alloc: Global,
}

const NOTHING: Bounds = Bounds {
    out: 0,
    err: 0,
    object: 0,
};

impl<'a, R: Wait> Sink for AskingSink<'a, R> {
    ghost shows = { λ sink. record { written = told sink.page.text; stopped = false; faults = 0 } };

    fn write(&mut self, piece: &[u8]) -> Result<usize, EdgeFault> {
        let done = self.page.write(piece);
        if str::from_utf8(piece).unwrap_or("").contains(self.tells) {
            let _ = self.gate.run(self.alloc, &[], &[], &NOTHING);
        }
        done
    }
}

// A clock whose pauses wait until the held run has begun, that many times at most.
#[derive(Drop)]
struct WaitingClock<'a, R> {
    begun: GateStation<'a, R>,
    alloc: Global,
    waits: u32,
}

impl<'a, R: Wait> Clock for WaitingClock<'a, R> {
    ghost shows = { λ clock. record { moments = untold [] } };

    fn now(&mut self) -> u64 {
        0
    }

    fn pause(&mut self) {
        thread::yield_now();
        if self.waits == 0 {
            return;
        }
        self.waits -= 1;
        if self.begun.run(self.alloc, &[], &[], &NOTHING).is_ok() {
            self.waits = 0;
        }
    }
}

type HeldKit<'a, R> = Kit<MemDialer, HeldStation<'a, R>, MemKeeper, WaitingClock<'a, R>>;

fn kit<'a, R>(
    alloc: Global,
    station: HeldStation<'a, R>,
    clock: WaitingClock<'a, R>,
) -> HeldKit<'a, R>
    ensures { IsIdle (keeper_shows (keeper_state result.keeper)) }
{
    Kit {
        dialer: MemDialer::new(LinkScripts::new(alloc), CallNumbers::new(alloc)),
        station,
        keeper: empty_keeper(alloc),
        clock,
    }
}

fn clock<'a, R>(alloc: Global, begun: GateStation<'a, R>, waits: u32) -> WaitingClock<'a, R> {
    WaitingClock {
        begun,
        alloc,
        waits,
    }
}

// A station whose other end nobody has.
fn alone<'a, R: Wait>(rt: &'a R, alloc: Global) -> Result<GateStation<'a, R>, AllocError> {
    let (first, _) = GateStation::pair(rt, alloc)?;
    Ok(first)
}

fn two_kits<'a, R>(
    alloc: Global,
    held: (HeldStation<'a, R>, WaitingClock<'a, R>),
    idle: (HeldStation<'a, R>, WaitingClock<'a, R>),
) -> Result<Vec<HeldKit<'a, R>>, AllocError>
    ensures two { IfOk result (λ kits. length kits.items ≡ 2) }
    ensures idle { IfOk result (λ kits. All (λ kit. IsIdle (keeper_shows (keeper_state kit.keeper))) kits.items) }
{
    let mut kits = Vec::new(alloc);
    kits.push(kit(alloc, held.0, held.1))?;
    kits.push(kit(alloc, idle.0, idle.1))?;
    Ok(kits)
}

// The kit of a worker of which one run waits for `gate`, and a kit whose clock waits for that run.
fn held_kits<'a, R: Wait>(
    rt: &'a R,
    alloc: Global,
    gate: GateStation<'a, R>,
    row: &Row,
) -> Result<Vec<HeldKit<'a, R>>, AllocError>
    ensures two { IfOk result (λ kits. length kits.items ≡ 2) }
    ensures idle { IfOk result (λ kits. All (λ kit. IsIdle (keeper_shows (keeper_state kit.keeper))) kits.items) }
{
    let (awaits, begun) = GateStation::pair(rt, alloc)?;
    let held = HeldStation {
        begun,
        gate,
        before: row.before,
    };
    let idle = HeldStation {
        begun: alone(rt, alloc)?,
        gate: alone(rt, alloc)?,
        before: 0,
    };
    let unused = clock(alloc, alone(rt, alloc)?, 0);
    two_kits(
        alloc,
        (held, unused),
        (idle, clock(alloc, awaits, row.waits)),
    )
}

// A build of that many jobs whose worker is held before one of its runs, until a line has reported how far it is then.
struct Row {
    jobs: u32,
    /// How many runs come before the held one.
    before: u32,
    /// How many pauses of the watcher may wait for the held run.
    waits: u32,
    /// What a line says while the run is held.
    tells: &'static str,
    /// The last lines of both sinks.
    total: &'static str,
    last: &'static str,
}

const ROWS: &[Row] = &[
    // A row is shown before its job's first run.
    Row {
        jobs: 2,
        before: 0,
        waits: 100,
        tells: "ended 0 of 2 busy 1",
        total: "total 2 ok 2\n",
        last: "watch last ended 2 of 2 busy 0\n",
    },
    // And the next one once its report is there.
    Row {
        jobs: 2,
        before: 1,
        waits: 100,
        tells: "ended 1 of 2 busy 1",
        total: "total 2 ok 2\n",
        last: "watch last ended 2 of 2 busy 0\n",
    },
    // Two rows for each of many jobs are shown and noted.
    Row {
        jobs: 200,
        before: 199,
        waits: 100,
        tells: "ended 199 of 200 busy 1",
        total: "total 200 ok 200\n",
        last: "watch last ended 200 of 200 busy 0\n",
    },
];

// A list of that many jobs.
fn jobs_text(alloc: Global, jobs: u32) -> Result<Bytes, AllocError> {
    let mut text = Bytes::new(alloc);
    for _ in 0..jobs {
        text.try_extend(b"scc -E a.c\n")?;
    }
    Ok(text)
}

const WORDS: &[&str] = &["watch", "--workers", "1", "--lines", "100"];

// The status of a watched build of these jobs.
fn watch<
    W: Threads + Wait + Sync,
    D: Dialer + Send + Drop,
    S: Station + Send + Drop,
    K: Keeper + Send + Drop,
    C: Clock + Send + Drop,
    O: Sink,
    E: Sink + Send,
>(
    rt: &W,
    alloc: Global,
    jobs: u32,
    kits: &mut Vec<Kit<D, S, K, C>>,
    out: &mut O,
    err: &mut E,
) -> Result<u8, AllocError>
where
    D::Link: Send,
    requires two { length kits.old.items ≡ 2 }
    requires idle { All (λ kit. IsIdle (K.shows kit.keeper)) kits.old.items }
    requires out { (O.shows out.old).stopped ≡ false }
    requires err { (E.shows err.old).stopped ≡ false }
{
    let text = jobs_text(alloc, jobs)?;
    let asked = asked_for(alloc, WORDS, text)?;
    Ok(call(rt, alloc, asked, kits, out, err))
}

fn expect_told<R: Abort>(rt: &R, row: &Row, status: u8, out: &Bytes, err: &Bytes) {
    same(rt, &status, &0, &row.tells);
    holds(rt, out.as_slice().ends_with(row.total.as_bytes()), out);
    let lines = str::from_utf8(err.as_slice()).unwrap_or("");
    holds(rt, lines.contains(row.tells), &lines);
    holds(rt, lines.ends_with(row.last), &lines);
}

fn expect_held<R: Abort + Threads + Wait + Sync>(
    rt: &R,
    alloc: Global,
    row: &Row,
) -> Result<(), AllocError> {
    let (held, asked) = GateStation::pair(rt, alloc)?;
    let mut kits = held_kits(rt, alloc, held, row)?;
    let mut out = Page::new(alloc);
    let mut err = AskingSink {
        page: Page::new(alloc),
        gate: asked,
        tells: row.tells,
        alloc,
    };
    let status = watch(rt, alloc, row.jobs, &mut kits, &mut out, &mut err)?;
    expect_told(rt, row, status, &out.text, &err.page.text);
    Ok(())
}

#[test]
fn a_line_tells_how_far_a_worker_is_while_it_works(rt: HostRuntime) -> Result<(), Fail> {
    for row in ROWS {
        expect_held(&rt, rt.alloc(), row)?;
    }
    Ok(())
}
