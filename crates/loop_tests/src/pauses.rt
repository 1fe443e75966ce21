//! A worker that finds its host full pauses before it asks again.

ghost use Rattle.std.specs.Prelude.{◌≡◌, ◌≤◌, [], length, All, IfOk, IfErr, OnOk};
ghost use Rattle.edge_traits.specs.Keepers.{IsIdle};
ghost use Rattle.edge_traits.specs.Told.{untold};
ghost use Rattle.edge_gates.specs.Gates.{leaves_nothing};
ghost use Rattle.edge_memory.specs.Keepers.{keeper_state, keeper_shows};

use crate::same::same;
use edge_gates::GateStation;
use edge_memory::{LinkScripts, MemDialer, MemKeeper};
use edge_traits::{Bounds, CallNumbers, Clock, Kit, Station, StationFault, raised};
use farm_calls::{asked_for, empty_keeper, told};
use farm_types::{Bytes, Ran, Word};
use std::alloc::{AllocError, Global};
use std::process::Abort;
use std::sync::Wait;
use std::test::Fail;
use std::thread::Threads;

// A station whose runs from the second on, which hold a slot, report that they have begun, and wait until the other worker has paused, if
// it has gates for that.
#[derive(Drop)]
struct HeldStation<'a, R> {
    gates: Option<Gates<'a, R>>,
    has_preprocessed: bool,
    faults: u64,
}

// What a worker asks of the other one, and what it waits for.
#[derive(Drop)]
struct Gates<'a, R> {
    begun: GateStation<'a, R>,
    paused: GateStation<'a, R>,
}

impl<'a, R: Wait> Station for HeldStation<'a, R> {
    ghost shows = { λ station. record { runs = untold []; faults = station.faults; overruns = 0 } };

    ghost ran = { λ station. leaves_nothing };

    #[tactic(auto, using(edge_traits::proofs::Counting::causes))]
    fn run(
        &mut self,
        alloc: Global,
        words: &[Word],
        input: &[u8],
        bounds: &Bounds,
    ) -> Result<Ran, StationFault> {
        if !self.has_preprocessed {
            self.has_preprocessed = true;
            return Ok(Ran::nothing(alloc));
        }
        let Some(gates) = &mut self.gates else {
            return Ok(Ran::nothing(alloc));
        };
        let _ = gates.begun.run(alloc, words, input, bounds);
        match gates.paused.run(alloc, words, input, bounds) {
            Ok(ran) => Ok(ran),
            Err(_) => {
                self.faults = raised(self.faults);
                Err(StationFault::Failed)
            }
        }
    }
}

const NOTHING: Bounds = Bounds {
    out: 0,
    err: 0,
    object: 0,
};

// A clock that gives a moment once the other worker's run has begun, and reports each pause, if it has gates for that.
#[derive(Drop)]
struct HeldClock<'a, R> {
    gates: Option<Gates<'a, R>>,
    alloc: Global,
}

impl<'a, R: Wait> Clock for HeldClock<'a, R> {
    ghost shows = { λ clock. record { moments = untold [] } };

    fn now(&mut self) -> u64 {
        if let Some(gates) = &mut self.gates {
            let _ = gates.begun.run(self.alloc, &[], &[], &NOTHING);
        }
        0
    }

    fn pause(&mut self) {
        if let Some(gates) = &mut self.gates {
            let _ = gates.paused.run(self.alloc, &[], &[], &NOTHING);
        }
    }
}

type HeldKit<'a, R> = Kit<MemDialer, HeldStation<'a, R>, MemKeeper, HeldClock<'a, R>>;

fn kit<'a, R>(
    alloc: Global,
    station: Option<Gates<'a, R>>,
    clock: Option<Gates<'a, R>>,
) -> HeldKit<'a, R>
    ensures { IsIdle (keeper_shows (keeper_state result.keeper)) }
{
    Kit {
        dialer: MemDialer::new(LinkScripts::new(alloc), CallNumbers::new(alloc)),
        station: HeldStation {
            gates: station,
            has_preprocessed: false,
            faults: 0,
        },
        keeper: empty_keeper(alloc),
        clock: HeldClock {
            gates: clock,
            alloc,
        },
    }
}

// The first worker's runs wait for a pause of the second, which looks for a slot once such a run has begun.
fn two_kits<'a, R: Wait>(rt: &'a R, alloc: Global) -> Result<Vec<HeldKit<'a, R>>, AllocError>
    ensures two { IfOk result (λ kits. length kits.items ≡ 2) }
    ensures idle { IfOk result (λ kits. All (λ kit. IsIdle (keeper_shows (keeper_state kit.keeper))) kits.items) }
{
    let (sees_begun, begun) = GateStation::pair(rt, alloc)?;
    let (sees_paused, paused) = GateStation::pair(rt, alloc)?;
    let station = Gates {
        begun,
        paused: sees_paused,
    };
    let clock = Gates {
        begun: sees_begun,
        paused,
    };
    let mut kits = Vec::new(alloc);
    kits.push(kit(alloc, Some(station), None))?;
    kits.push(kit(alloc, None, Some(clock)))?;
    Ok(kits)
}

const TWO_COMPILES: &[u8] = b"scc -c a.c -o a.o\nscc -c b.c -o b.o\n";

const WORDS: &[&str] = &["build", "--workers", "2", "--hosts", "localhost/1"];

fn expect_pause<R: Abort + Threads + Wait + Sync>(rt: &R, alloc: Global) -> Result<(), Fail> {
    let mut kits = two_kits(rt, alloc)?;
    let text = Bytes::from_slice(alloc, TWO_COMPILES)?;
    let asked = asked_for(alloc, WORDS, text)?;
    let seen = told(rt, alloc, asked, &mut kits);
    same(rt, &seen.status, &0, &"a run that waits for a pause");
    Ok(())
}

#[test]
fn a_worker_pauses_before_it_asks_a_full_host_again(rt: HostRuntime) -> Result<(), Fail> {
    expect_pause(&rt, rt.alloc())
}
