use crate::asked::Asked;
use crate::gate::Gate;
use crate::mark::Mark;
use edge_traits::{Bounds, Station, StationFault, raised};
use farm_types::{Ran, Word};
use std::alloc::{AllocError, Global};
use std::sync::Wait;

// What a station's run does with what it shares with the other station.
#[derive(Drop)]
enum Part<'a, R> {
    // It waits for a run of the other one.
    Waits(Gate<'a, R>),
    // The other one waits for it.
    IsAwaited(Gate<'a, R>),
    // It has to run by itself.
    Alone(Mark<'a, R>),
}

/// A station whose runs show whether those of another station ran at the same time. No program is run: each run that
/// doesn't fail leaves status 0 and nothing else.
#[derive(Drop)]
pub struct GateStation<'a, R> {
    part: Part<'a, R>,
    faults: u64,
}

impl<'a, R: Wait> GateStation<'a, R> {
    ghost use Rattle.std.specs.Prelude.{◌≡◌, IfOk};
    ghost use Rattle.edge_gates.specs.GateRule.{newcomer};
    ghost use Rattle.edge_gates.specs.MarkRule.{outsider};
    ghost use Rattle.edge_gates.specs.Gates.{Waiting, Awaited, Alone, gate_station_view, part_of, unused_station, shared_of, asked_of, tried_of};

    /// Two stations. The first waits in its run until a run of the second was called. It lets other threads
    /// run, 1,000,000 times at most, and then fails. A run of the second doesn't fail.
    pub fn pair(
        rt: &'a R,
        alloc: Global,
    ) -> Result<(GateStation<'a, R>, GateStation<'a, R>), AllocError>
        ensures first { IfOk result (λ made. gate_station_view made.0 ≡ unused_station) }
        ensures second { IfOk result (λ made. gate_station_view made.1 ≡ unused_station) }
        ensures parts { IfOk result (λ made. (part_of made.0 ≡ Waiting) × (part_of made.1 ≡ Awaited)) }
        ensures one { IfOk result (λ made. shared_of made.0 ≡ shared_of made.1) }
        ensures unasked { IfOk result (λ made. (asked_of made.0 ≡ newcomer) × (asked_of made.1 ≡ newcomer)) }
    {
        let (first, second) = Gate::pair(rt, alloc)?;
        Ok((
            GateStation::with_part(Part::Waits(first)),
            GateStation::with_part(Part::IsAwaited(second)),
        ))
    }

    /// Two stations whose runs must not overlap: one that is called while another hasn't ended fails. Each other run
    /// lets other threads run 100,000 times.
    pub fn solo(
        rt: &'a R,
        alloc: Global,
    ) -> Result<(GateStation<'a, R>, GateStation<'a, R>), AllocError>
        ensures first { IfOk result (λ made. gate_station_view made.0 ≡ unused_station) }
        ensures second { IfOk result (λ made. gate_station_view made.1 ≡ unused_station) }
        ensures parts { IfOk result (λ made. (part_of made.0 ≡ Alone) × (part_of made.1 ≡ Alone)) }
        ensures one { IfOk result (λ made. shared_of made.0 ≡ shared_of made.1) }
        ensures untried { IfOk result (λ made. (tried_of made.0 ≡ outsider) × (tried_of made.1 ≡ outsider)) }
    {
        let (first, second) = Mark::pair(rt, alloc)?;
        Ok((
            GateStation::with_part(Part::Alone(first)),
            GateStation::with_part(Part::Alone(second)),
        ))
    }

    fn with_part(part: Part<'a, R>) -> GateStation<'a, R>
        ensures { result ≡ record { part = part.entry; faults = 0 } }
    {
        GateStation { part, faults: 0 }
    }
}

impl<'a, R: Wait> Part<'a, R> {
    ghost use Rattle.std.specs.Prelude.{◌≡◌, ◌≢◌, ◌+◌, ◌++◌, [], ◌∷◌, true, false};
    ghost use Rattle.edge_gates.specs.declared.asked.Asked.TheVariants.{Nobody};
    ghost use Rattle.edge_gates.specs.declared.asked.Place.TheVariants.{NotYet};
    ghost use Rattle.edge_gates.specs.GateRule.{held_looks};
    ghost use Rattle.edge_gates.specs.MarkRule.{turn_of};
    ghost use Rattle.edge_gates.specs.Gates.{Waiting, Awaited, Alone, role_of, shared_by, asked_by, tried_by};

    /// Whether the run may go well.
    fn is_let_through(&mut self) -> bool
        ensures role { role_of self.new ≡ role_of self.old }
        ensures one { shared_by self.new ≡ shared_by self.old }
        ensures unasked { role_of self.old ≡ Waiting → (asked_by self.new).place ≡ (asked_by self.old).place }
        ensures held { role_of self.old ≡ Waiting → result ≡ true → (asked_by self.new).seen ≢ Nobody }
        ensures unseen { role_of self.old ≡ Waiting → result ≡ false → (asked_by self.new).seen ≡ Nobody }
        ensures looks { role_of self.old ≡ Waiting → result ≡ false → (asked_by self.new).looks ≡ (asked_by self.old).looks + held_looks }
        ensures asked { role_of self.old ≡ Awaited → (asked_by self.new).place ≢ NotYet }
        ensures awaited { role_of self.old ≡ Awaited → result ≡ true }
        ensures turn { role_of self.old ≡ Alone → (tried_by self.new).turns ≡ (tried_by self.old).turns ++ turn_of result ∷ [] }
    {
        match self {
            Part::Waits(gate) => gate.wait_for(Asked::One),
            Part::IsAwaited(gate) => {
                gate.ask();
                true
            }
            Part::Alone(mark) => mark.run_alone(),
        }
    }
}

#[tactic(auto, using(edge_traits::proofs::Counting::causes))]
impl<'a, R: Wait> Station for GateStation<'a, R> {
    ghost use Rattle.std.specs.Prelude.{◌≡◌, ◌≤◌, [], false, IfOk, IfErr, OnOk};
    ghost use Rattle.edge_traits.specs.Stations.{IsWithin, StationStill, RunFault, has_output, run_entries};
    ghost use Rattle.edge_traits.specs.Told.{Grew, SameRelation3};
    ghost use Rattle.edge_gates.specs.Gates.{gate_station_view, leaves_nothing, GateRan};

    ghost shows = { gate_station_view };

    ghost ran = { λ s. leaves_nothing };

    fn run(
        &mut self,
        alloc: Global,
        words: &[Word],
        input: &[u8],
        bounds: &Bounds,
    ) -> Result<Ran, StationFault>
        ensures gate { GateRan self.old self.new result }

        // What each station ensures.
        ensures ran { IfOk result (leaves_nothing words.now input.now) }
        ensures within { IfOk result (IsWithin bounds.now) }
        ensures no_object { IfOk result (λ ran. has_output words.now ≡ false → ran.object ≡ []) }
        ensures same { SameRelation3 leaves_nothing leaves_nothing }
        ensures runs { Grew (gate_station_view self.old).runs (gate_station_view self.new).runs (run_entries words.now input.now result) }
        ensures faults { (gate_station_view self.old).faults ≤ (gate_station_view self.new).faults }
        ensures overruns { (gate_station_view self.old).overruns ≤ (gate_station_view self.new).overruns }
        ensures done { OnOk result (StationStill (gate_station_view self.old) (gate_station_view self.new)) }
        ensures cause { IfErr result (RunFault bounds.now (gate_station_view self.old) (gate_station_view self.new)) }
    {
        if self.part.is_let_through() {
            Ok(Ran::nothing(alloc))
        } else {
            self.faults = raised(self.faults);
            Err(StationFault::Failed)
        }
    }
}
