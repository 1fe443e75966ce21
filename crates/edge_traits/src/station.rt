ghost use Rattle.std.specs.Prelude.{◌≡◌, ℕ, ◌≤◌, List, [], false, Result, IfOk, IfErr, OnOk};
ghost use Rattle.farm_types.specs.declared.ran.Ran.{Ran};
ghost use Rattle.farm_types.specs.declared.placed.Word.{Word};
ghost use Rattle.edge_traits.specs.declared.faults.Bounds.{Bounds as RunBounds};
ghost use Rattle.edge_traits.specs.declared.faults.StationFault.{StationFault as RunStop};
ghost use Rattle.edge_traits.specs.Told.{Grew, SameRelation3};
ghost use Rattle.edge_traits.specs.Stations.{StationView, IsWithin, has_output, run_entries, StationStill, RunFault};

use crate::{Bounds, StationFault};
use farm_types::{Ran, Word};
use std::alloc::Global;

/// Runs programs.
pub trait Station {
    /// What it shows of its past.
    ghost shows: { Self → StationView };

    /// A program run by these words on this input may leave this.
    ghost ran: { Self → List Word → List ℕ → Ran → Type 0 };

    /// A run of these words on this input within these bounds, which ended so, may do this to the station. A station that defines nothing
    /// here allows anything.
    ghost goes: { Self → List Word → List ℕ → RunBounds → Result Ran RunStop → Self → Type 0 } = { λ _ _ _ _ _ _. Unit {0} };

    /// Runs the program that the first word names. The object is empty if no word is its placeholder.
    fn run(
        &mut self,
        alloc: Global,
        words: &[Word],
        input: &[u8],
        bounds: &Bounds,
    ) -> Result<Ran, StationFault>
        ensures within { IfOk result (IsWithin bounds.now) }
        ensures ran { IfOk result (ran self.new words.now input.now) }
        ensures no_object { IfOk result (λ ran. has_output words.now ≡ false → ran.object ≡ []) }
        ensures same { SameRelation3 (ran self.old) (ran self.new) }
        ensures runs { Grew (shows self.old).runs (shows self.new).runs (run_entries words.now input.now result) }
        ensures faults { (shows self.old).faults ≤ (shows self.new).faults }
        ensures overruns { (shows self.old).overruns ≤ (shows self.new).overruns }
        ensures done { OnOk result (StationStill (shows self.old) (shows self.new)) }
        ensures cause { IfErr result (RunFault bounds.now (shows self.old) (shows self.new)) }
        ensures goes { goes self.old words.now input.now bounds.now result self.new };
}

/// Whether one of the words is the placeholder of the object. It takes no memory.
pub fn has_output(words: &[Word]) -> bool
    ensures { result ≡ has_output words.now }
{
    for word in words {
        if matches!(word, Word::Output) {
            return true;
        }
    }
    false
}
