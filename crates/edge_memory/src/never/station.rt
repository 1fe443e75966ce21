ghost use Rattle.std.specs.Prelude.{◌≡◌, []};

use crate::RanList;
use crate::station::MemStation;
use edge_traits::{Bounds, CallNumbers, Station, StationFault, none_of};
use farm_types::{Ran, Word};
use std::alloc::Global;

/// A station whose runs are scripted and never fail.
#[derive(Drop)]
pub struct MemNeverStation {
    inner: MemStation,
    ghost never: { inner.calls.fails ≡ [] },
}

impl MemNeverStation {
    ghost use Rattle.std.specs.Prelude.{◌≡◌, []};
    ghost use Rattle.edge_memory.specs.Nevers.{never_station_state};

    /// A station that gives these runs, and then runs of status 0 with nothing in them. It takes no memory.
    pub fn new(rans: RanList, fails: CallNumbers) -> MemNeverStation
        ensures { never_station_state result ≡ record { rans = rans; fails = []; made = 0; overruns = 0; runs = [] } }
    {
        MemNeverStation {
            inner: MemStation::new(rans, none_of(fails)),
        }
    }
}

impl Station for MemNeverStation {
    ghost use Rattle.std.specs.Prelude.{◌≡◌, ⊤, [], false, IfOk, IfErr, IsErrOf};
    ghost use Rattle.edge_traits.specs.declared.faults.StationFault.TheVariants.{Failed};
    ghost use Rattle.edge_traits.specs.Stations.{IsWithin, RunFault, has_output};
    ghost use Rattle.edge_memory.specs.Stations.{IsRunAnswer, after_run};
    ghost use Rattle.edge_memory.specs.Nevers.{never_station_state, never_station_shows};

    ghost shows = { λ s. never_station_shows (never_station_state s) };

    ghost ran = { λ s words input ran. ⊤ };

    #[tactic(auto, using(edge_traits::proofs::Counting::nevers))]
    fn run(
        &mut self,
        alloc: Global,
        words: &[Word],
        input: &[u8],
        bounds: &Bounds,
    ) -> Result<Ran, StationFault>
        ensures answer { IsRunAnswer (never_station_state self.old) words.now bounds.now result }
        ensures never { ¬ (IsErrOf result Failed) }
        ensures state { never_station_state self.new ≡ after_run (never_station_state self.old) words.now input.now result }
        ensures within { IfOk result (IsWithin bounds.now) }
        ensures no_object { IfOk result (λ ran. has_output words.now ≡ false → ran.object ≡ []) }
        ensures cause { IfErr result (RunFault bounds.now (never_station_shows (never_station_state self.old)) (never_station_shows (never_station_state self.new))) }
    {
        self.inner.run(alloc, words, input, bounds)
    }
}
