//! A station that preprocesses and doesn't compile.

ghost use Rattle.std.specs.Prelude.{◌≡◌};
ghost use Rattle.whole_command.specs.Stations.{compiles_too, inner_of};

use edge_traits::{Bounds, Station, StationFault, has_output};
use farm_types::{Ran, Word};
use std::alloc::Global;

/// A station for a job whose command is run as it is, if no host compiles it. It runs what leaves no object, as a preprocessor does.
///
/// Unless it compiles too, each other run returns out of memory, which a station may always do: the one below isn't asked, and no count rises. So
/// the job ends without a compile here of its preprocessed text, whose messages and object may differ from those of the command.
#[derive(Drop)]
pub struct PreprocessorStation<S> {
    inner: S,
    compiles: bool,
}

impl<S> PreprocessorStation<S> {
    /// A station over this one, which may compile or not.
    pub fn new(inner: S, compiles: bool) -> PreprocessorStation<S>
        ensures inner { inner_of result ≡ inner }
        ensures compiles { compiles_too result ≡ compiles }
    {
        PreprocessorStation { inner, compiles }
    }
}

impl<S: Station> Station for PreprocessorStation<S> {
    ghost use Rattle.std.specs.Prelude.{◌≡◌, true, false, IfOk, IfErr, OnOk};
    ghost use Rattle.edge_traits.specs.Told.{Grew, SameRelation3};
    ghost use Rattle.edge_traits.specs.Stations.{has_output, run_entries, StationStill, RunFault};
    ghost use Rattle.whole_command.specs.Stations.{compiles_too, inner_of, Refuses, MayLeave, NoneFell};

    ghost shows = { λ s. S.shows (inner_of s) };

    ghost ran = { λ s. S.ran (inner_of s) };

    fn run(
        &mut self,
        alloc: Global,
        words: &[Word],
        input: &[u8],
        bounds: &Bounds,
    ) -> Result<Ran, StationFault>
        ensures refused { compiles_too self.old ≡ false → has_output words.now ≡ true → Refuses self.old self.new result }
        ensures kept { compiles_too self.new ≡ compiles_too self.old }

        // What each station ensures.
        ensures leaves { IfOk result (MayLeave bounds.now (S.ran (inner_of self.new)) words.now input.now) }
        ensures same { SameRelation3 (S.ran (inner_of self.old)) (S.ran (inner_of self.new)) }
        ensures runs { Grew (S.shows (inner_of self.old)).runs (S.shows (inner_of self.new)).runs (run_entries words.now input.now result) }
        ensures later { NoneFell (S.shows (inner_of self.old)) (S.shows (inner_of self.new)) }
        ensures done { OnOk result (StationStill (S.shows (inner_of self.old)) (S.shows (inner_of self.new))) }
        ensures cause { IfErr result (RunFault bounds.now (S.shows (inner_of self.old)) (S.shows (inner_of self.new))) }
    {
        if has_output(words) && !self.compiles {
            return Err(StationFault::Memory);
        }
        self.inner.run(alloc, words, input, bounds)
    }
}
