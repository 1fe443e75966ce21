//! A station beside a shared book.

use crate::desk::{Asked, Desk};
use crate::running::run_beside;
use crate::{SharedBook, Sharing};
use edge_traits::{Bounds, Station, StationFault};
use farm_types::{Ran, Word};
use std::alloc::Global;
use std::marker::Model;
use std::sync::{Mutex, Wait};

/// How many runs of one station the book answered, and how many it didn't. Each stays at the greatest u64.
#[derive(Clone, Copy, Debug, PartialEq, Eq, Drop)]
pub struct Counts {
    pub hits: u64,
    pub misses: u64,
}

/// A station beside a book that other stations use, too. It is made only if the station's programs may leave exactly what the
/// book's type says, and each run keeps that. A run may wait for the book's lock.
#[derive(Drop)]
pub struct SharedStation<'a, S: Station, P: Sharing, R> {
    station: S,
    counts: Counts,
    desk: Desk<'a, P, R>,
}

impl<'a, S: Station, P: Sharing, R> Model for SharedStation<'a, S, P, R> {
    ghost use Rattle.edge_traits.specs.Told.{SameRelation3};
    ghost use Rattle.shared_cache.specs.Shared.{Shared};

    ghost Value = { Shared S };

    ghost view = { λ c. record { station = c.station; counts = c.counts } };

    ghost invariant = { λ c. SameRelation3 (S.ran c.station) P.ran };
}

impl<'a, S: Station, P: Sharing, R> SharedStation<'a, S, P, R> {
    ghost use Rattle.std.specs.Prelude.{◌≡◌};
    ghost use Rattle.edge_traits.specs.Told.{SameRelation3};
    ghost use Rattle.shared_cache.specs.Shared.{no_counts};

    /// A station beside a book of this bound, for whose lock it waits by this handle. It takes no memory.
    pub fn new(
        rt: &'a R,
        book: &'a Mutex<SharedBook<P>>,
        bound: u64,
        station: S,
    ) -> SharedStation<'a, S, P, R>
        requires bound { bound ≡ P.bound }
        requires same { SameRelation3 (S.ran station) P.ran }
        ensures { result ≡ record { station = station; counts = no_counts } }
    {
        SharedStation {
            station,
            counts: Counts { hits: 0, misses: 0 },
            desk: Desk::new(rt, book, bound),
        }
    }

    /// The station, and its counts.
    pub fn apart(self) -> (S, Counts)
        ensures station { result.0 ≡ self.entry.station }
        ensures counts { result.1 ≡ self.entry.counts }
    {
        (self.station, self.counts)
    }
}

impl<'a, S: Station, P: Sharing, R: Wait> Station for SharedStation<'a, S, P, R> {
    ghost use Rattle.std.specs.Prelude.{◌≡◌, ◌≤◌, [], false, IfOk, IfErr, OnOk};
    ghost use Rattle.edge_traits.specs.Told.{Grew, SameRelation3};
    ghost use Rattle.edge_traits.specs.Stations.{IsWithin, has_output, run_entries, StationStill, RunFault};
    ghost use Rattle.object_cache.specs.Stations.{cached_shows};
    ghost use Rattle.shared_cache.specs.Shared.{SharedRun};

    ghost shows = { λ c. cached_shows (S.shows c.station) };

    ghost ran = { λ c. S.ran c.station };

    ghost goes = { λ c words input bounds result new. SharedRun S.shows S.ran S.goes words input bounds c new result };

    fn run(
        &mut self,
        alloc: Global,
        words: &[Word],
        input: &[u8],
        bounds: &Bounds,
    ) -> Result<Ran, StationFault>
        ensures step { SharedRun S.shows S.ran S.goes words.now input.now bounds.now self.old self.new result }

        // What each station ensures.
        ensures within { IfOk result (IsWithin bounds.now) }
        ensures ran { IfOk result (S.ran self.new.station words.now input.now) }
        ensures no_object { IfOk result (λ ran. has_output words.now ≡ false → ran.object ≡ []) }
        ensures same { SameRelation3 (S.ran self.old.station) (S.ran self.new.station) }
        ensures runs { Grew (cached_shows (S.shows self.old.station)).runs (cached_shows (S.shows self.new.station)).runs (run_entries words.now input.now result) }
        ensures faults { (S.shows self.old.station).faults ≤ (S.shows self.new.station).faults }
        ensures overruns { (S.shows self.old.station).overruns ≤ (S.shows self.new.station).overruns }
        ensures done { OnOk result (StationStill (cached_shows (S.shows self.old.station)) (cached_shows (S.shows self.new.station))) }
        ensures cause { IfErr result (RunFault bounds.now (cached_shows (S.shows self.old.station)) (cached_shows (S.shows self.new.station))) }
    {
        let asked = Asked {
            words,
            input,
            bounds,
        };
        run_beside(
            &self.desk,
            alloc,
            &mut self.station,
            &mut self.counts,
            &asked,
        )
    }
}
