//! A station with a book.

ghost use Rattle.std.specs.Prelude.{◌≡◌};

use crate::Book;
use crate::running::run_beside;
use edge_traits::{Bounds, Station, StationFault};
use farm_types::{Ran, Word};
use std::alloc::Global;
use std::marker::Model;

/// A station, and a book of what compiles on it left. It is made only if each entry of the book is of a run that the station's programs may make, as
/// in a new book. Each run keeps that.
#[derive(Drop)]
pub struct CachedStation<S: Station> {
    pub station: S,
    pub book: Book,
}

impl<S: Station> Model for CachedStation<S> {
    ghost use Rattle.object_cache.specs.Stations.{Cached, AllRan};

    ghost Value = { Cached S };

    ghost view = { λ c. record { station = c.station; book = c.book } };

    ghost invariant = { λ c. AllRan (S.ran c.station) c.book.entries };
}

impl<S: Station> Station for CachedStation<S> {
    ghost use Rattle.std.specs.Prelude.{◌≡◌, ◌≤◌, [], false, IfOk, IfErr, OnOk};
    ghost use Rattle.edge_traits.specs.Told.{Grew, SameRelation3};
    ghost use Rattle.edge_traits.specs.Stations.{IsWithin, has_output, run_entries, StationStill, RunFault};
    ghost use Rattle.object_cache.specs.Stations.{cached_shows, CacheRun};

    ghost shows = { λ c. cached_shows (S.shows c.station) };

    ghost ran = { λ c. S.ran c.station };

    ghost goes = { λ c words input bounds result new. CacheRun S.shows S.goes words input bounds c new result };

    fn run(
        &mut self,
        alloc: Global,
        words: &[Word],
        input: &[u8],
        bounds: &Bounds,
    ) -> Result<Ran, StationFault>
        ensures step { CacheRun S.shows S.goes words.now input.now bounds.now self.old self.new result }

        // What each station ensures.
        ensures within { IfOk result (IsWithin bounds.now) }
        ensures ran { IfOk result (S.ran self.new.station words.now input.now) }
        ensures no_object { IfOk result (λ ran. has_output words.now ≡ false → ran.object ≡ []) }
        ensures same { SameRelation3 (S.ran self.old.station) (S.ran self.new.station) }
        ensures runs { Grew (cached_shows (S.shows self.old.station)).runs (cached_shows (S.shows self.new.station)).runs (run_entries words.now input.now result) }
        ensures faults { (S.shows self.old.station).faults ≤ (S.shows self.new.station).faults }
        ensures overruns { (S.shows self.old.station).overruns ≤ (S.shows self.new.station).overruns }
        ensures done { OnOk result (StationStill (cached_shows (S.shows self.old.station)) (cached_shows (S.shows self.new.station))) }
        ensures cause { IfErr result (RunFault bounds.now (cached_shows (S.shows self.old.station)) (cached_shows (S.shows self.new.station))) }
    {
        run_beside(
            alloc,
            &mut self.station,
            &mut self.book,
            words,
            input,
            bounds,
        )
    }
}
