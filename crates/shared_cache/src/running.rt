//! A run of a station beside a shared book. No program runs under the lock.

ghost use Rattle.std.specs.Prelude.{◌≡◌, true, IsTrue};
ghost use Rattle.object_cache.specs.Keys as keys;
ghost use Rattle.object_cache.specs.Keys.{digest_of};
ghost use Rattle.object_cache.specs.Stations.{IsRun, IsAsked};
ghost use Rattle.edge_traits.specs.Told.{SameRelation3};
ghost use Rattle.shared_cache.specs.Shared.{SharedRun};

use crate::desk::{Asked, Desk};
use crate::{Counts, Sharing};
use edge_traits::{Station, StationFault, raised};
use farm_types::Ran;
use object_cache::{RunDigest, is_cacheable, run_digest};
use std::alloc::Global;
use std::sync::Wait;

// A run that the book doesn't answer: the station is asked once. What ended with status 0 is kept.
fn run_anew<S: Station, P: Sharing, R: Wait>(
    desk: &Desk<'_, P, R>,
    alloc: Global,
    station: &mut S,
    digest: RunDigest,
    asked: &Asked<'_>,
) -> Result<Ran, StationFault>
    requires digest { digest ≡ digest_of asked.now.words.now asked.now.input.now }
    requires one { SameRelation3 (S.ran station.old) P.ran }
    ensures run { IsRun S.shows S.ran asked.now.words.now asked.now.input.now asked.now.bounds.now station.old station.new result }
    ensures asked { IsAsked S.shows S.goes asked.now.words.now asked.now.input.now asked.now.bounds.now station.old station.new result }
{
    match station.run(alloc, asked.words, asked.input, asked.bounds) {
        Ok(ran) => {
            if ran.status == 0 {
                desk.learn(alloc, digest, asked, &ran);
            }
            Ok(ran)
        }
        Err(fault) => Err(fault),
    }
}

// A run that is cacheable.
fn run_by_name<S: Station, P: Sharing, R: Wait>(
    desk: &Desk<'_, P, R>,
    alloc: Global,
    station: &mut S,
    counts: &mut Counts,
    asked: &Asked<'_>,
) -> Result<Ran, StationFault>
    requires cacheable { keys.is_cacheable asked.now.words.now asked.now.input.now ≡ true }
    requires one { SameRelation3 (S.ran station.old) P.ran }
    ensures run { IsRun S.shows S.ran asked.now.words.now asked.now.input.now asked.now.bounds.now station.old station.new result }
    ensures step { SharedRun S.shows S.ran S.goes asked.now.words.now asked.now.input.now asked.now.bounds.now (record { station = station.old; counts = counts.old }) (record { station = station.new; counts = counts.new }) result }
{
    let digest = run_digest(asked.words, asked.input);
    match desk.look(&digest, asked) {
        Some(ran) => {
            counts.hits = raised(counts.hits);
            Ok(ran)
        }
        None => {
            counts.misses = raised(counts.misses);
            run_anew(desk, alloc, station, digest, asked)
        }
    }
}

/// A run on a station beside a shared book.
pub(crate) fn run_beside<S: Station, P: Sharing, R: Wait>(
    desk: &Desk<'_, P, R>,
    alloc: Global,
    station: &mut S,
    counts: &mut Counts,
    asked: &Asked<'_>,
) -> Result<Ran, StationFault>
    requires one { SameRelation3 (S.ran station.old) P.ran }
    ensures run { IsRun S.shows S.ran asked.now.words.now asked.now.input.now asked.now.bounds.now station.old station.new result }
    ensures step { SharedRun S.shows S.ran S.goes asked.now.words.now asked.now.input.now asked.now.bounds.now (record { station = station.old; counts = counts.old }) (record { station = station.new; counts = counts.new }) result }
{
    if is_cacheable(asked.words, asked.input) {
        run_by_name(desk, alloc, station, counts, asked)
    } else {
        station.run(alloc, asked.words, asked.input, asked.bounds)
    }
}
