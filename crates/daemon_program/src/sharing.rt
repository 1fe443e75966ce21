//! Doors whose stations share one book.

ghost use Rattle.std.specs.Prelude.{◌≡◌, ◌+◌, ◌<◌, ◌≤◌, ◌^◌, ◌++◌, [], All, length, map, reverse, take, drop, IfOk, IfErr, vec_len, vec_capacity};
ghost use Rattle.farm_types.specs.Limits.{workers_max, connections_max};
ghost use Rattle.edge_traits.specs.Told.{SameRelation3};
ghost use Rattle.object_cache.specs.Stations.{cached_shows};
ghost use Rattle.access_list.specs.Rules.{AreRight};
ghost use Rattle.daemon_worker.specs.Logs.{DoorsServed};
ghost use Rattle.shared_cache.specs.Shared.{no_counts};
ghost use Rattle.daemon_program.specs.Sharing.{DoorsShared, bare_kit, counts_of};

use daemon_worker::{DaemonConfig, DaemonLog, DoorKit, serve_first};
use edge_traits::{Door, Station};
use shared_cache::{Counts, SharedBook, SharedStation, SharedStats, Sharing};
use std::alloc::{AllocError, Global};
use std::collections::hash_map::RandomState;
use std::random::RandomSource;
use std::sync::{Mutex, Wait};
use std::thread::Threads;

/// The log, the counts of each door, and what the book has.
#[derive(Drop)]
pub(crate) struct Shared {
    pub(crate) log: DaemonLog,
    pub(crate) counts: Vec<Counts>,
    pub(crate) stats: SharedStats,
}

// Moves the first kits, each with its station beside the book, into room that there is. The other kits stay, the last one first.
fn share_in<'a, A: Drop, S: Station + Drop, P: Sharing, R>(
    rt: &'a R,
    book: &'a Mutex<SharedBook<P>>,
    bound: u64,
    doors: &mut Vec<DoorKit<A, S>>,
    shared: &mut Vec<DoorKit<A, SharedStation<'a, S, P, R>>>,
    count: usize,
)
    requires bound { bound ≡ P.bound }
    requires there { count ≤ length doors.old.items }
    requires alike { All (λ kit. SameRelation3 (S.ran kit.station) P.ran) doors.old.items }
    requires empty { shared.old.items ≡ [] }
    requires space { vec_len shared.old + count ≤ vec_capacity shared.old }
    ensures kits { map bare_kit shared.new.items ++ reverse doors.new.items ≡ doors.old.items }
    ensures counts { All (λ kit. counts_of kit ≡ no_counts) shared.new.items }
    ensures count { length shared.new.items ≡ count }
    ensures room { vec_len doors.new + vec_len shared.new ≤ vec_capacity doors.new }
{
    doors.reverse();
    'moving: for _ in 0..count {
        let Some(kit) = doors.pop() else {
            unreachable!()
        };
        let DoorKit { door, station } = kit;
        let station = SharedStation::new(rt, book, bound, station);
        shared.push_reserved(DoorKit { door, station });
    }
}

// Moves the kits back before the kits that stayed, without the book, and adds their counts to a list.
fn share_out<'a, A: Drop, S: Station + Drop, P: Sharing, R>(
    mut shared: Vec<DoorKit<A, SharedStation<'a, S, P, R>>>,
    doors: &mut Vec<DoorKit<A, S>>,
    counts: &mut Vec<Counts>,
)
    requires room { vec_len doors.old + vec_len shared ≤ vec_capacity doors.old }
    requires empty { counts.old.items ≡ [] }
    requires space { vec_len counts.old + vec_len shared ≤ vec_capacity counts.old }
    ensures kits { doors.new.items ≡ map bare_kit shared.entry.items ++ reverse doors.old.items }
    ensures counts { counts.new.items ≡ map counts_of shared.entry.items }
{
    'moving: while let Some(kit) = shared.pop() {
        let DoorKit { door, station } = kit;
        let (station, counted) = station.apart();
        counts.push_reserved(counted);
        doors.push_reserved(DoorKit { door, station });
    }
    counts.reverse();
    doors.reverse();
}

/// Serves the connections of the first doors, each with its station beside one new book of this bound, and leaves the other doors
/// as they are. The programs of all stations may leave the same. It answers lack of memory, too, if the system gives no random
/// keys for the book's index.
pub(crate) fn serve_beside_shared<
    P: Sharing + Send + Sync,
    R: Threads + Wait + RandomSource + Sync,
    A: Door + Send + Drop,
    S: Station + Send + Drop,
>(
    rt: &R,
    alloc: Global,
    doors: &mut Vec<DoorKit<A, S>>,
    count: usize,
    config: &DaemonConfig,
    bound: u64,
) -> Result<Shared, AllocError>
where
    A::Link: Send,
    requires alike { All (λ kit. SameRelation3 (S.ran kit.station) P.ran) doors.old.items }
    requires bound { (bound ≡ P.bound) × (bound < 2 ^ 63) }
    requires count { (1 ≤ count) × (count ≤ workers_max) × (count ≤ length doors.old.items) }
    requires config { (1 ≤ config.now.serve) × (config.now.serve ≤ connections_max) × AreRight config.now.access.rules }
    ensures served { IfOk result (λ answer. DoorsServed config.now.table.rows config.now.access.rules config.now.serve A.shows (λ s. cached_shows (S.shows s)) S.ran 1
        (take count doors.old.items) (take count doors.new.items) answer.log) }
    ensures counts { IfOk result (λ answer. length answer.counts.items ≡ count) }
    ensures shared { IfOk result (λ answer. DoorsShared S.shows S.ran S.goes config.now.table.rows 1 (take count doors.old.items) (take count doors.new.items) answer.log answer.counts.items) }
    ensures bytes { IfOk result (λ answer. answer.stats.bytes ≤ bound) }
    ensures others { IfOk result (λ _. drop count doors.new.items ≡ drop count doors.old.items) }
    ensures untouched { IfErr result (λ _. doors.new.items ≡ doors.old.items) }
{
    let Ok(keys) = RandomState::new(rt) else {
        return Err(AllocError);
    };
    let mut counts = Vec::with_capacity(alloc, count)?;
    let book: Mutex<SharedBook<P>> = Mutex::new(SharedBook::new(alloc, bound, keys)?);
    let mut shared = Vec::with_capacity(alloc, count)?;
    share_in(rt, &book, bound, doors, &mut shared, count);
    let served = serve_first(rt, alloc, &mut shared, count, config);
    share_out(shared, doors, &mut counts);
    let stats = book.into_inner().stats();
    match served {
        Ok(log) => Ok(Shared { log, counts, stats }),
        Err(wanted) => Err(wanted),
    }
}
