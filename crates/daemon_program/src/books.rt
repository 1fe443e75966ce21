//! Doors whose stations have books.

ghost use Rattle.std.specs.Prelude.{◌≡◌, ◌+◌, ◌≤◌, ◌++◌, [], All, length, map, reverse, take, drop, IfOk, IfErr, vec_len, vec_capacity};
ghost use Rattle.farm_types.specs.Limits.{workers_max, connections_max};
ghost use Rattle.object_cache.specs.Stations.{cached_shows};
ghost use Rattle.object_cache.specs.Books.{new_book};
ghost use Rattle.object_cache.specs.Entries.{sizes};
ghost use Rattle.access_list.specs.Rules.{AreRight};
ghost use Rattle.daemon_worker.specs.Logs.{DoorsServed};
ghost use Rattle.daemon_program.specs.Counts.{BooksKept};
ghost use Rattle.daemon_program.specs.Books.{plain_kit, book_of, stats_of};

use daemon_worker::{DaemonConfig, DaemonLog, DoorKit, serve_first};
use edge_traits::{Door, Station};
use object_cache::{Book, CachedStation, Stats};
use std::alloc::{AllocError, Global};
use std::thread::Threads;

// Moves the first kits, each with its station beside a new book, into room that there is. The other kits stay, the last one first.
fn move_in<A: Drop, S: Station + Drop>(
    alloc: Global,
    bound: u64,
    doors: &mut Vec<DoorKit<A, S>>,
    cached: &mut Vec<DoorKit<A, CachedStation<S>>>,
    count: usize,
)
    requires there { count ≤ length doors.old.items }
    requires empty { cached.old.items ≡ [] }
    requires space { vec_len cached.old + count ≤ vec_capacity cached.old }
    ensures kits { map plain_kit cached.new.items ++ reverse doors.new.items ≡ doors.old.items }
    ensures books { All (λ kit. book_of kit ≡ new_book bound) cached.new.items }
    ensures count { length cached.new.items ≡ count }
    ensures room { vec_len doors.new + vec_len cached.new ≤ vec_capacity doors.new }
{
    doors.reverse();
    'moving: for _ in 0..count {
        let Some(kit) = doors.pop() else {
            unreachable!()
        };
        let DoorKit { door, station } = kit;
        let book = Book::new(alloc, bound);
        let station = CachedStation { station, book };
        cached.push_reserved(DoorKit { door, station });
    }
}

// Moves the kits back before the kits that stayed, without their books, and adds the counts of these to a list.
fn move_out<A: Drop, S: Station + Drop>(
    mut cached: Vec<DoorKit<A, CachedStation<S>>>,
    doors: &mut Vec<DoorKit<A, S>>,
    stats: &mut Vec<Stats>,
)
    requires room { vec_len doors.old + vec_len cached ≤ vec_capacity doors.old }
    requires empty { stats.old.items ≡ [] }
    requires space { vec_len stats.old + vec_len cached ≤ vec_capacity stats.old }
    ensures kits { doors.new.items ≡ map plain_kit cached.items ++ reverse doors.old.items }
    ensures stats { stats.new.items ≡ map (λ kit. stats_of (book_of kit)) cached.items }
    ensures within { All (λ kit. sizes (book_of kit).entries ≤ (book_of kit).bound) cached.items }
{
    'moving: while let Some(kit) = cached.pop() {
        let DoorKit { door, station } = kit;
        let CachedStation { station, book } = station;
        stats.push_reserved(book.stats());
        doors.push_reserved(DoorKit { door, station });
    }
    stats.reverse();
    doors.reverse();
}

/// Serves the connections of the first doors, each with its station beside a new book of this bound, and leaves the other doors
/// as they are. It answers the log, and the counts of the books.
pub(crate) fn serve_beside_books<
    R: Threads + Sync,
    A: Door + Send + Drop,
    S: Station + Send + Drop,
>(
    rt: &R,
    alloc: Global,
    doors: &mut Vec<DoorKit<A, S>>,
    count: usize,
    config: &DaemonConfig,
    bound: u64,
) -> Result<(DaemonLog, Vec<Stats>), AllocError>
where
    A::Link: Send,
    requires some { 1 ≤ count }
    requires few { count ≤ workers_max }
    requires there { count ≤ length doors.old.items }
    requires serve { (1 ≤ config.now.serve) × (config.now.serve ≤ connections_max) }
    requires right { AreRight config.now.access.rules }
    ensures served { IfOk result (λ answer. DoorsServed config.now.table.rows config.now.access.rules config.now.serve A.shows (λ s. cached_shows (S.shows s)) S.ran 1
        (take count doors.old.items) (take count doors.new.items) answer.0) }
    ensures books { IfOk result (λ answer. length answer.1.items ≡ count) }
    ensures kept { IfOk result (λ answer. BooksKept S.shows S.goes config.now.table.rows bound (take count doors.old.items) (take count doors.new.items) answer.0 answer.1.items) }
    ensures others { IfOk result (λ _. drop count doors.new.items ≡ drop count doors.old.items) }
    ensures untouched { IfErr result (λ _. doors.new.items ≡ doors.old.items) }
{
    let mut stats = Vec::with_capacity(alloc, count)?;
    let mut cached = Vec::with_capacity(alloc, count)?;
    move_in(alloc, bound, doors, &mut cached, count);
    let served = serve_first(rt, alloc, &mut cached, count, config);
    move_out(cached, doors, &mut stats);
    match served {
        Ok(log) => Ok((log, stats)),
        Err(wanted) => Err(wanted),
    }
}
