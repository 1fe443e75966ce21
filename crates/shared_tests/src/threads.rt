//! Doors beside one book at one time.

ghost use Rattle.std.specs.Prelude.{◌≡◌, ◌<◌, ◌^◌, ⊤};
ghost use Rattle.edge_traits.specs.Told.{SameRelation3};

use crate::scripts::{NARROW, Narrow, WIDE, Wide, book, compile_words, station};
use edge_traits::{Bounds, Station};
use farm_types::Word;
use shared_cache::{Counts, SharedStation, SharedStats, Sharing};
use std::alloc::Global;
use std::process::Abort;
use std::random::RandomSource;
use std::sync::Wait;
use std::test::Fail;
use std::thread;
use std::thread::Threads;

const OBJECT: &[u8] = b"SCO1\ndef a 1\n";

// How many threads there are, and how often each asks.
const THREADS: usize = 4;

const TIMES: u8 = 100;

// Asks for ten sources ten times each.
fn ask_all<R: Abort, S: Station>(rt: &R, alloc: Global, station: &mut S, words: &[Word]) {
    let bounds = Bounds {
        out: 0,
        err: 0,
        object: 1_000,
    };
    for number in 0..TIMES {
        let source = [b'a' + number % 10];
        let ran = station.run(alloc, words, source.as_slice(), &bounds);
        assert!(rt; ran.is_ok_and(|ran| ran.object.as_slice() == OBJECT));
    }
}

// The counts of all doors together, and those of the book, once each of some threads has asked for the same ten sources.
fn asked_at_once<P: Sharing + Send + Sync, R: Abort + Threads + Wait + RandomSource + Sync>(
    rt: &R,
    alloc: Global,
    bound: u64,
) -> Result<(Counts, SharedStats), Fail>
    requires same { bound ≡ P.bound }
    requires small { bound < 2 ^ 63 }
    requires alike { SameRelation3 (λ words input ran. ⊤) P.ran }
{
    let book = book::<P, R>(rt, alloc, bound)?;
    let mut stations = Vec::with_capacity(alloc, THREADS)?;
    for _ in 0..THREADS {
        let one = station(alloc, usize::from(TIMES), 0, OBJECT)?;
        stations.push(SharedStation::new(rt, &book, bound, one))?;
    }
    let words = compile_words(alloc)?;
    thread::for_each_mut(
        rt,
        stations.as_mut_slice(),
        THREADS,
        &|_, one| {
            ask_all(rt, alloc, one, words.as_slice());
        },
    );
    let mut all = Counts { hits: 0, misses: 0 };
    for one in stations {
        let (_, counts) = one.apart();
        all.hits = all.hits.saturating_add(counts.hits);
        all.misses = all.misses.saturating_add(counts.misses);
    }
    Ok((all, book.into_inner().stats()))
}

// Ten sources are run at least once, and at most once in each thread.
#[test]
fn four_threads_share(rt: HostRuntime) -> Result<(), Fail> {
    let (all, stats) = asked_at_once::<Wide, HostRuntime>(&rt, rt.alloc(), WIDE)?;
    assert_eq!(rt; all.hits.saturating_add(all.misses), 400);
    assert!(rt; 10 <= all.misses && all.misses <= 40);
    assert_eq!(rt;
        stats,
        SharedStats {
            unkept: 0,
            bytes: 210
        }
    );
    Ok(())
}

// Of ten sources two are kept.
#[test]
fn four_threads_drop(rt: HostRuntime) -> Result<(), Fail> {
    let (all, stats) = asked_at_once::<Narrow, HostRuntime>(&rt, rt.alloc(), NARROW)?;
    assert_eq!(rt; all.hits.saturating_add(all.misses), 400);
    assert!(rt; stats.bytes <= NARROW && stats.unkept == 0);
    Ok(())
}
