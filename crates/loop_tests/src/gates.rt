//! Two workers, whose devices show that they run side by side if they may, and never if they may not.

ghost use Rattle.std.specs.Prelude.{◌≡◌, length, All, IfOk};
ghost use Rattle.edge_traits.specs.Keepers.{IsIdle};
ghost use Rattle.edge_memory.specs.Keepers.{keeper_state, keeper_shows};

use crate::same::same_output;
use edge_gates::{GateDialer, GateStation};
use edge_memory::{LinkScripts, MemClock, MemDialer, MemKeeper, MemStation, RanList};
use edge_traits::{CallNumbers, Dialer, Kit, Station};
use farm_calls::{Asked, Seen, asked_for, empty_keeper, standing_clock, told};
use farm_types::Bytes;
use std::alloc::{AllocError, Global};
use std::process::Abort;
use std::sync::Wait;
use std::test::Fail;
use std::thread::Threads;

const TWO_COMPILES: &[u8] = b"scc -c a.c -o a.o\nscc -c b.c -o b.o\n";

// Hosts, the jobs of two workers, and what is printed.
struct Row {
    hosts: &'static str,
    jobs: &'static [u8],
    out: &'static str,
}

// A kit of this dialer and station.
fn kit<D: Drop, S: Drop>(alloc: Global, dialer: D, station: S) -> Kit<D, S, MemKeeper, MemClock>
    ensures { IsIdle (keeper_shows (keeper_state result.keeper)) }
{
    Kit {
        dialer,
        station,
        keeper: empty_keeper(alloc),
        clock: standing_clock(alloc),
    }
}

// Two kits, each with one of these two dialers and stations.
fn two_kits<D: Drop, S: Drop>(
    alloc: Global,
    dialers: (D, D),
    stations: (S, S),
) -> Result<Vec<Kit<D, S, MemKeeper, MemClock>>, AllocError>
    ensures two { IfOk result (λ kits. length kits.items ≡ 2) }
    ensures idle { IfOk result (λ kits. All (λ kit. IsIdle (keeper_shows (keeper_state kit.keeper))) kits.items) }
{
    let mut kits = Vec::new(alloc);
    kits.push(kit(alloc, dialers.0, stations.0))?;
    kits.push(kit(alloc, dialers.1, stations.1))?;
    Ok(kits)
}

// The jobs of a row, by two workers.
fn asked(alloc: Global, row: &Row) -> Result<Asked, AllocError> {
    let text = Bytes::from_slice(alloc, row.jobs)?;
    let words = ["build", "--workers", "2", "--hosts", row.hosts];
    asked_for(alloc, &words, text)
}

// What two workers print of the jobs of a row, over these dialers and stations.
fn printed<W: Threads + Wait + Sync, D: Dialer + Send + Drop, S: Station + Send + Drop>(
    rt: &W,
    alloc: Global,
    row: &Row,
    dialers: (D, D),
    stations: (S, S),
) -> Result<Seen, AllocError>
where
    D::Link: Send,
{
    let mut kits = two_kits(alloc, dialers, stations)?;
    let asked = asked(alloc, row)?;
    Ok(told(rt, alloc, asked, &mut kits))
}

fn expect<R: Abort + Threads + Wait + Sync, D: Dialer + Send + Drop, S: Station + Send + Drop>(
    rt: &R,
    alloc: Global,
    row: &Row,
    dialers: (D, D),
    stations: (S, S),
) -> Result<(), Fail>
where
    D::Link: Send,
{
    let seen = printed(rt, alloc, row, dialers, stations)?;
    same_output(rt, &seen, 0, row.out.as_bytes(), &row.hosts);
    Ok(())
}

fn quiet_station(alloc: Global) -> MemStation {
    MemStation::new(RanList::new(alloc), CallNumbers::new(alloc))
}

fn idle_dialer(alloc: Global) -> MemDialer {
    MemDialer::new(LinkScripts::new(alloc), CallNumbers::new(alloc))
}

// Over dialers of which the first one's exchange is held until the second one's request is whole.
fn expect_exchanges<R: Abort + Threads + Wait + Sync>(
    rt: &R,
    alloc: Global,
    row: &Row,
) -> Result<(), Fail> {
    let dialers = GateDialer::pair(rt, alloc)?;
    let stations = (quiet_station(alloc), quiet_station(alloc));
    expect(rt, alloc, row, dialers, stations)
}

const LIMIT_2: Row = Row {
    hosts: "H:3632/2",
    jobs: TWO_COMPILES,
    out: "1 remote H:3632 stat 00000000\n2 remote H:3632 stat 00000000\ntotal 2 ok 2\n",
};

// The first exchange is held until the second request is whole: two requests are out at once.
#[test]
fn two_exchanges_at_a_host_of_limit_2(rt: HostRuntime) -> Result<(), Fail> {
    expect_exchanges(&rt, rt.alloc(), &LIMIT_2)
}

const LIMIT_1: Row = Row {
    hosts: "H:3632/1",
    jobs: TWO_COMPILES,
    out: "1 here stat 00000000\n2 here stat 00000000\ntotal 2 ok 2\n",
};

// The same at a host of limit 1: no second request can be whole while the first slot is out, so the first exchange
// fails, the host is in back-off, and both jobs are compiled here.
#[test]
fn one_exchange_at_a_host_of_limit_1(rt: HostRuntime) -> Result<(), Fail> {
    expect_exchanges(&rt, rt.alloc(), &LIMIT_1)
}

const LOCAL: Row = Row {
    hosts: "--localslots=1",
    jobs: b"scc -E a.c\nscc -E b.c\n",
    out: "1 local stat 00000000\n2 local stat 00000000\ntotal 2 ok 2\n",
};

// Over stations of which no run may be called while one of the other's hasn't ended.
fn expect_runs<R: Abort + Threads + Wait + Sync>(
    rt: &R,
    alloc: Global,
    row: &Row,
) -> Result<(), Fail> {
    let stations = GateStation::solo(rt, alloc)?;
    let dialers = (idle_dialer(alloc), idle_dialer(alloc));
    expect(rt, alloc, row, dialers, stations)
}

// Two jobs that stay here, and one local slot: no run may be called while the other hasn't ended.
#[test]
fn one_run_at_one_local_slot(rt: HostRuntime) -> Result<(), Fail> {
    expect_runs(&rt, rt.alloc(), &LOCAL)
}
