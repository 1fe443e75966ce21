//! The connections of doors, one after the other at each, and their log.

use crate::same::{holds, same, same_items};
use crate::scripts::{REQUEST, door, runs_of};
use access_list::{AccessList, RuleVec, parse_rule};
use daemon_service::{Compiler, CompilerVec, Compilers, Served};
use daemon_worker::{DaemonConfig, DoorKit, Entry, Met, serve};
use edge_memory::{MemDoor, MemStation, RanList};
use edge_traits::{CallNumbers, Door, Station};
use farm_types::{Bytes, Items, Ran};
use std::alloc::{AllocError, Global};
use std::process::Abort;
use std::test::Fail;
use std::thread::Threads;
use wire_tokens::RequestFault;

const CUT: &[u8] = b"DIST00000001ARGC00000001ARGV00000003sc";

// 10.1.2.3 and 127.0.0.1
const NEAR: u32 = 167_838_211;

const HERE: u32 = 2_130_706_433;

const ANSWERED: Met = Met::Served(Served::Answered(0));

// The first connection of the first door.
const FIRST: Entry = Entry {
    door: 1,
    number: 1,
    what: ANSWERED,
};

// What the links of a door give, their peers, and which accepts fail.
#[derive(Clone, Copy)]
struct Side {
    gives: &'static [&'static [u8]],
    peers: &'static [u32],
    fails: &'static [u64],
}

#[derive(Clone, Copy)]
struct Row {
    doors: &'static [Side],
    serve: u32,
    // Each with whether it lets peers in.
    rules: &'static [(bool, &'static str)],
    log: &'static [Entry],
}

// The first of two peers is let in, the second is denied.
const SECOND_DENIED: Row = Row {
    doors: &[Side {
        gives: &[REQUEST, REQUEST],
        peers: &[NEAR, HERE],
        fails: &[],
    }],
    serve: 2,
    rules: &[(true, "10.0.0.0/8"), (false, "0.0.0.0/0")],
    log: &[
        FIRST,
        Entry {
            door: 1,
            number: 2,
            what: Met::Denied {
                addr: HERE,
                rule: Some(2),
            },
        },
    ],
};

const ROWS: &[Row] = &[
    Row {
        doors: &[Side {
            gives: &[REQUEST],
            peers: &[],
            fails: &[],
        }],
        serve: 1,
        rules: &[],
        log: &[FIRST],
    },
    Row {
        doors: &[
            Side {
                gives: &[REQUEST, b"DIST00000002"],
                peers: &[],
                fails: &[],
            },
            Side {
                gives: &[CUT],
                peers: &[],
                fails: &[2],
            },
        ],
        serve: 3,
        rules: &[],
        log: &[
            FIRST,
            Entry {
                door: 1,
                number: 2,
                what: Met::Served(Served::Refused {
                    at: 11,
                    fault: RequestFault::BadVersion { n: 2 },
                }),
            },
            Entry {
                door: 1,
                number: 3,
                what: Met::Served(Served::Cut { have: 0 }),
            },
            Entry {
                door: 2,
                number: 1,
                what: Met::Served(Served::Cut { have: 38 }),
            },
            Entry {
                door: 2,
                number: 2,
                what: Met::DoorFault,
            },
        ],
    },
    SECOND_DENIED,
    Row {
        doors: &[Side {
            gives: &[REQUEST, REQUEST],
            peers: &[HERE, NEAR],
            fails: &[],
        }],
        serve: 2,
        rules: &[(true, "10.0.0.0/8")],
        log: &[
            Entry {
                door: 1,
                number: 1,
                what: Met::Denied {
                    addr: HERE,
                    rule: None,
                },
            },
            Entry {
                door: 1,
                number: 2,
                what: ANSWERED,
            },
        ],
    },
];

// A station whose first run leaves nothing.
fn station(alloc: Global) -> Result<MemStation, AllocError> {
    let mut rans = RanList::new(alloc);
    rans.try_push(Ran::nothing(alloc))?;
    Ok(MemStation::new(rans, CallNumbers::new(alloc)))
}

fn kit(alloc: Global, side: &Side) -> Result<DoorKit<MemDoor, MemStation>, AllocError> {
    let station = station(alloc)?;
    let door = door(alloc, side.gives, side.peers, side.fails)?;
    Ok(DoorKit { door, station })
}

fn kits(alloc: Global, sides: &[Side]) -> Result<Vec<DoorKit<MemDoor, MemStation>>, AllocError> {
    let mut doors = Vec::new(alloc);
    for side in sides {
        doors.push(kit(alloc, side)?)?;
    }
    Ok(doors)
}

// The compiler `scc` only.
fn table(alloc: Global) -> Result<Compilers, AllocError> {
    let name = Bytes::from_slice(alloc, b"scc")?;
    let program = name.copy()?;
    let mut rows = CompilerVec::new(alloc);
    rows.try_push(Compiler { name, program })?;
    Ok(Compilers { rows })
}

fn access(alloc: Global, rules: &[(bool, &str)]) -> Result<AccessList, Fail> {
    let mut list = RuleVec::new(alloc);
    for (allow, text) in rules {
        match parse_rule(*allow, text.as_bytes()) {
            Ok(rule) => list.try_push(rule)?,
            Err(_) => return Err("the rule is right".into()),
        }
    }
    Ok(AccessList { rules: list })
}

// What is served by: the compiler `scc`, and these rules.
fn config(alloc: Global, serve: u32, rules: &[(bool, &str)]) -> Result<DaemonConfig, Fail> {
    let access = access(alloc, rules)?;
    let table = table(alloc)?;
    Ok(DaemonConfig {
        table,
        serve,
        access,
    })
}

// Serves the doors, and answers the log.
fn served<R: Threads + Sync, D: Door + Send + Drop, S: Station + Send + Drop>(
    rt: &R,
    alloc: Global,
    doors: &mut Vec<DoorKit<D, S>>,
    config: &DaemonConfig,
) -> Result<Items<Entry>, Fail>
where
    D::Link: Send,
{
    if doors.is_empty() || 16 < doors.len() {
        return Err("there are 1 to 16 doors".into());
    }
    if config.serve < 1 || 100_000 < config.serve || !config.access.is_right() {
        return Err("the configuration is right".into());
    }
    Ok(serve(rt, alloc, doors, config)?)
}

fn expect_log<R: Abort + Threads + Sync, D: Door + Send + Drop, S: Station + Send + Drop>(
    rt: &R,
    alloc: Global,
    doors: &mut Vec<DoorKit<D, S>>,
    config: &DaemonConfig,
    row: &Row,
) -> Result<(), Fail>
where
    D::Link: Send,
{
    let log = served(rt, alloc, doors, config)?;
    same_items(rt, log.as_slice(), row.log, &row.rules);
    Ok(())
}

// Serves these doors by that many connections at most and these rules, and compares the log.
fn expect<R: Abort + Threads + Sync, D: Door + Send + Drop, S: Station + Send + Drop>(
    rt: &R,
    alloc: Global,
    doors: &mut Vec<DoorKit<D, S>>,
    row: &Row,
) -> Result<(), Fail>
where
    D::Link: Send,
{
    let config = config(alloc, row.serve, row.rules)?;
    expect_log(rt, alloc, doors, &config, row)
}

fn expect_row<R: Abort + Threads + Sync>(rt: &R, alloc: Global, row: &Row) -> Result<(), Fail> {
    let mut doors = kits(alloc, row.doors)?;
    expect(rt, alloc, &mut doors, row)
}

fn expect_rows<R: Abort + Threads + Sync>(rt: &R, alloc: Global, rows: &[Row]) -> Result<(), Fail> {
    for row in rows {
        expect_row(rt, alloc, row)?;
    }
    Ok(())
}

#[test]
fn logs(rt: HostRuntime) -> Result<(), Fail> {
    expect_rows(&rt, rt.alloc(), ROWS)
}

// Whether nothing passed over the last visit of a door.
fn is_silent(door: MemDoor) -> bool {
    match door.into_visits().take_last() {
        Some(visit) => visit.given.is_empty() && visit.sent.is_empty(),
        None => false,
    }
}

// Over the link of a denied peer nothing passed, and nothing was run for it.
fn expect_one_served<R: Abort>(
    rt: &R,
    alloc: Global,
    kit: DoorKit<MemDoor, MemStation>,
) -> Result<(), Fail> {
    let DoorKit { door, station } = kit;
    holds(rt, is_silent(door), &"the denied peer");
    same(rt, &runs_of(alloc, station)?, &1, &"runs");
    Ok(())
}

// The kit of a row's one door, once it has served.
fn served_kit<R: Abort + Threads + Sync>(
    rt: &R,
    alloc: Global,
    row: &Row,
) -> Result<DoorKit<MemDoor, MemStation>, Fail> {
    let mut doors = kits(alloc, row.doors)?;
    expect(rt, alloc, &mut doors, row)?;
    match doors.pop() {
        Some(kit) => Ok(kit),
        None => Err("the kit is back".into()),
    }
}

fn expect_denied<R: Abort + Threads + Sync>(rt: &R, alloc: Global, row: &Row) -> Result<(), Fail> {
    expect_one_served(rt, alloc, served_kit(rt, alloc, row)?)
}

#[test]
fn a_denied_peer_is_left_at_once(rt: HostRuntime) -> Result<(), Fail> {
    expect_denied(&rt, rt.alloc(), &SECOND_DENIED)
}

// Sixteen doors, of which the twelfth fails at its first accept.
fn sixteen_kits(alloc: Global) -> Result<Vec<DoorKit<MemDoor, MemStation>>, AllocError> {
    let mut doors = Vec::new(alloc);
    for at in 0..16 {
        let side = if at == 11 { &BROKEN } else { &PLAIN };
        doors.push(kit(alloc, side)?)?;
    }
    Ok(doors)
}

const PLAIN: Side = Side {
    gives: &[REQUEST],
    peers: &[],
    fails: &[],
};

const BROKEN: Side = Side {
    gives: &[],
    peers: &[],
    fails: &[1],
};

fn expect_log_of_sixteen<R: Abort>(rt: &R, log: &[Entry]) {
    same(rt, &log.len(), &31, &"entries");
    same(rt, &log.get(22).copied(), &Some(FAULT), &22);
    same(rt, &log.get(30).copied(), &Some(LAST), &30);
}

fn expect_sixteen_served<R, D: Door + Send + Drop, S: Station + Send + Drop>(
    rt: &R,
    alloc: Global,
    doors: &mut Vec<DoorKit<D, S>>,
    config: &DaemonConfig,
) -> Result<(), Fail>
where
    R: Abort + Threads + Sync,
    D::Link: Send,
{
    let log = served(rt, alloc, doors, config)?;
    same(rt, &doors.len(), &16, &"doors");
    expect_log_of_sixteen(rt, log.as_slice());
    Ok(())
}

fn expect_sixteen<R: Abort + Threads + Sync>(rt: &R, alloc: Global) -> Result<(), Fail> {
    let config = config(alloc, 2, &[])?;
    let mut doors = sixteen_kits(alloc)?;
    expect_sixteen_served(rt, alloc, &mut doors, &config)
}

// Each with two connections: the kits are back in their order, and so are the entries.
#[test]
fn sixteen_doors(rt: HostRuntime) -> Result<(), Fail> {
    expect_sixteen(&rt, rt.alloc())
}

const FAULT: Entry = Entry {
    door: 12,
    number: 1,
    what: Met::DoorFault,
};

const LAST: Entry = Entry {
    door: 16,
    number: 2,
    what: Met::Served(Served::Cut { have: 0 }),
};
