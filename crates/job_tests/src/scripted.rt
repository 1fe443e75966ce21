//! Jobs by rows: what the devices do, and what becomes of the job.

ghost use Rattle.std.specs.Prelude.{◌≡◌, ◌+◌, ◌*◌, ◌<◌, ◌≤◌, [], length};
ghost use Rattle.farm_types.specs.Limits.{hosts_max};
ghost use Rattle.edge_traits.specs.Keepers.{IsIdle};
ghost use Rattle.slot_table.specs.History.{outstanding};
ghost use Rattle.slot_table.specs.Grants.{cost};
ghost use Rattle.farm_machine.specs.Jobs.{AreLimitsOf};
ghost use Rattle.job_run.specs.Events.{events_max};

use crate::slots::slots_of;
use edge_memory::{
    LinkScript, LinkScripts, MemClock, MemDialer, MemKeeper, MemStation, Moments, Moves, RanList,
};
use edge_traits::{CallNumbers, Clock, Dialer, FileList, Keeper, Kit, Station};
use farm_machine::{By, Event, Places, Report, Why5};
use farm_types::{Bytes, Host, HostName, HostVec, Hosts, JobConfig, Ran, Words};
use job_run::{EventRoom, run_job};
use slot_table::Grants;
use std::alloc::Global;
use std::sync::Wait;
use std::test::Fail;

/// A kit over this keeper, whose other devices follow scripts.
pub(crate) type Scripted<K> = Kit<MemDialer, MemStation, K, MemClock>;

/// A run's status, and what it leaves: output, messages, object.
#[derive(Clone, Copy)]
pub(crate) struct Left(
    pub(crate) u32,
    pub(crate) &'static [u8],
    pub(crate) &'static [u8],
    pub(crate) &'static [u8],
);

/// An exchange: its host, and what was sent and given. One that was not dialed has neither.
#[derive(Clone, Copy)]
pub(crate) struct Passed(
    pub(crate) &'static str,
    pub(crate) &'static [u8],
    pub(crate) &'static [u8],
);

#[derive(Clone, Copy)]
pub(crate) enum Ended {
    /// The status, what was written to standard error, and who ended it.
    Done(u32, &'static [u8], By),
    Failed(Why5),
}

/// What the devices do, and what becomes of the job.
#[derive(Clone, Copy)]
pub(crate) struct Row {
    pub(crate) line: &'static str,
    /// Each entry, and whether it is this machine.
    pub(crate) hosts: &'static [(&'static str, bool)],
    pub(crate) fallback: bool,
    pub(crate) retry: bool,
    pub(crate) period: u32,
    pub(crate) tries: u8,
    pub(crate) moments: &'static [u64],
    pub(crate) dial_fails: &'static [u64],
    /// What the links give, and how many bytes a call of theirs moves at most.
    pub(crate) gives: &'static [&'static [u8]],
    pub(crate) most: u32,
    pub(crate) rans: &'static [Left],
    pub(crate) run_fails: &'static [u64],
    pub(crate) keeper_fails: &'static [u64],
    pub(crate) events: &'static [Event],
    pub(crate) end: Ended,
    pub(crate) exchanges: &'static [Passed],
    /// Each run's words, with marks for the station's own names, and its input.
    pub(crate) runs: &'static [(&'static str, &'static [u8])],
    /// What the file `x.o` holds afterwards.
    pub(crate) object: &'static [u8],
}

pub(crate) fn numbers(alloc: Global, list: &[u64]) -> Result<CallNumbers, Fail> {
    let mut numbers = CallNumbers::new(alloc);
    for number in list {
        numbers.try_push(*number)?;
    }
    Ok(numbers)
}

fn link(alloc: Global, gives: &[u8], most: u32) -> Result<LinkScript, Fail> {
    Ok(LinkScript {
        gives: Bytes::from_slice(alloc, gives)?,
        moves: Moves {
            fails: CallNumbers::new(alloc),
            zeros: CallNumbers::new(alloc),
            most,
        },
    })
}

fn links(alloc: Global, row: &Row) -> Result<LinkScripts, Fail> {
    let mut links = LinkScripts::new(alloc);
    for gives in row.gives {
        links.try_push(link(alloc, gives, row.most)?)?;
    }
    Ok(links)
}

fn ran(alloc: Global, left: &Left) -> Result<Ran, Fail> {
    Ok(Ran {
        status: left.0,
        out: Bytes::from_slice(alloc, left.1)?,
        err: Bytes::from_slice(alloc, left.2)?,
        object: Bytes::from_slice(alloc, left.3)?,
    })
}

fn rans(alloc: Global, row: &Row) -> Result<RanList, Fail> {
    let mut rans = RanList::new(alloc);
    for left in row.rans {
        rans.try_push(ran(alloc, left)?)?;
    }
    Ok(rans)
}

fn put(alloc: Global, files: &mut FileList, path: &[u8], content: &[u8]) -> Result<(), Fail> {
    let path = Bytes::from_slice(alloc, path)?;
    files.try_put(path, Bytes::from_slice(alloc, content)?)?;
    Ok(())
}

/// The file `x.o` holds `old`, and `a.i` a source.
pub(crate) fn files(alloc: Global) -> Result<FileList, Fail> {
    let mut files = FileList::new(alloc);
    put(alloc, &mut files, b"x.o", b"old")?;
    put(alloc, &mut files, b"a.i", b"int a = 1;\n")?;
    Ok(files)
}

pub(crate) fn dialer(alloc: Global, row: &Row) -> Result<MemDialer, Fail> {
    let links = links(alloc, row)?;
    Ok(MemDialer::new(links, numbers(alloc, row.dial_fails)?))
}

/// The station of a row.
pub(crate) fn station(alloc: Global, row: &Row) -> Result<MemStation, Fail> {
    let rans = rans(alloc, row)?;
    Ok(MemStation::new(rans, numbers(alloc, row.run_fails)?))
}

fn clock(alloc: Global, row: &Row) -> Result<MemClock, Fail> {
    let mut moments = Moments::new(alloc);
    for moment in row.moments {
        moments.try_push(*moment)?;
    }
    Ok(MemClock::new(moments))
}

pub(crate) fn devices(alloc: Global, row: &Row) -> Result<(MemClock, MemDialer), Fail> {
    let clock = clock(alloc, row)?;
    Ok((clock, dialer(alloc, row)?))
}

/// The devices of a row, over this station and this keeper.
pub(crate) fn kit<K: Keeper + Drop>(
    alloc: Global,
    row: &Row,
    station: MemStation,
    keeper: K,
) -> Result<Scripted<K>, Fail> {
    let (clock, dialer) = devices(alloc, row)?;
    Ok(Kit {
        dialer,
        station,
        keeper,
        clock,
    })
}

/// A keeper in memory of these files, whose calls of these numbers fail.
pub(crate) fn memory(alloc: Global, files: FileList, fails: &[u64]) -> Result<MemKeeper, Fail> {
    Ok(MemKeeper::new(files, numbers(alloc, fails)?))
}

pub(crate) fn words(alloc: Global, line: &str) -> Result<Words, Fail> {
    let mut words = Words::new(alloc);
    for word in line.split(' ') {
        words.try_push(Bytes::from_slice(alloc, word.as_bytes())?)?;
    }
    Ok(words)
}

pub(crate) fn host(alloc: Global, name: &str, local: bool) -> Result<Host, Fail> {
    Ok(Host {
        name: HostName {
            text: Bytes::from_slice(alloc, name.as_bytes())?,
        },
        port: 3632,
        limit: 1,
        local,
    })
}

fn hosts(alloc: Global, row: &Row) -> Result<HostVec, Fail> {
    let mut list = HostVec::new(alloc);
    for (name, local) in row.hosts {
        list.try_push(host(alloc, name, *local)?)?;
    }
    Ok(list)
}

fn config(alloc: Global, row: &Row) -> Result<JobConfig, Fail> {
    Ok(JobConfig {
        hosts: Hosts {
            list: hosts(alloc, row)?,
            local_slots: 1,
            local_cpp: 8,
            randomize: false,
        },
        fallback: row.fallback,
        retry: row.retry,
        period: row.period,
        tries: row.tries,
    })
}

const NOWHERE: Places = Places {
    runs: 0,
    fetches: 0,
    exchanges: 0,
    puts: 0,
};

/// Does this job. It says only what the next job over the same slots needs.
fn job_at<R: Wait, D: Dialer, S: Station, K: Keeper, C: Clock, G: Grants>(
    rt: &R,
    alloc: Global,
    words: &Words,
    number: u32,
    config: &JobConfig,
    grants: &mut G,
    kit: &mut Kit<D, S, K, C>,
) -> Result<Report, Fail>
    requires word { 0 < length words.now }
    requires hosts { AreLimitsOf (G.limits grants.old) config.now.hosts }
    requires entries { length config.now.hosts.list ≤ hosts_max }
    requires some { 1 ≤ config.now.tries }
    requires tries { config.now.tries ≤ hosts_max }
    requires ready { G.ready grants.old }
    requires spare { events_max * cost G.alone ≤ G.spare grants.old }
    requires none { outstanding (G.mine grants.old) ≡ [] }
    requires pending { IsIdle (K.shows kit.old.keeper) }
    ensures ready { G.ready grants.new }
    ensures follows { G.follows grants.old grants.new }
    ensures none { outstanding (G.mine grants.new) ≡ [] }
    ensures spare { G.spare grants.old ≤ G.spare grants.new + events_max * cost G.alone }
    ensures pending { IsIdle (K.shows kit.new.keeper) }
{
    let mut places = NOWHERE;
    let room = EventRoom::new(alloc)?;
    Ok(run_job(
        rt,
        alloc,
        words,
        number,
        config,
        grants,
        kit,
        &mut places,
        room,
    ))
}

/// Does this job, and if it is to be done again a second one with the same slots.
fn done_with<R: Wait, D: Dialer, S: Station, K: Keeper, C: Clock>(
    rt: &R,
    alloc: Global,
    words: &Words,
    config: &JobConfig,
    again: bool,
    kit: &mut Kit<D, S, K, C>,
) -> Result<Report, Fail> {
    if words.is_empty() || kit.keeper.is_pending() {
        return Err("the command has a word, and no put is pending".into());
    }
    if config.hosts.list.len() > 16 || config.tries == 0 || config.tries > 16 {
        return Err("there are at most 16 entries, and 1 to 16 tries".into());
    }
    let mut slots = slots_of(alloc, &config.hosts)?;
    let report = job_at(rt, alloc, words, 0, config, &mut slots, kit)?;
    if !again {
        return Ok(report);
    }
    job_at(rt, alloc, words, 1, config, &mut slots, kit)
}

/// Does the job of a row, with slots of one thread, and if it is to be done again a second one with the same slots.
pub(crate) fn done<R: Wait, D: Dialer, S: Station, K: Keeper, C: Clock>(
    rt: &R,
    alloc: Global,
    row: &Row,
    again: bool,
    kit: &mut Kit<D, S, K, C>,
) -> Result<Report, Fail> {
    let words = words(alloc, row.line)?;
    let config = config(alloc, row)?;
    done_with(rt, alloc, &words, &config, again, kit)
}
