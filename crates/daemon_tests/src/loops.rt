//! A loop to the daemon's service: what its links give, and how exchanges over it go.

use crate::devices::table;
use crate::same::{same, same_items};
use crate::scripts::{REPLY, REQUEST};
use edge_memory::{MemStation, RanList};
use edge_traits::{CallNumbers, Cause, Dialer, EdgeFault, Link, Station};
use farm_types::{Bytes, Host, HostName, Ran, Request, Words};
use loop_link::{LoopDialer, attempt_over_loop};
use remote_transfer::Attempt;
use std::alloc::{AllocError, Global};
use std::process::Abort;
use std::test::Fail;

// The run of a station that leaves the object of the reply.
fn ran(alloc: Global) -> Result<Ran, AllocError> {
    let object = Bytes::from_slice(alloc, b"SCO1\ndef a 1\n")?;
    Ok(Ran {
        status: 0,
        out: Bytes::new(alloc),
        err: Bytes::new(alloc),
        object,
    })
}

fn first_call(alloc: Global) -> Result<CallNumbers, AllocError> {
    let mut numbers = CallNumbers::new(alloc);
    numbers.try_push(1)?;
    Ok(numbers)
}

// A station whose one run leaves the object of the reply, or fails.
fn station(alloc: Global, fails: bool) -> Result<MemStation, AllocError> {
    let numbers = if fails {
        first_call(alloc)?
    } else {
        CallNumbers::new(alloc)
    };
    let mut rans = RanList::new(alloc);
    rans.try_push(ran(alloc)?)?;
    Ok(MemStation::new(rans, numbers))
}

// A loop to such a station.
fn dialer(alloc: Global, fails: bool) -> Result<LoopDialer<MemStation>, AllocError> {
    let table = table(alloc)?;
    let station = station(alloc, fails)?;
    Ok(LoopDialer::new(station, table))
}

fn host(alloc: Global) -> Result<HostName, AllocError> {
    let text = Bytes::from_slice(alloc, b"loop")?;
    Ok(HostName { text })
}

fn send<L: Link>(link: &mut L, sends: &[u8]) -> Result<(), Fail>
    ensures { L.follows link.old link.new }
{
    if !sends.is_empty() && link.send(sends) != Ok(sends.len()) {
        return Err("all is sent".into());
    }
    Ok(())
}

// Receives until the end through a small room.
fn receive<L: Link>(link: &mut L, given: &mut Bytes) -> Result<(), Fail>
    ensures { L.follows link.old link.new }
{
    for _ in 0..200 {
        let mut room = [0; 7];
        match link.recv(&mut room) {
            Ok(0) => return Ok(()),
            Ok(count) => given.try_extend(&room[..count])?,
            Err(_) => return Err("a loop's link doesn't fail".into()),
        }
    }
    Err("the reply has an end".into())
}

// Sends this, and answers what is received.
fn exchange<L: Link>(alloc: Global, link: &mut L, sends: &[u8]) -> Result<Bytes, Fail>
    ensures { L.follows link.old link.new }
{
    send(link, sends)?;
    let mut given = Bytes::new(alloc);
    receive(link, &mut given)?;
    Ok(given)
}

// What is sent, whether the station's run fails, and what the link gives until its end.
struct Given {
    sends: &'static [u8],
    fails: bool,
    gives: &'static [u8],
}

const GIVEN: &[Given] = &[
    Given {
        sends: REQUEST,
        fails: false,
        gives: REPLY,
    },
    Given {
        sends: REQUEST,
        fails: true,
        gives: b"",
    },
    Given {
        sends: b"DIST00000002",
        fails: false,
        gives: b"",
    },
    Given {
        sends: b"DIST00000001ARGC00000001ARGV00000003gccDOTI00000000",
        fails: false,
        gives: b"DONE00000001STAT00006e00SERR00000015unknown compiler gcc\nSOUT00000000DOTO00000000",
    },
];

// What a link of this dialer gives when this is sent.
fn given_by<D: Dialer + Drop>(alloc: Global, mut dialer: D, sends: &[u8]) -> Result<Bytes, Fail> {
    let host = host(alloc)?;
    let Ok(mut link) = dialer.dial(alloc, &host, 3632) else {
        return Err("the station is there".into());
    };
    let given = exchange(alloc, &mut link, sends);
    dialer.hang_up(link);
    given
}

// The same of a new loop, whose station's run may fail.
fn given_over(alloc: Global, fails: bool, sends: &[u8]) -> Result<Bytes, Fail> {
    given_by(alloc, dialer(alloc, fails)?, sends)
}

fn expect_given<R: Abort>(rt: &R, alloc: Global, rows: &[Given]) -> Result<(), Fail> {
    for row in rows {
        let given = given_over(alloc, row.fails, row.sends)?;
        same_items(rt, given.as_slice(), row.gives, &row.sends);
    }
    Ok(())
}

#[test]
fn what_a_loop_gives(rt: HostRuntime) -> Result<(), Fail> {
    expect_given(&rt, rt.alloc(), GIVEN)
}

fn words(alloc: Global, list: &[&[u8]]) -> Result<Words, AllocError> {
    let mut words = Words::new(alloc);
    for word in list {
        words.try_push(Bytes::from_slice(alloc, word)?)?;
    }
    Ok(words)
}

// The request whose text is above.
fn request(alloc: Global) -> Result<Request, AllocError> {
    let words = words(alloc, &[b"scc", b"-c", b"a.i", b"-o", b"a.o"])?;
    let source = Bytes::from_slice(alloc, b"int a = 1;\n")?;
    Ok(Request { words, source })
}

// One attempt over this loop, with a request that fits and a remote host.
fn attempt_by<S: Station + Drop>(
    alloc: Global,
    request: &Request,
    host: &Host,
    dialer: LoopDialer<S>,
) -> Option<Attempt> {
    if request.fits() && !host.local {
        let (_, answer) = attempt_over_loop(alloc, request, host, dialer);
        Some(answer)
    } else {
        None
    }
}

// Why the exchange was broken, if it was.
fn cause_of(answer: Option<Attempt>) -> Result<Option<Cause>, Fail> {
    match answer {
        Some(Attempt::Whole(_)) => Ok(None),
        Some(Attempt::Broke(cause)) => Ok(Some(cause)),
        Some(Attempt::Memory { .. }) => Err("memory lasts".into()),
        None => Err("the request fits".into()),
    }
}

fn remote_host(alloc: Global) -> Result<Host, AllocError> {
    Ok(Host {
        name: host(alloc)?,
        port: 3632,
        limit: 4,
        local: false,
    })
}

// The same of an exchange over a new loop, whose station's run may fail.
fn cause_over(alloc: Global, fails: bool) -> Result<Option<Cause>, Fail> {
    let request = request(alloc)?;
    let host = remote_host(alloc)?;
    let dialer = dialer(alloc, fails)?;
    cause_of(attempt_by(alloc, &request, &host, dialer))
}

// How a second dial goes while the first one's link is out.
fn second_dial<D: Dialer + Drop>(alloc: Global, mut dialer: D) -> Result<EdgeFault, Fail> {
    let host = host(alloc)?;
    let Ok(link) = dialer.dial(alloc, &host, 3632) else {
        return Err("the station is there".into());
    };
    let second = dialer.dial(alloc, &host, 3632);
    dialer.hang_up(link);
    match second {
        Ok(link) => {
            dialer.hang_up(link);
            Err("the station is away".into())
        }
        Err(fault) => Ok(fault),
    }
}

fn expect_exchanges<R: Abort>(rt: &R, alloc: Global) -> Result<(), Fail> {
    same(rt, &cause_over(alloc, false)?, &None, &"a run");
    let cut = Some(Cause::Truncated { have: 0 });
    same(rt, &cause_over(alloc, true)?, &cut, &"a failed run");
    let second = second_dial(alloc, dialer(alloc, false)?)?;
    same(rt, &second, &EdgeFault::Failed, &"a second dial");
    Ok(())
}

#[test]
fn how_exchanges_go(rt: HostRuntime) -> Result<(), Fail> {
    expect_exchanges(&rt, rt.alloc())
}
