use crate::same::{same, same_bytes};
use edge_memory::{LinkScript, LinkScripts, MemDialer, MemKeeper, Moves};
use edge_traits::{CallNumbers, Cause, Dialer, FetchFault, FileList, Keeper, is_staged};
use farm_types::{Bytes, Host, HostName, Outcome, Request, Words};
use remote_transfer::{Attempt, Landed, Landing, attempt, attempt_into};
use std::alloc::Global;
use std::process::Abort;
use std::test::Fail;

const WORDS: &[&str] = &["scc", "-c", "a.i", "-o", "a.o"];

fn words(alloc: Global, texts: &[&str]) -> Result<Words, Fail> {
    let mut words = Words::new(alloc);
    for text in texts {
        words.try_push(Bytes::from_slice(alloc, text.as_bytes())?)?;
    }
    Ok(words)
}

// `scc -c a.i -o a.o` on one line of source: its text has 120 bytes.
fn request(alloc: Global) -> Result<Request, Fail> {
    Ok(Request {
        words: words(alloc, WORDS)?,
        source: Bytes::from_slice(alloc, b"int a = 1;\n")?,
    })
}

// The reply of success, 73 bytes with an object of 13.
pub(crate) const REPLY: &[u8] =
    b"DONE00000001STAT00000000SERR00000000SOUT00000000DOTO0000000dSCO1\ndef a 1\n";

pub(crate) const SURPLUS: &[u8] =
    b"DONE00000001STAT00000000SERR00000000SOUT00000000DOTO0000000dSCO1\ndef a 1\nDONE000000";

pub(crate) const FAILED: &[u8] =
    b"DONE00000001STAT00000100SERR00000004bad\nSOUT00000000DOTO00000000";

pub(crate) const EMPTY: &[u8] = b"DONE00000001STAT00000000SERR00000000SOUT00000000DOTO00000000";

fn numbers(alloc: Global, list: &[u64]) -> Result<CallNumbers, Fail> {
    let mut numbers = CallNumbers::new(alloc);
    for number in list {
        numbers.try_push(*number)?;
    }
    Ok(numbers)
}

// A link that gives this. Its calls of these numbers fail, those of `zeros` move nothing, and one call moves at
// most that many bytes.
fn link(
    alloc: Global,
    gives: &[u8],
    most: u32,
    fails: &[u64],
    zeros: &[u64],
) -> Result<LinkScript, Fail> {
    Ok(LinkScript {
        gives: Bytes::from_slice(alloc, gives)?,
        moves: Moves {
            fails: numbers(alloc, fails)?,
            zeros: numbers(alloc, zeros)?,
            most,
        },
    })
}

// A dialer with this one link, whose dials of these numbers fail.
fn dialer(alloc: Global, link: LinkScript, dials: &[u64]) -> Result<MemDialer, Fail> {
    let mut links = LinkScripts::new(alloc);
    links.try_push(link)?;
    Ok(MemDialer::new(links, numbers(alloc, dials)?))
}

fn host(alloc: Global) -> Result<Host, Fail> {
    Ok(Host {
        name: HostName {
            text: Bytes::from_slice(alloc, b"red")?,
        },
        port: 3632,
        limit: 4,
        local: false,
    })
}

/// The place of the object of a whole reply, the status, and the length of the outcome's own object.
pub(crate) type ObjectPlace = (Landing, u32, usize);

/// What became of an object that goes into `x.o`, which holds `old` before.
#[derive(Drop)]
pub(crate) struct Shown {
    pub(crate) place: Option<ObjectPlace>,
    pub(crate) broke: Option<Cause>,
    pub(crate) pending: bool,
    pub(crate) file: Bytes,
}

// The file `x.o` holds `old`. The keeper's calls of these numbers fail.
fn keeper(alloc: Global, fails: &[u64]) -> Result<MemKeeper, Fail> {
    let mut files = FileList::new(alloc);
    files.try_put(
        Bytes::from_slice(alloc, b"x.o")?,
        Bytes::from_slice(alloc, b"old")?,
    )?;
    Ok(MemKeeper::new(files, numbers(alloc, fails)?))
}

// The place of the object of one exchange, or why it broke.
fn landed<D: Dialer, K: Keeper>(
    alloc: Global,
    dialer: &mut D,
    keeper: &mut K,
) -> Result<(Option<ObjectPlace>, Option<Cause>), Fail> {
    let host = host(alloc)?;
    let path = Bytes::from_slice(alloc, b"x.o")?;
    let request = request(alloc)?;
    if !request.fits() || host.local || is_staged(path.as_slice()) || keeper.is_pending() {
        return Err("the call may be made".into());
    }
    Ok(place_of(attempt_into(alloc, &request, &host, &path, dialer, keeper)))
}

fn place_of(landed: Landed) -> (Option<ObjectPlace>, Option<Cause>) {
    match landed {
        Landed::Whole { outcome, landing } => (
            Some((landing, outcome.status, outcome.object.len())),
            None,
        ),
        Landed::Broke(cause) => (None, Some(cause)),
        Landed::Memory { .. } => (None, None),
    }
}

// Commits a put that is pending, and says whether one was.
fn committed<K: Keeper>(alloc: Global, keeper: &mut K) -> Result<bool, Fail> {
    let pending = keeper.is_pending();
    if pending {
        keeper.commit(alloc)?;
    }
    Ok(pending)
}

fn content<K: Keeper>(alloc: Global, keeper: &mut K) -> Result<Bytes, Fail> {
    let path = Bytes::from_slice(alloc, b"x.o")?;
    if keeper.is_pending() || is_staged(path.as_slice()) {
        return Err("none is pending after a commit".into());
    }
    match keeper.fetch(alloc, &path, 1_000) {
        Ok(file) => Ok(file),
        Err(FetchFault::Memory) => Err("memory is ample".into()),
        Err(_) => Err("the file is there".into()),
    }
}

fn shown_of<D: Dialer, K: Keeper>(
    alloc: Global,
    dialer: &mut D,
    keeper: &mut K,
) -> Result<Shown, Fail> {
    let (place, broke) = landed(alloc, dialer, keeper)?;
    let pending = committed(alloc, keeper)?;
    let file = content(alloc, keeper)?;
    Ok(Shown {
        place,
        broke,
        pending,
        file,
    })
}

fn kept<D: Dialer>(alloc: Global, dialer: &mut D, fails: &[u64]) -> Result<Shown, Fail> {
    let mut keeper = keeper(alloc, fails)?;
    shown_of(alloc, dialer, &mut keeper)
}

// One exchange whose object goes into a file. The keeper's calls of these numbers fail; a put that is pending is committed.
pub(crate) fn landing(
    alloc: Global,
    gives: &[u8],
    most: u32,
    fails: &[u64],
) -> Result<Shown, Fail> {
    let mut dialer = dialer(alloc, link(alloc, gives, most, &[], &[])?, &[])?;
    kept(alloc, &mut dialer, fails)
}

fn attempted<D: Dialer>(alloc: Global, dialer: &mut D) -> Result<Attempt, Fail> {
    let host = host(alloc)?;
    let request = request(alloc)?;
    if !request.fits() || host.local {
        return Err("the request is within its limits".into());
    }
    Ok(attempt(alloc, &request, &host, dialer))
}

// One exchange with a host whose link gives this. The dials and the link's calls of these numbers fail, those
// of `zeros` move nothing, and one call moves at most that many bytes.
pub(crate) fn exchange(
    alloc: Global,
    gives: &[u8],
    most: u32,
    dials: &[u64],
    fails: &[u64],
    zeros: &[u64],
) -> Result<Attempt, Fail> {
    let mut dialer = dialer(alloc, link(alloc, gives, most, fails, zeros)?, dials)?;
    attempted(alloc, &mut dialer)
}

pub(crate) fn cause(answer: Attempt) -> Option<Cause> {
    match answer {
        Attempt::Broke(cause) => Some(cause),
        Attempt::Whole(_) | Attempt::Memory { .. } => None,
    }
}

/// A reply that is whole.
struct Whole {
    gives: &'static [u8],
    /// The bytes that one call moves, and the first call that isn't made: it would fail, and it would give the end.
    most: u32,
    unmade: u64,
    status: u32,
    err: &'static [u8],
    object: &'static [u8],
}

const WHOLE: &[Whole] = &[
    Whole {
        gives: REPLY,
        most: 1_000,
        unmade: 3,
        status: 0,
        err: b"",
        object: b"SCO1\ndef a 1\n",
    },
    Whole {
        gives: REPLY,
        most: 1,
        unmade: 194,
        status: 0,
        err: b"",
        object: b"SCO1\ndef a 1\n",
    },
    Whole {
        gives: SURPLUS,
        most: 1_000,
        unmade: 3,
        status: 0,
        err: b"",
        object: b"SCO1\ndef a 1\n",
    },
    Whole {
        gives: FAILED,
        most: 50,
        unmade: 6,
        status: 256,
        err: b"bad\n",
        object: b"",
    },
    Whole {
        gives: EMPTY,
        most: 60,
        unmade: 4,
        status: 0,
        err: b"",
        object: b"",
    },
];

fn expect_outcome<R: Abort>(rt: &R, outcome: &Outcome, row: &Whole) {
    same(rt, &outcome.status, &row.status, &row.most);
    same_bytes(rt, outcome.err.as_slice(), row.err, &row.most);
    same_bytes(rt, outcome.out.as_slice(), b"", &row.most);
    same_bytes(rt, outcome.object.as_slice(), row.object, &row.most);
}

fn expect_whole<R: Abort>(rt: &R, alloc: Global, row: &Whole) -> Result<(), Fail> {
    match exchange(
        alloc,
        row.gives,
        row.most,
        &[],
        &[row.unmade],
        &[row.unmade],
    )? {
        Attempt::Whole(outcome) => {
            expect_outcome(rt, &outcome, row);
            Ok(())
        }
        _ => Err("the reply is whole".into()),
    }
}

fn expect_all_whole<R: Abort>(rt: &R, alloc: Global, rows: &[Whole]) -> Result<(), Fail> {
    for row in rows {
        expect_whole(rt, alloc, row)?;
    }
    Ok(())
}

#[test]
fn whole_replies(rt: HostRuntime) -> Result<(), Fail> {
    expect_all_whole(&rt, rt.alloc(), WHOLE)
}

fn expect_cut<R: Abort>(rt: &R, alloc: Global, gives: &[u8]) -> Result<(), Fail> {
    let wanted = Some(Cause::Truncated {
        have: gives.len() as u64,
    });
    for most in [1, 50, 1_000] {
        let answer = exchange(alloc, gives, most, &[], &[], &[])?;
        same(rt, &cause(answer), &wanted, &most);
    }
    Ok(())
}

fn expect_cuts<R: Abort>(rt: &R, alloc: Global, reply: &[u8]) -> Result<(), Fail> {
    for len in 0..reply.len() {
        expect_cut(rt, alloc, &reply[..len])?;
    }
    Ok(())
}

#[test]
fn cut_replies(rt: HostRuntime) -> Result<(), Fail> {
    expect_cuts(&rt, rt.alloc(), REPLY)
}

/// A call, and what comes of it if it fails and if it moves nothing.
type Failing = (u64, Option<Cause>, Option<Cause>);

// Three sends and two receives of at most 50 bytes.
const FAILING: &[Failing] = &[
    (1, Some(Cause::Send), Some(Cause::Stopped)),
    (2, Some(Cause::Send), Some(Cause::Stopped)),
    (3, Some(Cause::Send), Some(Cause::Stopped)),
    (4, Some(Cause::Recv), Some(Cause::Truncated { have: 0 })),
    (5, Some(Cause::Recv), Some(Cause::Truncated { have: 50 })),
    (6, None, None),
];

fn expect_failing<R: Abort>(rt: &R, alloc: Global, rows: &[Failing]) -> Result<(), Fail> {
    for (call, failed, moved_none) in rows {
        let answer = exchange(alloc, REPLY, 50, &[], &[*call], &[])?;
        same(rt, &cause(answer), failed, call);
        let answer = exchange(alloc, REPLY, 50, &[], &[], &[*call])?;
        same(rt, &cause(answer), moved_none, call);
    }
    Ok(())
}

#[test]
fn a_failed_call_breaks_the_exchange(rt: HostRuntime) -> Result<(), Fail> {
    expect_failing(&rt, rt.alloc(), FAILING)?;
    let undialed = exchange(rt.alloc(), REPLY, 50, &[1], &[], &[])?;
    same(&rt, &cause(undialed), &Some(Cause::Dial), &"a dial");
    Ok(())
}
