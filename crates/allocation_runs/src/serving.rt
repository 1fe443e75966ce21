//! A whole request of the daemon over devices in memory.

ghost use Rattle.std.specs.Prelude.{◌≡◌, false, length};
ghost use Rattle.edge_memory.specs.Sinks.{sink_state, sink_shows};

use crate::judging::Verdict;
use daemon_program::farmd;
use daemon_worker::DoorKit;
use edge_memory::{LinkScript, LinkScripts, MemDoor, MemSink, MemStation, Moves, Peers, RanList};
use edge_traits::CallNumbers;
use farm_types::Bytes;
use std::alloc::{AllocError, Global};
use std::random::RandomSource;
use std::sync::Wait;
use std::thread::Threads;

const WORDS: [&str; 6] = ["--compiler", "scc=scc", "--jobs", "1", "--serve", "1"];

const REQUEST: &[u8] =
    b"DIST00000001ARGC00000005ARGV00000003sccARGV00000002-cARGV00000003a.iARGV00000002-oARGV00000003a.oDOTI0000000bint a = 1;\n";

const REPLY: &[u8] = b"DONE00000001STAT00000000SERR00000000SOUT00000000DOTO00000000";

const ANSWERED: &[u8] = b"door 1 conn 1 answered 00000000\n";

const WANTED: &[u8] = b"door 1 conn 1 no memory\n";

const NOTICE: &[u8] = b"farmd: no memory\n";

fn moves(alloc: Global) -> Moves {
    Moves {
        fails: CallNumbers::new(alloc),
        zeros: CallNumbers::new(alloc),
        most: 50,
    }
}

fn door(alloc: Global) -> Result<MemDoor, AllocError> {
    let mut links = LinkScripts::new(alloc);
    links.try_push(LinkScript {
        gives: Bytes::from_slice(alloc, REQUEST)?,
        moves: moves(alloc),
    })?;
    Ok(MemDoor::new(alloc, links, Peers::new(alloc), CallNumbers::new(alloc)))
}

// Whether memory ran out: in the connection or at the door, as the line says; or outside, as the notice says.
fn is_wanting(status: u8, out: &[u8]) -> bool {
    match status {
        0 => out == WANTED,
        105 => out == WANTED || NOTICE.starts_with(out),
        _ => false,
    }
}

// The verdict on a run that returned this status, printed this, and sent this to its peer. A reply may be cut if the link itself was out of memory.
fn judge(status: u8, out: &[u8], sent: &[u8]) -> Verdict {
    if !REPLY.starts_with(sent) {
        return Verdict::Wrong("the reply is none of this run");
    }
    if !sent.is_empty() && sent != REPLY && out != WANTED {
        return Verdict::Wrong("the reply was cut, and no memory wanting");
    }
    if status == 0 && out == ANSWERED {
        return if sent == REPLY {
            Verdict::Usual
        } else {
            Verdict::Wrong("the reply wasn't sent")
        };
    }
    if out == WANTED && sent == REPLY {
        return Verdict::Wrong("the reply was sent, and memory wanting");
    }
    if is_wanting(status, out) {
        return Verdict::Wanting;
    }
    Verdict::Wrong("what is printed is none of this run")
}

// Serves by the words at a door in memory.
fn serve<W: Threads + Wait + RandomSource + Sync>(
    rt: &W,
    alloc: Global,
    words: &[String],
    doors: &mut Vec<DoorKit<MemDoor, MemStation>>,
    out: &mut MemSink,
) -> u8
    requires door { length doors.old.items ≡ 1 }
    requires out { (sink_shows (sink_state out.old)).stopped ≡ false }
{
    farmd(rt, alloc, words, doors, out)
}

/// Serves one whole request.
pub fn one_request<W: Threads + Wait + RandomSource + Sync>(
    rt: &W,
    alloc: Global,
) -> Result<Verdict, AllocError> {
    let mut words = Vec::new(alloc);
    for word in WORDS {
        words.push(String::from_str(alloc, word)?)?;
    }
    let mut doors = Vec::new(alloc);
    doors.push(DoorKit {
        door: door(alloc)?,
        station: MemStation::new(RanList::new(alloc), CallNumbers::new(alloc)),
    })?;
    let mut out = MemSink::new(
        alloc,
        Moves {
            most: 4_096,
            ..moves(alloc)
        },
    );
    let status = serve(rt, alloc, words.as_slice(), &mut doors, &mut out);
    let visit = match doors.pop() {
        Some(kit) => kit.door.into_visits().take_last(),
        None => None,
    };
    match visit {
        Some(visit) => Ok(judge(status, out.written(), visit.sent.as_slice())),
        None => Ok(judge(status, out.written(), b"")),
    }
}
