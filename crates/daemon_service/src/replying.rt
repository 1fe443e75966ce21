//! Writing the reply of a connection.

ghost use Rattle.std.specs.Prelude.{◌≡◌, []};
ghost use Rattle.farm_types.specs.Fits.{OutcomeFits};
ghost use Rattle.wire_tokens.specs.Reply.{reply_text};
ghost use Rattle.edge_traits.specs.Told.{Grew};
ghost use Rattle.daemon_service.specs.Services.{LinkCause};
ghost use Rattle.daemon_service.specs.Parts.{Replied};

use crate::Served;
use compile_reply::{encode, encode_head};
use edge_traits::{Link, send_all};
use farm_types::Outcome;
use std::alloc::Global;

// Makes the whole text of a reply, and then sends it at once.
fn reply_whole<L: Link>(alloc: Global, link: &mut L, outcome: &Outcome) -> Served
    requires { OutcomeFits outcome.now.status outcome.now.err outcome.now.out outcome.now.object }
    ensures replied { Replied (reply_text outcome.now) outcome.now.status (L.shows link.old) (L.shows link.new) result }
    ensures given { Grew (L.shows link.old).given (L.shows link.new).given [] }
    ensures ended { (L.shows link.new).ended ≡ (L.shows link.old).ended }
    ensures follows { L.follows link.old link.new }
    ensures cause { LinkCause result (L.shows link.old).faults (L.shows link.new).faults }
{
    let Ok(text) = encode(alloc, outcome) else {
        return Served::Memory;
    };
    match send_all(link, text.as_slice()) {
        Ok(()) => Served::Answered(outcome.status),
        Err(fault) => Served::from(fault),
    }
}

// Makes the text before the object, and then sends it and the object's own bytes, so that these aren't copied.
fn reply_apart<L: Link>(alloc: Global, link: &mut L, outcome: &Outcome) -> Served
    requires { OutcomeFits outcome.now.status outcome.now.err outcome.now.out outcome.now.object }
    ensures replied { Replied (reply_text outcome.now) outcome.now.status (L.shows link.old) (L.shows link.new) result }
    ensures given { Grew (L.shows link.old).given (L.shows link.new).given [] }
    ensures ended { (L.shows link.new).ended ≡ (L.shows link.old).ended }
    ensures follows { L.follows link.old link.new }
    ensures cause { LinkCause result (L.shows link.old).faults (L.shows link.new).faults }
{
    let Ok(head) = encode_head(alloc, outcome) else {
        return Served::Memory;
    };
    if let Err(fault) = send_all(link, head.as_slice()) {
        return Served::from(fault);
    }
    match send_all(link, outcome.object.as_slice()) {
        Ok(()) => Served::Answered(outcome.status),
        Err(fault) => Served::from(fault),
    }
}

/// Makes what isn't there yet of a reply, and then sends the reply.
pub(crate) fn reply<L: Link>(alloc: Global, link: &mut L, outcome: &Outcome) -> Served
    requires { OutcomeFits outcome.now.status outcome.now.err outcome.now.out outcome.now.object }
    ensures replied { Replied (reply_text outcome.now) outcome.now.status (L.shows link.old) (L.shows link.new) result }
    ensures given { Grew (L.shows link.old).given (L.shows link.new).given [] }
    ensures ended { (L.shows link.new).ended ≡ (L.shows link.old).ended }
    ensures follows { L.follows link.old link.new }
    ensures cause { LinkCause result (L.shows link.old).faults (L.shows link.new).faults }
{
    if outcome.object.len() < SENT_APART {
        return reply_whole(alloc, link, outcome);
    }
    reply_apart(alloc, link, outcome)
}

/// An object of this many bytes or more isn't copied: it is sent by itself, after the text before it. A copy of a shorter one costs less than a
/// second send.
const SENT_APART: usize = 65_536;
