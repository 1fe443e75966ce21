ghost use Rattle.std.specs.Prelude.{◌≡◌, ◌<◌, ◌≤◌, length, false, IfOk};
ghost use Rattle.farm_types.specs.Limits.{piece_max};
ghost use Rattle.farm_types.specs.declared.request.Request.{Request};
ghost use Rattle.farm_types.specs.declared.hosts.Host.{Host};
ghost use Rattle.farm_types.specs.Fits.{RequestFits};
ghost use Rattle.wire_tokens.specs.Request.{request_text};
ghost use Rattle.edge_traits.specs.Told.{SameRelation};
ghost use Rattle.edge_traits.specs.FileMaps.{IsStaged};
ghost use Rattle.edge_traits.specs.Keepers.{IsIdle};
ghost use Rattle.edge_traits.specs.Links.{IsNew};
ghost use Rattle.remote_transfer.specs.Answers;
ghost use Rattle.remote_transfer.specs.Attempts.{ExchangeIs, EndsBy, AttemptAdds, DialCause};
ghost use Rattle.remote_transfer.specs.Landings.{KeeperStays, PassedInto, LandedAdds, LandedCause, IsUnasked};
ghost use Rattle.remote_transfer.specs.Links.{IsFor, Passed};

use crate::answers::{Attempt, Landed, Landing, Stop};
use crate::landing::receive_into;
use crate::receiving::receive_reply;
use compile_request::encode;
use edge_traits::{Cause, Dialer, EdgeFault, Keeper, Link, send_all};
use farm_types::limits::PIECE_MAX;
use farm_types::{Bytes, Host, Outcome, Request};
use std::alloc::{AllocError, Global};

// Sends the text of a request and receives the reply, over a link on which nothing has happened yet.
fn converse<L: Link>(
    alloc: Global,
    text: &[u8],
    link: &mut L,
    room: &mut [u8],
) -> Result<Outcome, Stop>
    requires new { IsNew (L.shows link.old) }
    requires room { 0 < length room.old }
    requires small { length room.old ≤ piece_max }
    ensures passed { (q : Request) (h : Host) → IsFor q h text.now (L.shows link.old)
        → Passed (L.shows link.old) (L.shows link.new) (λ x. ExchangeIs q h (Answers.answer_of result) x × EndsBy (Answers.answer_of result) x) }
    ensures follows { L.follows link.old link.new }
{
    send_all(link, text)?;
    receive_reply(alloc, link, room)
}

fn answer_of(talked: Result<Outcome, Stop>) -> Attempt
    ensures { result ≡ Answers.answer_of talked }
{
    match talked {
        Ok(outcome) => Attempt::Whole(outcome),
        Err(Stop::Broke(cause)) => Attempt::Broke(cause),
        Err(Stop::Memory) => Attempt::Memory { dialed: true },
    }
}

// The text of a request, and room for the pieces of its reply.
fn prepare(alloc: Global, request: &Request) -> Result<(Bytes, Vec<u8>), AllocError>
    requires { RequestFits request.now.words request.now.source }
    ensures text { IfOk result (λ made. made.0 ≡ request_text request.now) }
    ensures room { IfOk result (λ made. length made.1.items ≡ piece_max) }
{
    Ok((encode(alloc, request)?, vec![in alloc; 0; PIECE_MAX]?))
}

/// Makes one exchange with a host: dials, sends the text of the request, receives until what was given is no longer short, and hangs up.
/// The write side is never shut before the reply was read, since distccd stops the job of a client that shuts it. Bytes after a whole reply
/// are ignored. There are at most 35,651,644 receives, through a buffer of `PIECE_MAX` bytes that is made before the dial.
///
/// `Whole` and `Broke` add one exchange to those that the dialer shows. `Memory` adds one exactly if `dialed` is true: the dial had
/// succeeded.
pub fn attempt<D: Dialer>(alloc: Global, request: &Request, host: &Host, dialer: &mut D) -> Attempt
    requires fits { RequestFits request.now.words request.now.source }
    requires remote { host.now.local ≡ false }
    ensures adds { AttemptAdds (D.may_give dialer.new) request.now host.now result (D.shows dialer.old).exchanges (D.shows dialer.new).exchanges }
    ensures may_give { SameRelation (D.may_give dialer.old) (D.may_give dialer.new) }
    ensures later { (D.shows dialer.old).faults ≤ (D.shows dialer.new).faults }
    ensures cause { DialCause result (D.shows dialer.old).faults (D.shows dialer.new).faults }
{
    let Ok((text, mut room)) = prepare(alloc, request) else {
        return Attempt::Memory { dialed: false };
    };
    match dialer.dial(alloc, &host.name, host.port) {
        Ok(mut link) => {
            let talked = converse(alloc, text.as_slice(), &mut link, &mut room);
            dialer.hang_up(link);
            answer_of(talked)
        }
        Err(EdgeFault::Failed) => Attempt::Broke(Cause::Dial),
        Err(EdgeFault::Memory) => Attempt::Memory { dialed: false },
    }
}

// The same, with the object given to a keeper as it comes.
fn converse_into<L: Link, K: Keeper>(
    alloc: Global,
    text: &[u8],
    link: &mut L,
    room: &mut [u8],
    path: &Bytes,
    keeper: &mut K,
) -> Result<(Outcome, Landing), Stop>
    requires new { IsNew (L.shows link.old) }
    requires room { 0 < length room.old }
    requires small { length room.old ≤ piece_max }
    requires idle { IsIdle (K.shows keeper.old) }
    requires name { ¬ (IsStaged path.now) }
    ensures passed { PassedInto result path.now text.now (L.shows link.old) (L.shows link.new) (K.shows keeper.old) (K.shows keeper.new) }
    ensures follows { L.follows link.old link.new }
    ensures stays { KeeperStays (K.shows keeper.old) (K.shows keeper.new) }
{
    send_all(link, text)?;
    receive_into(alloc, link, room, path, keeper)
}

fn landed_of(talked: Result<(Outcome, Landing), Stop>) -> Landed
    ensures { result ≡ Answers.landed_of talked }
{
    match talked {
        Ok((outcome, landing)) => Landed::Whole { outcome, landing },
        Err(Stop::Broke(cause)) => Landed::Broke(cause),
        Err(Stop::Memory) => Landed::Memory { dialed: true },
    }
}

/// Makes one exchange with a host as `attempt` does, and gives the bytes of the object to a put of this path while they come. The object
/// doesn't wait in memory. The keeper isn't asked before the request was sent whole, nor for a reply that has no object.
///
/// After a whole reply of status 0 the put is pending with the whole object, for the caller to commit; or the keeper failed while it was
/// written, and the reply was read to its end all the same. After any other answer no put is pending.
pub fn attempt_into<D: Dialer, K: Keeper>(
    alloc: Global,
    request: &Request,
    host: &Host,
    path: &Bytes,
    dialer: &mut D,
    keeper: &mut K,
) -> Landed
    requires fits { RequestFits request.now.words request.now.source }
    requires remote { host.now.local ≡ false }
    requires idle { IsIdle (K.shows keeper.old) }
    requires name { ¬ (IsStaged path.now) }
    ensures adds { LandedAdds (D.may_give dialer.new) request.now host.now result path.now
        (D.shows dialer.old).exchanges (D.shows dialer.new).exchanges (K.shows keeper.old) (K.shows keeper.new) }
    ensures stays { KeeperStays (K.shows keeper.old) (K.shows keeper.new) }
    ensures unasked { IsUnasked result (K.shows keeper.old) (K.shows keeper.new) }
    ensures may_give { SameRelation (D.may_give dialer.old) (D.may_give dialer.new) }
    ensures later { (D.shows dialer.old).faults ≤ (D.shows dialer.new).faults }
    ensures cause { LandedCause result (D.shows dialer.old).faults (D.shows dialer.new).faults }
{
    let Ok((text, mut room)) = prepare(alloc, request) else {
        return Landed::Memory { dialed: false };
    };
    match dialer.dial(alloc, &host.name, host.port) {
        Ok(mut link) => {
            let talked = converse_into(alloc, text.as_slice(), &mut link, &mut room, path, keeper);
            dialer.hang_up(link);
            landed_of(talked)
        }
        Err(EdgeFault::Failed) => Landed::Broke(Cause::Dial),
        Err(EdgeFault::Memory) => Landed::Memory { dialed: false },
    }
}
