//! Receiving a reply piece by piece.

ghost use Rattle.std.specs.Prelude.{◌≡◌, ◌<◌, ◌≤◌, ◌++◌, ℕ, List, [], length, IfOk, IfErr};
ghost use Rattle.farm_types.specs.Limits.{piece_max};
ghost use Rattle.reply_stream.specs.Objects;
ghost use Rattle.reply_stream.specs.Reader.{IsAt, IsSpent};
ghost use Rattle.remote_transfer.specs.declared.answers.Stop.TheVariants.{Memory as StopMemory};
ghost use Rattle.remote_transfer.specs.Links.{Given, OnlyReceives, ReplyIs};
ghost use Rattle.remote_transfer.specs.Pieces.{PieceBrought, PieceStops, Received};

use crate::answers::Stop;
use edge_traits::{Cause, EdgeFault, Link};
use farm_types::{Bytes, Outcome};
use reply_stream::{Part, ReplyReader, Span};
use std::alloc::Global;

/// What a piece brought: the span of the object's next bytes in the room, and either the number of bytes in the piece, or the outcome of
/// the whole reply, without its object.
#[derive(Drop)]
pub(crate) enum Brought {
    More { count: usize, object: Span },
    Whole { object: Span, outcome: Outcome },
}

/// Receives one piece into the room, and reads it. `have` bytes were given before.
pub(crate) fn receive_piece<L: Link>(
    link: &mut L,
    room: &mut [u8],
    reader: &mut ReplyReader,
    have: u64,
) -> Result<Brought, Stop>
    requires room { 0 < length room.old }
    requires fresh { IsSpent reader.old → ⊥ }
    ensures read { IfOk result (PieceBrought (L.shows link.old) (L.shows link.new) reader.old reader.new room.new) }
    ensures stops { IfErr result (PieceStops have reader.old (L.shows link.old) (L.shows link.new)) }
    ensures receives { OnlyReceives L.shows L.follows link.old link.new }
{
    let count = match link.recv(room) {
        Ok(0) => return Err(Stop::Broke(Cause::Truncated { have })),
        Ok(count) => count,
        Err(EdgeFault::Failed) => return Err(Stop::Broke(Cause::Recv)),
        Err(EdgeFault::Memory) => return Err(Stop::Memory),
    };
    match reader.feed(&room[..count]) {
        Part::More { object, .. } => Ok(Brought::More { count, object }),
        Part::Whole {
            object,
            outcome,
            ..
        } => Ok(Brought::Whole { object, outcome }),
        Part::Bad { at, fault } => Err(Stop::Broke(Cause::BadReply { at, fault })),
        Part::Memory => Err(Stop::Memory),
    }
}

// Receives a reply, and joins the bytes of its object.
fn receive_joined<L: Link>(
    link: &mut L,
    room: &mut [u8],
    reader: &mut ReplyReader,
    object: &mut Bytes,
) -> Result<Outcome, Stop>
    requires room { 0 < length room.old }
    requires small { length room.old ≤ piece_max }
    requires at { IsAt reader.old [] object.old }
    ensures received { Received result object.new (L.shows link.old) (L.shows link.new) }
    ensures receives { OnlyReceives L.shows L.follows link.old link.new }
{
    let mut have = 0;
    'receiving: loop {
        match receive_piece(link, room, reader, have)? {
            Brought::More {
                count,
                object: span,
            } => {
                object.try_extend(&room[span.from..span.to])?;
                have += count as u64;
            }
            Brought::Whole {
                object: span,
                outcome,
            } => return join_last(object, &room[span.from..span.to], outcome),
        }
    }
}

// Joins the last bytes of an object.
fn join_last(object: &mut Bytes, bytes: &[u8], outcome: Outcome) -> Result<Outcome, Stop>
    ensures ok { IfOk result (λ same. (same ≡ outcome) × (object.new ≡ object.old ++ bytes.now)) }
    ensures memory { IfErr result (λ stop. stop ≡ StopMemory) }
{
    if object.try_extend(bytes).is_err() {
        return Err(Stop::Memory);
    }
    Ok(outcome)
}

/// Receives until what was given is no longer short, through a room for pieces, by at most 35,651,644 receives. A short reply has at most
/// 35,651,643 bytes, and each receive but the last gives at least one.
pub(crate) fn receive_reply<L: Link>(
    alloc: Global,
    link: &mut L,
    room: &mut [u8],
) -> Result<Outcome, Stop>
    requires room { 0 < length room.old }
    requires small { length room.old ≤ piece_max }
    ensures given { Given (ReplyIs result (L.shows link.old) (L.shows link.new)) (L.shows link.old).given (L.shows link.new).given }
    ensures receives { OnlyReceives L.shows L.follows link.old link.new }
{
    let mut reader = ReplyReader::new(alloc);
    let mut object = Bytes::new(alloc);
    let received = receive_joined(link, room, &mut reader, &mut object);
    drop(reader);
    match received {
        Ok(outcome) => Ok(with_object(outcome, object)),
        Err(stop) => Err(stop),
    }
}

// The outcome with this object.
fn with_object(outcome: Outcome, object: Bytes) -> Outcome
    ensures { result ≡ Objects.with_object outcome object }
{
    Outcome {
        status: outcome.status,
        err: outcome.err,
        out: outcome.out,
        object,
    }
}
