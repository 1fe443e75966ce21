//! Reading a reply.

ghost use Rattle.std.specs.Prelude.{◌≡◌, ◌≤◌, ◌+◌, ℕ, length, IfOk};
ghost use Rattle.farm_types.specs.declared.ran.Outcome.{Outcome};
ghost use Rattle.wire_tokens.specs.declared.faults.ReplyFault.{ReplyFault};
ghost use Rattle.wire_tokens.specs.Reply.{reply_format, BeginsReply, IsShortReply, ReplyFaultStands};
ghost use Rattle.wire_tokens.specs.Step.{next_of};
ghost use Rattle.compile_reply.specs.Decoding.{due_of, Gives, field_of, outcome_in, stop_reply, reply_of, Says, IsWholeUnlessMemory};

use crate::part::{Part, body_len, name_of, refusal};
use farm_types::{Bytes, Outcome};
use std::alloc::{AllocError, Global};
use wire_tokens::{ReplyFault, Scan, scan_token};

/// What a text of a reply is.
#[derive(Debug, Drop)]
pub enum Reply {
    /// Its first `used` bytes spell the outcome.
    Whole { outcome: Outcome, used: usize },
    /// It has no fault, and no prefix spells an outcome: it is cut, or more is to come.
    Short,
    /// It has this fault, at this place; places count its bytes from 0.
    Bad { at: u64, fault: ReplyFault },
    /// It begins with a whole reply, and memory ran out.
    Memory,
}

/// Why no outcome is read.
#[derive(Debug, Drop)]
pub enum Stop {
    Short,
    Bad { at: u64, fault: ReplyFault },
}

/// The parts of a reply at the front of a text, and how many bytes they are.
#[derive(Clone, Copy)]
pub struct Parts<'a> {
    pub status: u32,
    pub err: &'a [u8],
    pub out: &'a [u8],
    pub object: &'a [u8],
    pub used: usize,
}

// The field that is due at the front of the rest of a text: its number, its bytes, and what follows them.
#[tactic(auto, unfolding(wire_tokens::specs::Step::next_of, wire_tokens::specs::Step::step_of))]
fn next<'a>(text: &[u8], rest: &'a [u8], part: Part) -> Result<(u32, &'a [u8], &'a [u8]), Stop>
    requires { length rest.now ≤ length text.now }
    ensures exact { Gives (λ x. (field_of x.0 x.1.now, x.2.now)) result (next_of reply_format text.now (due_of part) rest.now) }
    ensures shorter { IfOk result (λ x. length x.2.now ≤ length rest.now) }
{
    let at = (text.len() - rest.len()) as u64;
    match scan_token(rest, name_of(part)) {
        Scan::Short => Err(Stop::Short),
        Scan::WrongName(place) => Err(Stop::Bad {
            at: at + u64::from(place),
            fault: ReplyFault::WrongName,
        }),
        Scan::BadDigit(place) => Err(Stop::Bad {
            at: at + u64::from(place),
            fault: ReplyFault::BadDigit,
        }),
        Scan::Number(n) => {
            if let Some(fault) = refusal(part, n) {
                return Err(Stop::Bad { at: at + 11, fault });
            }
            let len = body_len(part, n);
            if rest.len() < 12 + len {
                return Err(Stop::Short);
            }
            let (_, after) = rest.split_at(12);
            let (body, after) = after.split_at(len);
            Ok((n, body, after))
        }
    }
}

#[tactic(auto, unfolding(crate::specs::Decoding::reply_of))]
fn parts_of(text: &[u8]) -> Result<Parts<'_>, Stop>
    ensures { Gives outcome_in result (reply_of text.now) }
{
    let (_, _, rest) = next(text, text, Part::Done)?;
    let (status, _, rest) = next(text, rest, Part::Stat)?;
    let (_, err, rest) = next(text, rest, Part::Serr)?;
    let (_, out, rest) = next(text, rest, Part::Sout)?;
    let (_, object, rest) = next(text, rest, Part::Doto { status })?;
    let used = text.len() - rest.len();
    Ok(Parts {
        status,
        err,
        out,
        object,
        used,
    })
}

fn outcome_of(alloc: Global, parts: &Parts) -> Result<Outcome, AllocError>
    ensures { IfOk result (λ outcome. outcome ≡ (outcome_in parts.now).0) }
{
    Ok(Outcome {
        status: parts.status,
        err: Bytes::from_slice(alloc, parts.err)?,
        out: Bytes::from_slice(alloc, parts.out)?,
        object: Bytes::from_slice(alloc, parts.object)?,
    })
}

fn whole(alloc: Global, parts: &Parts) -> Reply
    ensures { IsWholeUnlessMemory (outcome_in parts.now).0 (outcome_in parts.now).1 result }
{
    match outcome_of(alloc, parts) {
        Ok(outcome) => Reply::Whole {
            outcome,
            used: parts.used,
        },
        Err(_) => Reply::Memory,
    }
}

fn stopped(stop: Stop) -> Reply
    ensures { result ≡ stop_reply stop }
{
    match stop {
        Stop::Short => Reply::Short,
        Stop::Bad { at, fault } => Reply::Bad { at, fault },
    }
}

fn said(alloc: Global, text: &[u8]) -> Reply
    ensures { Says text.now result }
{
    match parts_of(text) {
        Ok(parts) => whole(alloc, &parts),
        Err(stop) => stopped(stop),
    }
}

/// Reads a reply at the front of a text. Bytes that follow it are ignored. Memory may run out only for a text that begins
/// with a whole reply.
pub fn decode(alloc: Global, text: &[u8]) -> Reply
    // The result is the outcome that a prefix spells, the fault of the text, or that the text is short.
    ensures says { Says text.now result }
    // An outcome that a prefix spells is the result, unless memory runs out.
    ensures whole { (used : ℕ) (o : Outcome) → BeginsReply text.now used o → IsWholeUnlessMemory o used result }
    // The fault of the text is the result.
    ensures bad { (at : ℕ) (fault : ReplyFault) → ReplyFaultStands text.now at fault → result ≡ Reply.Bad at fault }
    // `Short` is the result if the text is short.
    ensures short { IsShortReply text.now → result ≡ Reply.Short }
{
    said(alloc, text)
}
