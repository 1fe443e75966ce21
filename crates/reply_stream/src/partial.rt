//! What has come of a reply.

ghost use Rattle.std.specs.Prelude.{◌≡◌, ◌≤◌, ◌+◌, ◌<◌, ◌∷◌, [], ℕ, length, take, false, true};
ghost use Rattle.reply_stream.specs.Parts as parts;
ghost use Rattle.reply_stream.specs.Taking.{Holds, IsReady, Finishes, GoesOn, Says, TakesSome, TakesHead, TakesAll, Counts, keeps, hands, EndsWithin, part_from, Runs};

use crate::{Part, Span};
use compile_reply::{Part as Token, body_len, name_of, refusal};
use farm_types::{Bytes, Outcome};
use std::alloc::Global;
use std::mem;
use wire_tokens::{PartialToken, ReplyFault};

/// The fields that have come, and what has come of the next one. Of the object's bytes only their
/// number is kept.
#[derive(Debug, Drop)]
pub struct Partial {
    pub part: Token,
    pub status: u32,
    pub err: Bytes,
    pub out: Bytes,
    pub token: PartialToken,
    /// The token's number, once it is there.
    pub number: u32,
    /// How many bytes of the body are still to come.
    pub left: usize,
    /// How many bytes of the object have come.
    pub given: usize,
    pub body: Bytes,
}

/// What a turn came to.
#[derive(Debug, Drop)]
pub enum Turn {
    /// That many bytes were taken, and the reply isn't whole yet.
    More { taken: usize },
    /// The reply is whole with that many bytes.
    Whole { outcome: Outcome, taken: usize },
    /// This fault is in what came, at this place of the whole text.
    Bad { at: u64, fault: ReplyFault },
    /// Memory ran out.
    Memory,
}

// Whether the bytes that come next are the object's.
fn is_at_object(p: &Partial) -> bool
    ensures { result ≡ parts.is_at_object p.now.part p.now.left }
{
    p.left > 0 && matches!(p.part, Token::Doto { .. })
}

// The place at which the field begins that is on its way.
fn place(p: &Partial) -> u64
    requires { Counts p.now }
    ensures place { result ≡ parts.bytes_before p.now.part p.now.err p.now.out }
    ensures small { result ≤ 3000000 }
{
    match p.part {
        Token::Done => 0,
        Token::Stat => 12,
        Token::Serr => 24,
        Token::Sout => 36 + p.err.len() as u64,
        Token::Doto { .. } => 48 + p.err.len() as u64 + p.out.len() as u64,
    }
}

// Takes the field that is whole, whose last bytes are the last of these.
fn finish(alloc: Global, p: &mut Partial, n: u32, taken: usize) -> Turn
    requires { IsReady p.old n }
    ensures finishes { Finishes p.old p.new taken result }
    ensures goes_on { GoesOn p.old.part result }
{
    let body = mem::replace(&mut p.body, Bytes::new(alloc));
    p.token = PartialToken::new();
    p.left = 0;
    match p.part {
        Token::Done => {
            p.part = Token::Stat;
            Turn::More { taken }
        }
        Token::Stat => {
            p.status = n;
            p.part = Token::Serr;
            Turn::More { taken }
        }
        Token::Serr => {
            p.err = body;
            p.part = Token::Sout;
            Turn::More { taken }
        }
        Token::Sout => {
            p.out = body;
            p.part = Token::Doto { status: p.status };
            Turn::More { taken }
        }
        Token::Doto { .. } => {
            let err = mem::replace(&mut p.err, Bytes::new(alloc));
            let out = mem::replace(&mut p.out, Bytes::new(alloc));
            let outcome = Outcome {
                status: p.status,
                err,
                out,
                object: body,
            };
            Turn::Whole { outcome, taken }
        }
    }
}

// Takes one byte of a token.
fn token_byte(alloc: Global, p: &mut Partial, byte: u8) -> Turn
    requires holds { Holds p.old }
    requires in_token { p.old.left ≡ 0 }
    ensures says { Says keeps p.old p.new (byte ∷ []) result }
    ensures some { TakesSome result }
{
    let at = place(p);
    match p.token.take(byte, name_of(p.part)) {
        Ok(None) => Turn::More { taken: 1 },
        Err(fault) => Turn::Bad {
            at: at + u64::from(fault.at()),
            fault: ReplyFault::from(fault),
        },
        Ok(Some(n)) => {
            if let Some(fault) = refusal(p.part, n) {
                return Turn::Bad { at: at + 11, fault };
            }
            p.number = n;
            p.left = body_len(p.part, n);
            if p.left > 0 {
                return Turn::More { taken: 1 };
            }
            finish(alloc, p, n, 1)
        }
    }
}

// Takes bytes of a message.
fn body_bytes(alloc: Global, p: &mut Partial, piece: &[u8]) -> Turn
    requires holds { Holds p.old }
    requires in_body { 0 < p.old.left }
    requires kept { parts.is_at_object p.old.part p.old.left ≡ false }
    requires some { 0 < length piece.now }
    ensures says { Says keeps p.old p.new piece.now result }
    ensures some { TakesSome result }
{
    let taken = p.left.min(piece.len());
    if p.body.try_extend(&piece[..taken]).is_err() {
        return Turn::Memory;
    }
    p.left -= taken;
    if p.left > 0 {
        return Turn::More { taken };
    }
    finish(alloc, p, p.number, taken)
}

// Takes bytes of the object, which are counted and not kept.
fn object_bytes(alloc: Global, p: &mut Partial, piece: &[u8]) -> Turn
    requires holds { Holds p.old }
    requires at_object { parts.is_at_object p.old.part p.old.left ≡ true }
    ensures says { Says (hands piece.now) p.old p.new piece.now result }
    ensures all { TakesAll piece.now result }
{
    let taken = p.left.min(piece.len());
    p.left -= taken;
    p.given += taken;
    if p.left > 0 {
        return Turn::More { taken };
    }
    finish(alloc, p, p.number, taken)
}

// Takes some bytes from the front of a piece.
fn take_some(alloc: Global, p: &mut Partial, piece: &[u8]) -> Turn
    requires holds { Holds p.old }
    requires kept { parts.is_at_object p.old.part p.old.left ≡ false }
    requires some { 0 < length piece.now }
    ensures says { Says keeps p.old p.new piece.now result }
    ensures some { TakesSome result }
{
    if p.left > 0 {
        body_bytes(alloc, p, piece)
    } else {
        token_byte(alloc, p, piece[0])
    }
}

// Takes a piece, up to the front of the object's bytes or the end of the reply.
fn run_head(alloc: Global, p: &mut Partial, piece: &[u8]) -> Turn
    requires { Holds p.old }
    ensures says { Says keeps p.old p.new piece.now result }
    ensures head { TakesHead p.new piece.now result }
{
    let mut done = 0;
    while done < piece.len() {
        if is_at_object(p) {
            return Turn::More { taken: done };
        }
        match take_some(alloc, p, &piece[done..]) {
            Turn::More { taken } => done += taken,
            Turn::Whole { outcome, taken } => {
                return Turn::Whole {
                    outcome,
                    taken: done + taken,
                };
            }
            Turn::Bad { at, fault } => return Turn::Bad { at, fault },
            Turn::Memory => return Turn::Memory,
        }
    }
    Turn::More { taken: done }
}

/// Takes a piece, up to the end of the reply.
pub fn run(alloc: Global, p: &mut Partial, piece: &[u8]) -> Part
    requires { Holds p.old }
    ensures { Runs p.old p.new piece.now result }
{
    let from = match run_head(alloc, p, piece) {
        Turn::More { taken } => taken,
        Turn::Whole { outcome, taken } => {
            let object = Span {
                from: taken,
                to: taken,
            };
            return Part::Whole {
                used: taken,
                object,
                outcome,
            };
        }
        Turn::Bad { at, fault } => return Part::Bad { at, fault },
        Turn::Memory => return Part::Memory,
    };
    if !is_at_object(p) {
        let object = Span { from, to: from };
        return Part::More { used: from, object };
    }
    object_part(object_bytes(alloc, p, &piece[from..]), from)
}

// The part of a turn that took bytes of the object, from this place of the piece on.
fn object_part(turn: Turn, from: usize) -> Part
    requires { EndsWithin from turn }
    ensures { result ≡ part_from from turn }
{
    match turn {
        Turn::More { taken } => {
            let to = from + taken;
            let object = Span { from, to };
            Part::More { used: to, object }
        }
        Turn::Whole { outcome, taken } => {
            let to = from + taken;
            let object = Span { from, to };
            Part::Whole {
                used: to,
                object,
                outcome,
            }
        }
        Turn::Bad { at, fault } => Part::Bad { at, fault },
        Turn::Memory => Part::Memory,
    }
}
