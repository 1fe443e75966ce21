//! Reading a reply in pieces.

ghost use Rattle.std.specs.Prelude.{◌≡◌, ◌↔◌, ◌++◌, ◌-◌, length, IsTrue, ℕ, List, []};
ghost use Rattle.farm_types.specs.declared.ran.Outcome.{Outcome};
ghost use Rattle.wire_tokens.specs.declared.faults.ReplyFault.{ReplyFault};
ghost use Rattle.wire_tokens.specs.Reply.{BeginsReply, ReplyFaultStands, IsShortReply};
ghost use Rattle.reply_stream.specs.Reader.{Place, IsAt, IsSpent, Uses, Says, Joins, IsWholeWith, IsBadAt, IsMore, Leaves, Repeats, place_of, IsSound};

use crate::Part;
use crate::partial::{Partial, run};
use compile_reply::Part as Token;
use farm_types::Bytes;
use std::alloc::Global;
use std::marker::Model;
use wire_tokens::{PartialToken, ReplyFault};

/// What a reader keeps. A reader that refused, or is spent, keeps no bytes.
#[derive(Debug, Drop)]
pub enum State {
    Reading(Partial),
    Refused { at: u64, fault: ReplyFault },
    Spent,
}

/// Reads a reply that comes in pieces of any size, and keeps no bytes of its object. After a fault
/// it answers that fault to every later piece; after a whole reply or lack of memory it is spent.
#[derive(Debug, Drop)]
pub struct ReplyReader {
    state: State,
    alloc: Global,
}

impl Model for ReplyReader {
    ghost Value = { Place };

    ghost view = { λ r. place_of r.state };

    ghost invariant = { λ r. IsSound r.state };
}

impl ReplyReader {
    /// A reader that was given nothing. It takes no memory.
    pub fn new(alloc: Global) -> ReplyReader
        ensures at { IsAt result [] [] }
        ensures fresh { IsSpent result → ⊥ }
    {
        let partial = Partial {
            part: Token::Done,
            status: 0,
            err: Bytes::new(alloc),
            out: Bytes::new(alloc),
            token: PartialToken::new(),
            number: 0,
            left: 0,
            given: 0,
            body: Bytes::new(alloc),
        };
        ReplyReader {
            state: State::Reading(partial),
            alloc,
        }
    }

    /// Whether a reply was read, or memory ran out. It takes no memory.
    pub fn is_spent(&self) -> bool
        ensures { IsTrue result ↔ IsSpent self.now }
    {
        matches!(self.state, State::Spent)
    }

    /// Takes the next piece, of any length. The work is linear in that length.
    pub fn feed(&mut self, piece: &[u8]) -> Part
        requires { IsSpent self.old → ⊥ }
        ensures uses { Uses piece.now result }

        // Here text is all the pieces before this one, and object is what their spans joined.
        // `Whole` has the outcome that a prefix spells, its object being all spans joined. `Bad`
        // has the fault of all that came. `More` says that all of it is short.
        ensures says { (text object : List ℕ) → IsAt self.old text object → Says text object piece.now result }
        // With `More` the spans joined are the object so far.
        ensures joined { (text object : List ℕ) → IsAt self.old text object → Joins text object piece.now result }

        // Unless memory ran out, it is `Whole` if a prefix spells a reply,
        ensures whole { (text object : List ℕ) (used : ℕ) (o : Outcome) → IsAt self.old text object
            → BeginsReply (text ++ piece.now) used o → IsWholeWith object piece.now (used - length text) o result }
        // `Bad` if the text has a fault,
        ensures bad { (text object : List ℕ) (at : ℕ) (fault : ReplyFault) → IsAt self.old text object
            → ReplyFaultStands (text ++ piece.now) at fault → IsBadAt at fault result }
        // and `More` if all of it is short.
        ensures short { (text object : List ℕ) → IsAt self.old text object → IsShortReply (text ++ piece.now) → IsMore result }

        ensures leaves { (text object : List ℕ) → IsAt self.old text object → Leaves text object piece.now result self.new }
        ensures repeats { Repeats self.old result self.new }
    {
        feed_state(self.alloc, &mut self.state, piece)
    }
}

fn feed_state(alloc: Global, state: &mut State, piece: &[u8]) -> Part
    requires sound { IsSound state.old }
    requires fresh { IsSpent (place_of state.old) → ⊥ }
    ensures sound { IsSound state.new }
    ensures uses { Uses piece.now result }
    ensures says { (text object : List ℕ) → IsAt (place_of state.old) text object → Says text object piece.now result }
    ensures joined { (text object : List ℕ) → IsAt (place_of state.old) text object → Joins text object piece.now result }
    ensures leaves { (text object : List ℕ) → IsAt (place_of state.old) text object → Leaves text object piece.now result (place_of state.new) }
    ensures repeats { Repeats (place_of state.old) result (place_of state.new) }
{
    let partial = match state {
        State::Reading(partial) => partial,
        State::Refused { at, fault } => {
            return Part::Bad {
                at: *at,
                fault: *fault,
            };
        }
        State::Spent => unreachable!(),
    };
    match run(alloc, partial, piece) {
        Part::More { used, object } => Part::More { used, object },
        Part::Whole {
            used,
            object,
            outcome,
        } => {
            *state = State::Spent;
            Part::Whole {
                used,
                object,
                outcome,
            }
        }
        Part::Bad { at, fault } => {
            *state = State::Refused { at, fault };
            Part::Bad { at, fault }
        }
        Part::Memory => {
            *state = State::Spent;
            Part::Memory
        }
    }
}
