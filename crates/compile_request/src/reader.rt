//! Reading a request in pieces.

ghost use Rattle.std.specs.Prelude.{◌≡◌, ◌↔◌, ◌++◌, ◌-◌, length, IsTrue, ℕ, List, []};
ghost use Rattle.farm_types.specs.declared.request.Request.{Request};
ghost use Rattle.wire_tokens.specs.declared.faults.RequestFault.{RequestFault};
ghost use Rattle.wire_tokens.specs.Request.{BeginsRequest, RequestFaultStands, IsShortRequest};
ghost use Rattle.compile_request.specs.Reader.{Place, IsAt, IsSpent, IsUnlessMemory, Says, Leaves, Repeats, place_of, IsSound};

use crate::part::Part;
use crate::partial::{Partial, Turn, run};
use farm_types::{Bytes, Request, Words};
use std::alloc::Global;
use std::marker::Model;
use wire_tokens::{PartialToken, RequestFault};

/// The result of a piece.
#[derive(Debug, Drop)]
pub enum Step {
    /// All pieces so far are short: they have no fault, and no prefix spells a request.
    More,
    /// They spell the request, with `used` bytes of the last piece. The bytes after these are
    /// ignored.
    Whole { request: Request, used: usize },
    /// They have this fault, at this place; places count from the first piece's front.
    Bad { at: u64, fault: RequestFault },
    /// Memory ran out.
    Memory,
}

/// What a reader keeps. A reader that refused, or is spent, keeps no bytes.
#[derive(Debug, Drop)]
pub enum State {
    Reading(Partial),
    Refused { at: u64, fault: RequestFault },
    Spent,
}

/// Reads a request that comes in pieces of any size. After a fault it returns that fault for every
/// later piece; after a whole request or lack of memory it is spent.
#[derive(Debug, Drop)]
pub struct RequestReader {
    state: State,
    alloc: Global,
}

impl Model for RequestReader {
    ghost Value = { Place };

    ghost view = { λ r. place_of r.state };

    ghost invariant = { λ r. IsSound r.state };
}

impl RequestReader {
    /// A reader that was given nothing. It takes no memory.
    pub fn new(alloc: Global) -> RequestReader
        ensures at { IsAt result [] }
        ensures fresh { IsSpent result → ⊥ }
    {
        let partial = Partial {
            part: Part::Dist,
            count: 0,
            together: 0,
            words: Words::new(alloc),
            token: PartialToken::new(),
            number: 0,
            left: 0,
            body: Bytes::new(alloc),
        };
        RequestReader {
            state: State::Reading(partial),
            alloc,
        }
    }

    /// Whether a request was read, or memory ran out. It takes no memory.
    pub fn is_spent(&self) -> bool
        ensures { IsTrue result ↔ IsSpent self.now }
    {
        matches!(self.state, State::Spent)
    }

    /// Takes the next piece, of any length. The work is linear in that length.
    pub fn feed(&mut self, piece: &[u8]) -> Step
        requires { IsSpent self.old → ⊥ }

        // `text` is all the pieces before this one. The result is the request that a prefix of
        // them and this piece spells, their fault, or that all of it is short.
        ensures says { (text : List ℕ) → IsAt self.old text → Says text piece.now result }

        // A request that a prefix spells is the result, unless memory runs out.
        ensures whole { (text : List ℕ) (used : ℕ) (q : Request) → IsAt self.old text
            → BeginsRequest (text ++ piece.now) used q → IsUnlessMemory result (Step.Whole q (used - length text)) }
        // The fault of the text is the result, unless memory runs out.
        ensures bad { (text : List ℕ) (at : ℕ) (fault : RequestFault) → IsAt self.old text
            → RequestFaultStands (text ++ piece.now) at fault → IsUnlessMemory result (Step.Bad at fault) }
        // `More` is the result if all of it is short, unless memory runs out.
        ensures short { (text : List ℕ) → IsAt self.old text
            → IsShortRequest (text ++ piece.now) → IsUnlessMemory result Step.More }

        ensures leaves { (text : List ℕ) → IsAt self.old text → Leaves text piece.now result self.new }
        ensures repeats { Repeats self.old result self.new }
    {
        feed_state(self.alloc, &mut self.state, piece)
    }
}

fn feed_state(alloc: Global, state: &mut State, piece: &[u8]) -> Step
    requires sound { IsSound state.old }
    requires fresh { IsSpent (place_of state.old) → ⊥ }
    ensures sound { IsSound state.new }
    ensures says { (text : List ℕ) → IsAt (place_of state.old) text → Says text piece.now result }
    ensures leaves { (text : List ℕ) → IsAt (place_of state.old) text → Leaves text piece.now result (place_of state.new) }
    ensures repeats { Repeats (place_of state.old) result (place_of state.new) }
{
    let partial = match state {
        State::Reading(partial) => partial,
        State::Refused { at, fault } => {
            return Step::Bad {
                at: *at,
                fault: *fault,
            };
        }
        State::Spent => unreachable!(),
    };
    match run(alloc, partial, piece) {
        Turn::More { .. } => Step::More,
        Turn::Whole { request, taken } => {
            *state = State::Spent;
            Step::Whole {
                request,
                used: taken,
            }
        }
        Turn::Bad { at, fault } => {
            *state = State::Refused { at, fault };
            Step::Bad { at, fault }
        }
        Turn::Memory => {
            *state = State::Spent;
            Step::Memory
        }
    }
}
