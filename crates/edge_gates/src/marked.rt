//! Whether a mark is set, and the rule of what each of its users knows.
ghost use Rattle.std.specs.Prelude.{◌≡◌};
ghost use Rattle.edge_gates.specs.MarkRule.{marks_of};

use crossbeam_utils::atomic::seq_cell::Words;
use crossbeam_utils::rule::{Outcome, Protocol};
use std::collections::LinkedList;

/// Whether a mark is set.
#[derive(Clone, Copy, PartialEq, Eq)]
pub enum Marked {
    Clear,
    Set,
}

impl Marked {
    /// How many users are inside.
    pub(crate) fn number(self) -> u64
        ensures { result ≡ marks_of self }
    {
        match self {
            Marked::Clear => 0,
            Marked::Set => 1,
        }
    }
}

impl Words<1> for Marked {
    ghost use Rattle.std.specs.Prelude.{[], ◌∷◌};
    ghost use Rattle.edge_gates.specs.MarkRule.{marks_of};

    ghost words = { λ marked. marks_of marked ∷ [] };

    fn to_words(self) -> [u64; 1] {
        [self.number()]
    }

    fn from_words(bits: &[u64; 1]) -> Marked {
        match bits[0] {
            0 => Marked::Clear,
            _ => Marked::Set,
        }
    }
}

/// What a user met that tried to enter.
#[derive(Clone, Copy, PartialEq, Eq)]
pub enum Turn {
    Entered,
    Refused,
}

/// What a user of a mark knows: whether it is inside, and what its tries met. No value of it is made.
pub struct MarkView {
    pub inside: bool,
    pub turns: LinkedList<Turn>,
}

/// The rule of a mark.
pub struct OneInside;

impl Protocol<Marked, MarkView> for OneInside {
    ghost use Rattle.edge_gates.specs.MarkRule.{KeptAt, outsider};

    ghost holds = { KeptAt };

    ghost first = { outsider };
}

/// The user enters if the mark is clear, and is refused if it is set.
pub struct Enters;

impl Outcome<Marked, MarkView> for Enters {
    ghost use Rattle.edge_gates.specs.MarkRule.{EntersAt};

    ghost then = { EntersAt };
}

/// The user leaves.
pub struct Leaves;

impl Outcome<Marked, MarkView> for Leaves {
    ghost use Rattle.edge_gates.specs.MarkRule.{LeavesAt};

    ghost then = { LeavesAt };
}
