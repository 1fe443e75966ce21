//! How many have asked at a gate, and the rule of what each of its users knows.
ghost use Rattle.std.specs.Prelude.{◌≡◌};
ghost use Rattle.edge_gates.specs.GateRule.{number_of};

use crossbeam_utils::atomic::seq_cell::Words;
use crossbeam_utils::rule::{Outcome, Protocol};

/// How many users have asked at a gate.
#[derive(Clone, Copy, PartialEq, Eq)]
pub enum Asked {
    Nobody,
    One,
    Several,
}

impl Asked {
    /// At least this many have asked: 0, 1 or 2.
    pub(crate) fn number(self) -> u64
        ensures { result ≡ number_of self }
    {
        match self {
            Asked::Nobody => 0,
            Asked::One => 1,
            Asked::Several => 2,
        }
    }
}

impl Words<1> for Asked {
    ghost use Rattle.std.specs.Prelude.{[], ◌∷◌};
    ghost use Rattle.edge_gates.specs.GateRule.{number_of};

    ghost words = { λ asked. number_of asked ∷ [] };

    fn to_words(self) -> [u64; 1] {
        [self.number()]
    }

    fn from_words(bits: &[u64; 1]) -> Asked {
        match bits[0] {
            0 => Asked::Nobody,
            1 => Asked::One,
            _ => Asked::Several,
        }
    }
}

/// Which of a gate's users one is, by the order in which they asked.
#[derive(Clone, Copy, PartialEq, Eq)]
pub enum Place {
    NotYet,
    First,
    Later,
}

/// What a user of a gate knows: its place, how many had asked when it last looked, and how often it has looked. No value
/// of it is made.
pub struct GateView {
    pub place: Place,
    pub seen: Asked,
    pub looks: u64,
}

/// The rule of a gate.
pub struct AskInTurn;

impl Protocol<Asked, GateView> for AskInTurn {
    ghost use Rattle.edge_gates.specs.GateRule.{KeptAt, newcomer};

    ghost holds = { KeptAt };

    ghost first = { newcomer };
}

/// The user looks.
pub struct Looks;

impl Outcome<Asked, GateView> for Looks {
    ghost use Rattle.edge_gates.specs.GateRule.{LooksAt};

    ghost then = { LooksAt };
}

/// The user asks if nobody has. If somebody has, it sees so.
pub struct AsksFirst;

impl Outcome<Asked, GateView> for AsksFirst {
    ghost use Rattle.edge_gates.specs.GateRule.{AsksFirstAt};

    ghost then = { AsksFirstAt };
}

/// The user asks after somebody else has.
pub struct AsksLater;

impl Outcome<Asked, GateView> for AsksLater {
    ghost use Rattle.edge_gates.specs.GateRule.{AsksLaterAt};

    ghost then = { AsksLaterAt };
}
