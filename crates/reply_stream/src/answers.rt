//! What a piece of a reply comes to.

use farm_types::Outcome;
use wire_tokens::ReplyFault;

/// The bytes of a piece from one place to another, which are the object's next bytes.
#[derive(Clone, Copy, Debug, PartialEq, Eq)]
pub struct Span {
    pub from: usize,
    pub to: usize,
}

/// What a piece came to.
#[derive(Debug, Drop)]
pub enum Part {
    /// All pieces so far are short: no fault is in them, and no prefix spells a reply. All
    /// bytes of the piece are used.
    More {
        used: usize,
        object: Span,
    },
    /// They spell a reply, with `used` bytes of the last piece. The bytes after these are ignored.
    /// The outcome's own object is empty: its bytes are those of all spans, joined.
    Whole {
        used: usize,
        object: Span,
        outcome: Outcome,
    },
    /// This fault is in them, at this place; places count from the first piece's front.
    Bad {
        at: u64,
        fault: ReplyFault,
    },
    /// Memory ran out.
    Memory,
}
