//! The connections of a desk's callers.
ghost use Rattle.std.specs.Prelude.{List, ◌∷◌, []};
ghost use Rattle.edge_traits.specs.Told.{Grew, Told};
ghost use Rattle.desk_service.specs.Connections.{Closed, Entry, came_entries, reply_entries};

use slot_desk::Reply;

/// What comes from the connections. Moments are in seconds, of one clock.
#[derive(Drop)]
pub enum Came {
    /// A caller's line, without its line feed. Callers have numbers, and none is used again.
    Line {
        caller: u32,
        line: Vec<u8>,
        now: u64,
    },
    /// A caller is gone, or was given up.
    Left {
        caller: u32,
        now: u64,
    },
    /// Some time has passed.
    Time {
        now: u64,
    },
    /// The command has ended.
    Ended,
}

/// The connections of a desk's callers.
pub trait Callers {
    /// What came and what was answered, in order.
    ghost log: { Self → Told (List Entry) };

    /// What comes next. It may wait.
    fn next(&mut self) -> Came
        ensures came { Grew (log self.old) (log self.new) (came_entries result) };

    /// Says to a caller what the desk answers.
    fn answer(&mut self, reply: Reply)
        ensures told { Grew (log self.old) (log self.new) (reply_entries reply) };

    /// Closes the connection of a caller.
    fn close(&mut self, caller: u32)
        ensures closed { Grew (log self.old) (log self.new) (Closed caller ∷ []) };
}
