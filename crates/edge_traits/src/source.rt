ghost use Rattle.std.specs.Prelude.{◌≡◌, ◌<◌, ◌≤◌, ◌||◌, [], length, IsTrue, IfOk};
ghost use Rattle.edge_traits.specs.Told.{Grew};
ghost use Rattle.edge_traits.specs.Causes.{HasCause};
ghost use Rattle.edge_traits.specs.Links.{moved, moved_none};
ghost use Rattle.edge_traits.specs.Sources.{SourceView, Lost};

use crate::EdgeFault;

/// Gives a text, piece by piece.
pub trait Source {
    /// What it shows of its past.
    ghost shows: { Self → SourceView };

    /// Puts bytes at the start of the room, and answers how many. 0 is the end: nothing is left.
    fn read(&mut self, room: &mut [u8]) -> Result<usize, EdgeFault>
        requires { 0 < length room.old }
        ensures bound { IfOk result (λ n. n ≤ length room.old) }
        ensures read { Grew (shows self.old).read (shows self.new).read (moved result room.new) }
        ensures left { Lost (shows self.old).left (shows self.new).left (moved result room.new) }
        ensures ended { (shows self.new).ended ≡ ((shows self.old).ended || moved_none result) }
        ensures end { IsTrue (moved_none result) → IsTrue (shows self.new).left.known → (shows self.new).left.value ≡ [] }
        ensures cause { HasCause (shows self.old).faults (shows self.new).faults result };
}
