ghost use Rattle.std.specs.Prelude.{◌≡◌, ◌<◌, ◌≤◌, ◌||◌, length, IfOk};
ghost use Rattle.edge_traits.specs.Told.{Grew};
ghost use Rattle.edge_traits.specs.Causes.{HasCause};
ghost use Rattle.edge_traits.specs.Links.{moved, moved_none};
ghost use Rattle.edge_traits.specs.Sinks.{SinkView};

use crate::EdgeFault;

/// Takes a text, piece by piece.
pub trait Sink {
    /// What it shows of its past.
    ghost shows: { Self → SinkView };

    /// Writes the front of the piece, and answers how many bytes were taken. One that takes 0 stops the sink.
    fn write(&mut self, piece: &[u8]) -> Result<usize, EdgeFault>
        requires { 0 < length piece.now }
        ensures bound { IfOk result (λ n. n ≤ length piece.now) }
        ensures written { Grew (shows self.old).written (shows self.new).written (moved result piece.now) }
        ensures stopped { (shows self.new).stopped ≡ ((shows self.old).stopped || moved_none result) }
        ensures cause { HasCause (shows self.old).faults (shows self.new).faults result };
}
