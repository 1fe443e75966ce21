ghost use Rattle.std.specs.Prelude.{◌≡◌, []};

use crate::Moves;
use crate::sink::MemSink;
use edge_traits::{EdgeFault, Sink, none_of};
use std::alloc::Global;

/// A sink that keeps what is written and never fails.
#[derive(Drop)]
pub struct MemNeverSink {
    inner: MemSink,
    ghost never: { inner.calls.fails ≡ [] },
}

impl MemNeverSink {
    ghost use Rattle.std.specs.Prelude.{◌≡◌, [], false};
    ghost use Rattle.edge_memory.specs.Scripts.{never_moves};
    ghost use Rattle.edge_memory.specs.Nevers.{never_sink_state};

    /// A sink to which nothing was written. It takes no memory.
    pub fn new(alloc: Global, moves: Moves) -> MemNeverSink
        ensures { never_sink_state result ≡ record { moves = never_moves moves; made = 0; written = []; stopped = false } }
    {
        let Moves { fails, zeros, most } = moves;
        let moves = Moves {
            fails: none_of(fails),
            zeros,
            most,
        };
        MemNeverSink {
            inner: MemSink::new(alloc, moves),
        }
    }

    /// What was written so far.
    pub fn written(&self) -> &[u8]
        ensures { result.now ≡ (never_sink_state self.now).written }
    {
        self.inner.written()
    }
}

impl Sink for MemNeverSink {
    ghost use Rattle.std.specs.Prelude.{◌≡◌, ◌<◌, length, IsErrOf};
    ghost use Rattle.edge_traits.specs.declared.faults.EdgeFault.TheVariants.{Failed};
    ghost use Rattle.edge_memory.specs.Moving.{IsNextAnswer};
    ghost use Rattle.edge_memory.specs.Sinks.{after_write};
    ghost use Rattle.edge_memory.specs.Nevers.{never_sink_state, never_sink_shows};

    ghost shows = { λ s. never_sink_shows (never_sink_state s) };

    #[tactic(auto, using(edge_traits::proofs::Counting::nevers))]
    fn write(&mut self, piece: &[u8]) -> Result<usize, EdgeFault>
        requires { 0 < length piece.now }
        ensures answer { IsNextAnswer (never_sink_state self.old).moves (never_sink_state self.old).made (length piece.now) result }
        ensures never { ¬ (IsErrOf result Failed) }
        ensures state { never_sink_state self.new ≡ after_write (never_sink_state self.old) piece.now result }
    {
        self.inner.write(piece)
    }
}
