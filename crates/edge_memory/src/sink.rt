use crate::Moves;
use crate::moving::next_count;
use edge_traits::{CallNumbers, Calls, EdgeFault, Sink};
use farm_types::Bytes;
use std::alloc::Global;

/// A sink that keeps what is written.
#[derive(Drop)]
pub struct MemSink {
    zeros: CallNumbers,
    most: u32,
    calls: Calls,
    written: Bytes,
    stopped: bool,
}

impl MemSink {
    ghost use Rattle.std.specs.Prelude.{◌≡◌, [], false};
    ghost use Rattle.edge_memory.specs.Sinks.{sink_state};

    /// A sink to which nothing was written. It takes no memory.
    pub fn new(alloc: Global, moves: Moves) -> MemSink
        ensures { sink_state result ≡ record { moves = moves; made = 0; written = []; stopped = false } }
    {
        MemSink {
            zeros: moves.zeros,
            most: moves.most,
            calls: Calls::new(moves.fails),
            written: Bytes::new(alloc),
            stopped: false,
        }
    }

    /// What was written so far.
    pub fn written(&self) -> &[u8]
        ensures { result.now ≡ (sink_state self.now).written }
    {
        self.written.as_slice()
    }
}

impl Sink for MemSink {
    ghost use Rattle.std.specs.Prelude.{◌≡◌, ◌<◌, length};
    ghost use Rattle.edge_traits.specs.Causes.{HasCause};
    ghost use Rattle.edge_memory.specs.Moving.{IsNextAnswer};
    ghost use Rattle.edge_memory.specs.Sinks.{sink_state, sink_shows, after_write};

    ghost shows = { λ s. sink_shows (sink_state s) };

    #[tactic(auto, using(edge_traits::proofs::Counting::causes))]
    fn write(&mut self, piece: &[u8]) -> Result<usize, EdgeFault>
        requires { 0 < length piece.now }
        ensures answer { IsNextAnswer (sink_state self.old).moves (sink_state self.old).made (length piece.now) result }
        ensures state { sink_state self.new ≡ after_write (sink_state self.old) piece.now result }
        ensures cause { HasCause (sink_shows (sink_state self.old)).faults (sink_shows (sink_state self.new)).faults result }
    {
        let count = next_count(&self.calls, &self.zeros, self.most, piece.len());
        if self.calls.fails_next() {
            return Err(EdgeFault::Failed);
        }
        self.written.try_extend(&piece[..count])?;
        if count == 0 {
            self.stopped = true;
        }
        Ok(count)
    }
}
