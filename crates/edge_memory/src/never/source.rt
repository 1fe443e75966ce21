ghost use Rattle.std.specs.Prelude.{◌≡◌, []};

use crate::source::MemSource;
use edge_traits::{CallNumbers, EdgeFault, Source, none_of};
use farm_types::Bytes;

/// A source that gives a text and never fails.
#[derive(Drop)]
pub struct MemNeverSource {
    inner: MemSource,
    ghost never: { inner.calls.fails ≡ [] },
}

impl MemNeverSource {
    ghost use Rattle.std.specs.Prelude.{◌≡◌, ◌<◌, [], false};
    ghost use Rattle.edge_memory.specs.Nevers.{never_source_state};

    /// A source of this text, of which one read gives at most `most` bytes. It takes no memory.
    pub fn new(text: Bytes, fails: CallNumbers, most: u32) -> MemNeverSource
        requires { 0 < most }
        ensures { never_source_state result ≡ record { text = text; fails = []; most = most; made = 0; given = 0; ended = false } }
    {
        MemNeverSource {
            inner: MemSource::new(text, none_of(fails), most),
        }
    }
}

impl Source for MemNeverSource {
    ghost use Rattle.std.specs.Prelude.{◌≡◌, ◌<◌, [], length, IsTrue, IsErrOf};
    ghost use Rattle.edge_traits.specs.declared.faults.EdgeFault.TheVariants.{Failed};
    ghost use Rattle.edge_traits.specs.Told.{Grew};
    ghost use Rattle.edge_traits.specs.Links.{moved, moved_none};
    ghost use Rattle.edge_traits.specs.Sources.{Lost};
    ghost use Rattle.edge_memory.specs.Sources.{source_shows, left_of, read_answer, after_read};
    ghost use Rattle.edge_memory.specs.Nevers.{never_source_state, never_source_shows};

    ghost shows = { λ s. never_source_shows (never_source_state s) };

    #[tactic(auto, using(edge_traits::proofs::Counting::nevers))]
    fn read(&mut self, room: &mut [u8]) -> Result<usize, EdgeFault>
        requires { 0 < length room.old }
        ensures answer { result ≡ read_answer (never_source_state self.old) (length room.old) }
        ensures never { ¬ (IsErrOf result Failed) }
        ensures state { never_source_state self.new ≡ after_read (never_source_state self.old) result }
        ensures read { Grew (source_shows (never_source_state self.old)).read (source_shows (never_source_state self.new)).read (moved result room.new) }
        ensures left { Lost (source_shows (never_source_state self.old)).left (source_shows (never_source_state self.new)).left (moved result room.new) }
        ensures end { IsTrue (moved_none result) → left_of (never_source_state self.new) ≡ [] }
    {
        self.inner.read(room)
    }
}
