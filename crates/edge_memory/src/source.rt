ghost use Rattle.std.specs.Prelude.{◌<◌, ◌≤◌, length};

use crate::moving::put_front;
use edge_traits::{CallNumbers, Calls, EdgeFault, Source};
use farm_types::Bytes;

/// A source that gives a text.
#[derive(Drop)]
pub struct MemSource {
    text: Bytes,
    most: u32,
    calls: Calls,
    at: usize,
    ended: bool,
    ghost within: { at ≤ length text },
    ghost moves: { 0 < most },
}

impl MemSource {
    ghost use Rattle.std.specs.Prelude.{◌≡◌, ◌<◌, false};
    ghost use Rattle.edge_memory.specs.Sources.{source_state};

    /// A source of this text, of which one read gives at most `most` bytes. It takes no memory.
    pub fn new(text: Bytes, fails: CallNumbers, most: u32) -> MemSource
        requires { 0 < most }
        ensures { source_state result ≡ record { text = text; fails = fails; most = most; made = 0; given = 0; ended = false } }
    {
        MemSource {
            text,
            most,
            calls: Calls::new(fails),
            at: 0,
            ended: false,
        }
    }
}

impl Source for MemSource {
    ghost use Rattle.std.specs.Prelude.{◌≡◌, ◌<◌, [], length, IsTrue};
    ghost use Rattle.edge_traits.specs.Told.{Grew};
    ghost use Rattle.edge_traits.specs.Causes.{HasCause};
    ghost use Rattle.edge_traits.specs.Links.{moved, moved_none};
    ghost use Rattle.edge_traits.specs.Sources.{Lost};
    ghost use Rattle.edge_memory.specs.Sources.{source_state, source_shows, left_of, read_answer, after_read};

    ghost shows = { λ s. source_shows (source_state s) };

    #[tactic(auto, using(edge_traits::proofs::Counting::causes))]
    fn read(&mut self, room: &mut [u8]) -> Result<usize, EdgeFault>
        requires { 0 < length room.old }
        ensures answer { result ≡ read_answer (source_state self.old) (length room.old) }
        ensures state { source_state self.new ≡ after_read (source_state self.old) result }
        ensures read { Grew (source_shows (source_state self.old)).read (source_shows (source_state self.new)).read (moved result room.new) }
        ensures left { Lost (source_shows (source_state self.old)).left (source_shows (source_state self.new)).left (moved result room.new) }
        ensures end { IsTrue (moved_none result) → left_of (source_state self.new) ≡ [] }
        ensures cause { HasCause (source_shows (source_state self.old)).faults (source_shows (source_state self.new)).faults result }
    {
        if self.calls.fails_next() {
            return Err(EdgeFault::Failed);
        }
        let left = self.text.len() - self.at;
        let count = room.len().min(left).min(self.most as usize);
        put_front(room, &self.text.as_slice()[self.at..self.at + count]);
        self.at += count;
        if count == 0 {
            self.ended = true;
        }
        Ok(count)
    }
}
