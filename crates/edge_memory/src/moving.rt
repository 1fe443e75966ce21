ghost use Rattle.std.specs.Prelude.{◌≡◌, ◌≤◌, length, take};
ghost use Rattle.edge_traits.specs.Calls.{names_next};
ghost use Rattle.edge_memory.specs.Moving.{next_size};

use edge_traits::{CallNumbers, Calls};

/// How many bytes the next call moves, if `limit` bytes could be moved.
pub fn next_count(calls: &Calls, zeros: &CallNumbers, most: u32, limit: usize) -> usize
    ensures { result ≡ next_size zeros.now most calls.now.made limit }
{
    if calls.names(zeros) {
        0
    } else {
        limit.min(most as usize)
    }
}

/// Puts the piece at the front of the room.
pub fn put_front(room: &mut [u8], piece: &[u8])
    requires { length piece.now ≤ length room.old }
    ensures { take (length piece.now) room.new ≡ piece.now }
{
    room[..piece.len()].copy_from_slice(piece);
}
