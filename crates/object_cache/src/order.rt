//! Pieces of one size in a block, in an order of their own.

ghost use Rattle.std.specs.Prelude.{◌≡◌, ◌+◌, ◌<◌, ◌≤◌, ◌++◌, ◌∷◌, [], ℕ, length, take, drop, slice_index_or, IsTrue};
ghost use Rattle.std.specs.Vec.{vec_len, vec_capacity};
ghost use Rattle.object_cache.specs.Pieces.{in_order, turned, IsOrder};

/// The bytes of a piece.
pub(crate) const PIECE: usize = 320;

/// Bytes of an entry.
pub(crate) type Piece = [u8; PIECE];

/// The piece at a place of the block.
pub(crate) fn piece_at<'a>(block: &'a [Piece], place: u32) -> &'a [u8]
    ensures { result.now ≡ slice_index_or block.now place [] }
{
    match block.get(place as usize) {
        Some(piece) => piece.as_slice(),
        None => &[],
    }
}

/// Puts a piece into the order, over the one that is there or after the last.
pub(crate) fn put_piece(block: &mut Vec<Piece>, order: &mut Vec<u32>, at: usize, piece: &Piece)
    requires order { IsOrder (length block.old.items) order.old.items }
    requires at { (at ≤ length order.old.items) × (at < 4294967296) }
    requires room { (at < vec_capacity block.old) × (at < vec_capacity order.old) }
    ensures order { IsOrder (length block.new.items) order.new.items }
    ensures pieces { in_order block.new.items order.new.items ≡ take at (in_order block.old.items order.old.items) ++ piece.now ∷ drop (at + 1) (in_order block.old.items order.old.items) }
    ensures block_capacity { vec_capacity block.new ≡ vec_capacity block.old }
    ensures order_capacity { vec_capacity order.new ≡ vec_capacity order.old }
{
    if at < order.len() {
        let place = order[at] as usize;
        block[place] = *piece;
    } else {
        block.push_reserved(*piece);
        order.push_reserved(at as u32);
    }
}

/// Puts the items from `mid` up to `end` before those from `from` up to `mid`.
pub(crate) fn turn<T>(items: &mut [T], from: usize, mid: usize, end: usize)
    requires from { from ≤ mid }
    requires mid { mid ≤ end }
    requires end { end ≤ length items.old }
    ensures { items.new ≡ turned from mid end items.old }
{
    items[from..end].rotate_left(mid - from);
}

/// At most this many numbers are moved by way of the stack.
const FEW: usize = 1_024;

/// Puts the numbers from `mid` up to `end` before those from `from` up to `mid`. It is quicker if the former are at most `FEW`.
pub(crate) fn turn_numbers(numbers: &mut [u32], from: usize, mid: usize, end: usize)
    requires from { from ≤ mid }
    requires mid { mid ≤ end }
    requires end { end ≤ length numbers.old }
    ensures { numbers.new ≡ turned from mid end numbers.old }
{
    let count = end - mid;
    if FEW < count {
        turn(numbers, from, mid, end);
        return;
    }
    let mut few = [0; FEW];
    few[..count].copy_from_slice(&numbers[mid..end]);
    numbers.copy_within(from..mid, from + count);
    numbers[from..from + count].copy_from_slice(&few[..count]);
}

/// Whether there is memory for that many more items. If there isn't, memory is taken for these, for an eighth more, or for as many as are expected in
/// all, whichever is most.
pub(crate) fn make_room<T>(items: &mut Vec<T>, more: usize, expected: usize) -> bool
    ensures items { items.new.items ≡ items.old.items }
    ensures grown { vec_capacity items.old ≤ vec_capacity items.new }
    ensures room { IsTrue result → vec_len items.new + more ≤ vec_capacity items.new }
{
    let len = items.len();
    if more <= items.capacity() - len {
        return true;
    }
    items
        .reserve_exact(more.max(len / 8).max(expected.saturating_sub(len)))
        .is_ok()
}

/// Writes bytes into a piece.
pub(crate) fn write_at(piece: &mut Piece, at: usize, bytes: &[u8])
    requires { at + length bytes.now ≤ 320 }
    ensures { take (at + length bytes.now) piece.new ≡ take at piece.old ++ bytes.now }
{
    piece[at..at + bytes.len()].copy_from_slice(bytes);
}
