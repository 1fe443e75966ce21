//! The bytes of an entry, read from the front.

ghost use Rattle.std.specs.Prelude.{◌≡◌, ◌++◌, ◌<◌, ◌≤◌, length, take, drop, IfOk, IsTrue};
ghost use Rattle.std.specs.List.{concat};
ghost use Rattle.std.specs.Str.{bytes_eq};
ghost use Rattle.object_cache.specs.Pieces.{in_order};

use crate::order::{Piece, piece_at};
use farm_types::Bytes;
use std::alloc::{AllocError, Global};
use std::marker::Model;

/// What is left to read.
#[derive(Drop)]
pub(crate) struct Cursor<'a> {
    front: &'a [u8],
    rest: &'a [u32],
    block: &'a [Piece],
    left: usize,
}

impl<'a> Model for Cursor<'a> {
    ghost use Rattle.std.specs.Prelude.{ℕ, List, ◌++◌, take};
    ghost use Rattle.std.specs.List.{concat};
    ghost use Rattle.object_cache.specs.Pieces.{in_order};

    ghost Value = { List ℕ };

    ghost view = { λ c. take c.left (c.front.now ++ concat (in_order c.block.now c.rest.now)) };
}

// The first of these that has bytes, and those after it.
fn first_piece<'a>(front: &'a [u8], rest: &'a [u32], block: &'a [Piece]) -> (&'a [u8], &'a [u32])
    ensures whole { result.0.now ++ concat (in_order block.now result.1.now) ≡ front.now ++ concat (in_order block.now rest.now) }
    ensures some { 0 < length (front.now ++ concat (in_order block.now rest.now)) → 0 < length result.0.now }
{
    let mut first = front;
    let mut others = rest;
    'turning: while first.is_empty() {
        let [place, after @ ..] = others else {
            return (first, others);
        };
        first = piece_at(block, *place);
        others = after;
    }
    (first, others)
}

impl<'a> Cursor<'a> {
    ghost use Rattle.std.specs.Prelude.{◌≡◌, ◌++◌, ◌<◌, ◌≤◌, ℕ, length, take, drop, IfOk, IsTrue};
    ghost use Rattle.std.specs.List.{concat};
    ghost use Rattle.std.specs.Str.{bytes_eq};
    ghost use Rattle.object_cache.specs.Pieces.{in_order};

    /// That many bytes of the pieces at these places of a block, or all of them.
    pub(crate) fn new(block: &'a [Piece], places: &'a [u32], len: usize) -> Cursor<'a>
        ensures { result ≡ take len (concat (in_order block.now places.now)) }
    {
        Cursor {
            front: &[],
            rest: places,
            block,
            left: len,
        }
    }

    // The next bytes, at most that many, and none only at the end.
    fn next(&mut self, most: usize) -> &'a [u8]
        requires { 0 < most }
        ensures whole { self.old ≡ result.now ++ self.new }
        ensures most { length result.now ≤ most }
        ensures some { 0 < length self.old → 0 < length result.now }
    {
        let (first, rest) = first_piece(self.front, self.rest, self.block);
        let (piece, front) = first.split_at(first.len().min(most).min(self.left));
        self.front = front;
        self.rest = rest;
        self.left -= piece.len();
        piece
    }

    /// Reads as many bytes as these have, as long as they are the same, and answers whether all are.
    pub(crate) fn matches(&mut self, bytes: &[u8]) -> bool
        ensures same { result ≡ bytes_eq (take (length bytes.now) self.old) bytes.now }
        ensures rest { IsTrue result → self.new ≡ drop (length bytes.now) self.old }
    {
        let mut rest = bytes;
        'matching: while !rest.is_empty() {
            let piece = self.next(rest.len());
            if piece.is_empty() {
                return false;
            }
            let (front, after) = rest.split_at(piece.len());
            if piece != front {
                return false;
            }
            rest = after;
        }
        true
    }

    /// Whether these are all bytes that are left.
    #[tactic(auto, using(crate::proofs::Reading::all_same, crate::proofs::Reading::more_left, crate::proofs::Reading::front_differs))]
    pub(crate) fn is_all(&mut self, bytes: &[u8]) -> bool
        ensures { result ≡ bytes_eq self.old bytes.now }
    {
        self.matches(bytes) && self.next(1).is_empty()
    }

    /// Leaves out that many bytes, or all that are left.
    pub(crate) fn skip(&mut self, len: usize)
        ensures { self.new ≡ drop len self.old }
    {
        let mut left = len;
        'skipping: while 0 < left {
            let piece = self.next(left);
            if piece.is_empty() {
                return;
            }
            left -= piece.len();
        }
    }

    /// A copy of the next bytes, of that many or all that are left.
    #[tactic(auto, using(crate::proofs::Reading::take_piece, crate::proofs::Reading::drop_piece))]
    pub(crate) fn read(&mut self, alloc: Global, len: usize) -> Result<Bytes, AllocError>
        ensures bytes { IfOk result (λ bytes. bytes ≡ take len self.old) }
        ensures rest { IfOk result (λ bytes. self.new ≡ drop len self.old) }
    {
        let mut made = Vec::with_capacity(alloc, len)?;
        let mut left = len;
        'reading: while 0 < left {
            let piece = self.next(left);
            if piece.is_empty() {
                return Ok(Bytes::from_vec(made));
            }
            made.extend_from_slice(piece)?;
            left -= piece.len();
        }
        Ok(Bytes::from_vec(made))
    }
}
