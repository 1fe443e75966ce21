//! The bytes of the entries.

use crate::cursor::Cursor;
use crate::order::{PIECE, Piece, make_room, put_piece, turn_numbers, write_at};
use std::alloc::Global;
use std::marker::Model;

/// The most pieces that there are.
const MOST: usize = 4_294_967_295;

/// At least this many numbers are reserved: memory of its own, of which only what is written is taken.
const NUMBERS: usize = 262_144;

/// Pieces of one size in one block. The first ones are in use, and a text is written after them. What is freed is used again, and none is ever moved.
#[derive(Drop)]
pub(crate) struct Pieces {
    block: Vec<Piece>,
    order: Vec<u32>,
    expected: usize,
    room: usize,
    used: usize,
    at: usize,
    len: usize,
    last: Piece,
}

impl Model for Pieces {
    ghost use Rattle.std.specs.Prelude.{take};
    ghost use Rattle.std.specs.Vec.{vec_capacity};
    ghost use Rattle.object_cache.specs.Pieces.{PiecesView, ArePieces, in_order, text_behind};

    ghost Value = { PiecesView };

    ghost view = { λ p. record { used = take p.used (in_order p.block.items p.order.items); text = text_behind p.used p.at p.len p.last (in_order p.block.items p.order.items); room = p.room } };

    ghost invariant = { λ p. ArePieces p.block.items p.order.items (vec_capacity p.block) (vec_capacity p.order) p.room p.used p.at p.len p.last };
}

impl Pieces {
    ghost use Rattle.std.specs.Prelude.{◌≡◌, ◌+◌, ◌-◌, ◌*◌, ◌<◌, ◌≤◌, ◌++◌, [], length, take, drop, IsTrue, IfOk};
    ghost use Rattle.std.specs.List.{concat};
    ghost use Rattle.object_cache.specs.Pieces.{PiecesView, turned};

    /// None, of which that many are expected. It takes no memory.
    pub(crate) fn new(alloc: Global, expected: usize) -> Pieces
        ensures { result ≡ record { used = []; text = []; room = 0 } }
    {
        Pieces {
            block: Vec::new(alloc),
            order: Vec::new(alloc),
            expected,
            room: 0,
            used: 0,
            at: 0,
            len: 0,
            last: [0; PIECE],
        }
    }

    /// How many are in use.
    pub(crate) fn count(&self) -> usize
        ensures { result ≡ length self.now.used }
    {
        self.used
    }

    /// Whether there is memory for that many more.
    pub(crate) fn make_room(&mut self, more: usize) -> bool
        ensures used { self.new.used ≡ self.old.used }
        ensures room { IsTrue result → length self.old.used + more ≤ self.new.room }
    {
        let Some(count) = self.used.checked_add(more) else {
            return false;
        };
        if count <= self.room {
            return true;
        }
        if MOST < count {
            return false;
        }
        let more = count.saturating_sub(self.block.len());
        if !make_room(&mut self.block, more, self.expected)
            || !make_room(&mut self.order, more, self.expected.max(NUMBERS))
        {
            return false;
        }
        self.room = count;
        true
    }

    /// Begins a text after those in use.
    pub(crate) fn begin(&mut self)
        ensures { self.new ≡ record self.old { text = [] } }
    {
        self.at = self.used;
        self.len = 0;
    }

    /// The bytes of the text.
    pub(crate) fn text_len(&self) -> usize
        ensures { result ≡ length self.now.text }
    {
        (self.at - self.used) * PIECE + self.len
    }

    // Adds bytes to the text, as many as the last piece has room for, and answers the others.
    fn add_front<'a>(&mut self, bytes: &'a [u8]) -> &'a [u8]
        requires some { 0 < length bytes.now }
        requires room { length self.old.text + length bytes.now ≤ 320 * (self.old.room - length self.old.used) }
        ensures text { self.new.text ++ result.now ≡ self.old.text ++ bytes.now }
        ensures less { length result.now < length bytes.now }
        ensures used { self.new.used ≡ self.old.used }
        ensures room { self.new.room ≡ self.old.room }
    {
        if self.len == PIECE {
            put_piece(&mut self.block, &mut self.order, self.at, &self.last);
            self.at += 1;
            self.len = 0;
        }
        let (front, rest) = bytes.split_at((PIECE - self.len).min(bytes.len()));
        write_at(&mut self.last, self.len, front);
        self.len += front.len();
        rest
    }

    /// Adds bytes to the text.
    pub(crate) fn add(&mut self, bytes: &[u8])
        requires { length self.old.text + length bytes.now ≤ 320 * (self.old.room - length self.old.used) }
        ensures { self.new ≡ record self.old { text = self.old.text ++ bytes.now } }
    {
        let mut rest = bytes;
        'adding: while !rest.is_empty() {
            rest = self.add_front(rest);
        }
    }

    /// Ends the text, whose pieces are then in use, and answers how many it has.
    pub(crate) fn end(&mut self) -> usize
        requires { length self.old.text ≤ 320 * (self.old.room - length self.old.used) }
        ensures count { length self.new.used ≡ length self.old.used + result }
        ensures front { take (length self.old.used) self.new.used ≡ self.old.used }
        ensures few { length self.new.used ≤ 4294967295 }
        ensures text { take (length self.old.text) (concat (drop (length self.old.used) self.new.used)) ≡ self.old.text }
    {
        let first = self.used;
        if self.len == 0 {
            self.used = self.at;
            return self.used - first;
        }
        put_piece(&mut self.block, &mut self.order, self.at, &self.last);
        self.at += 1;
        self.len = 0;
        self.used = self.at;
        self.used - first
    }

    /// Frees the last ones.
    pub(crate) fn shorten(&mut self, less: usize)
        requires { less ≤ length self.old.used }
        ensures used { self.new.used ≡ take (length self.old.used - less) self.old.used }
        ensures room { self.new.room ≡ self.old.room }
    {
        self.used -= less;
        self.at = self.used;
        self.len = 0;
    }

    /// Puts those from `mid` up to `end` before those from `from` up to `mid`.
    pub(crate) fn turn(&mut self, from: usize, mid: usize, end: usize)
        requires from { from ≤ mid }
        requires mid { mid ≤ end }
        requires end { end ≤ length self.old.used }
        ensures used { self.new.used ≡ turned from mid end self.old.used }
        ensures room { self.new.room ≡ self.old.room }
    {
        self.at = self.used;
        self.len = 0;
        turn_numbers(self.order.as_mut_slice(), from, mid, end);
    }

    /// The first bytes of that many pieces.
    pub(crate) fn read(&self, first: usize, count: usize, len: usize) -> Cursor<'_>
        requires { first + count ≤ length self.now.used }
        ensures { result ≡ take len (concat (take count (drop first self.now.used))) }
    {
        Cursor::new(
            self.block.as_slice(),
            &self.order[first..first + count],
            len,
        )
    }
}
