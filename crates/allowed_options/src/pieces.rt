//! The words for the assembler.

ghost use Rattle.std.specs.Prelude.{◌≡◌};
ghost use Rattle.allowed_options.specs.Served.{is_known_piece, are_pieces_known};

use crate::assembler::{has_piece_front, is_piece_word};
use crate::reaching::reaches_out;
use crate::words::before;

/// Whether a word for the assembler is known that begins here.
fn is_known_piece(rest: &[u8]) -> bool
    ensures { result ≡ is_known_piece rest.now }
{
    is_piece_word(before(b',', rest)) || (has_piece_front(rest) && !reaches_out(rest))
}

/// Whether the word for the assembler after each comma is known.
pub fn are_pieces_known(word: &[u8]) -> bool
    ensures { result ≡ are_pieces_known word.now }
{
    for at in 0..word.len() {
        if word[at] == b',' && !is_known_piece(&word[at + 1..]) {
            return false;
        }
    }
    true
}
