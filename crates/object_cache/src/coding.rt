//! Words, as they are kept.

ghost use Rattle.std.specs.Prelude.{◌≡◌, ◌++◌, ◌+◌, ◌-◌, ◌*◌, ◌<◌, ◌≤◌, ◌∷◌, [], length, take, drop, nat_lt, IsTrue};
ghost use Rattle.std.specs.List.{flat_map, list_all};
ghost use Rattle.std.specs.Str.{bytes_eq};
ghost use Rattle.object_cache.specs.Keys as keys;
ghost use Rattle.object_cache.specs.Packs as packs;

use crate::cursor::Cursor;
use crate::pieces::Pieces;
use farm_types::{Ext, Word};

fn bytes_of(word: &Word) -> &[u8]
    ensures { result.now ≡ packs.bytes_of word.now }
{
    match word {
        Word::Text(text) => text.as_slice(),
        Word::Input(_) => &[],
        Word::Output => &[],
    }
}

// The kind of a text, and its length.
fn text_head(len: u32) -> [u8; 5]
    ensures { result ≡ 0 ∷ packs.len_bytes len }
{
    let [a, b, c, d] = len.to_be_bytes();
    [0, a, b, c, d]
}

fn add_head(pieces: &mut Pieces, word: &Word)
    requires short { keys.text_len word.now < 4294967296 }
    requires room { length pieces.old.text + length (packs.head_of word.now) ≤ 320 * (pieces.old.room - length pieces.old.used) }
    ensures { pieces.new ≡ record pieces.old { text = pieces.old.text ++ packs.head_of word.now } }
{
    match word {
        Word::Text(text) => pieces.add(&text_head(text.len() as u32)),
        Word::Input(Ext::I) => pieces.add(&[1]),
        Word::Input(Ext::Ii) => pieces.add(&[2]),
        Word::Output => pieces.add(&[3]),
    }
}

/// Adds words to a text.
pub(crate) fn add_words(pieces: &mut Pieces, words: &[Word])
    requires short { IsTrue (list_all (λ word. nat_lt (keys.text_len word) 4294967296) words.now) }
    requires room { length pieces.old.text + length (flat_map packs.coded words.now) ≤ 320 * (pieces.old.room - length pieces.old.used) }
    ensures { pieces.new ≡ record pieces.old { text = pieces.old.text ++ flat_map packs.coded words.now } }
{
    let mut rest = words;
    'adding: while let [word, after @ ..] = rest {
        add_head(pieces, word);
        pieces.add(bytes_of(word));
        rest = after;
    }
}

fn same_head(cursor: &mut Cursor<'_>, word: &Word) -> bool
    requires { keys.text_len word.now < 4294967296 }
    ensures same { result ≡ bytes_eq (take (length (packs.head_of word.now)) cursor.old) (packs.head_of word.now) }
    ensures rest { IsTrue result → cursor.new ≡ drop (length (packs.head_of word.now)) cursor.old }
{
    match word {
        Word::Text(text) => cursor.matches(&text_head(text.len() as u32)),
        Word::Input(Ext::I) => cursor.matches(&[1]),
        Word::Input(Ext::Ii) => cursor.matches(&[2]),
        Word::Output => cursor.matches(&[3]),
    }
}

fn same_word(cursor: &mut Cursor<'_>, word: &Word) -> bool
    requires { keys.text_len word.now < 4294967296 }
    ensures same { result ≡ bytes_eq (take (length (packs.coded word.now)) cursor.old) (packs.coded word.now) }
    ensures rest { IsTrue result → cursor.new ≡ drop (length (packs.coded word.now)) cursor.old }
{
    same_head(cursor, word) && cursor.matches(bytes_of(word))
}

/// Reads as many bytes as these words have, as long as they are the same, and answers whether all are.
pub(crate) fn same_words(cursor: &mut Cursor<'_>, words: &[Word]) -> bool
    requires { IsTrue (list_all (λ word. nat_lt (keys.text_len word) 4294967296) words.now) }
    ensures same { result ≡ bytes_eq (take (length (flat_map packs.coded words.now)) cursor.old) (flat_map packs.coded words.now) }
    ensures rest { IsTrue result → cursor.new ≡ drop (length (flat_map packs.coded words.now)) cursor.old }
{
    let mut rest = words;
    'comparing: while let [word, after @ ..] = rest {
        if !same_word(cursor, word) {
            return false;
        }
        rest = after;
    }
    true
}
