//! The words that compile what was sent.

ghost use Rattle.std.specs.Prelude.{◌≡◌, length, IfOk};
ghost use Rattle.arg_scan.specs.Class.{IsRemote};
ghost use Rattle.arg_scan.specs.Roles.{part_at, word_at};
ghost use Rattle.arg_strip.specs.Words.{gather, placed_word, placed_words};

use crate::push::push_some;
use crate::sent::is_sent;
use arg_scan::{Part, Role, part_of};
use farm_types::{Bytes, PlacedWords, Word, Words};
use option_table::gcc_table;
use std::alloc::{AllocError, Global};

/// The words that compile what was sent for a command that may be sent.
///
/// They are the words that are sent, with the station's own name of the input for the source, and
/// its own name of the output for the last word.
pub fn placed(alloc: Global, words: &Words) -> Result<PlacedWords, AllocError>
    requires { IsRemote words.now }
    ensures { IfOk result (λ placed. placed ≡ placed_words words.now) }
{
    let mut placed = placed_front(alloc, words.as_slice())?;
    placed.try_push(Word::Text(Bytes::from_slice(alloc, b"-o")?))?;
    placed.try_push(Word::Output)?;
    Ok(placed)
}

fn placed_front(alloc: Global, words: &[Bytes]) -> Result<PlacedWords, AllocError>
    ensures { IfOk result (λ placed. placed ≡ gather (λ at. placed_word (part_at words.now at) (word_at words.now at)) (length words.now)) }
{
    let table = gcc_table();
    let mut owner = None;
    let mut placed = PlacedWords::new(alloc);
    for (at, word) in words.iter().enumerate() {
        let part = part_of(&table, owner, at, word);
        push_some(&mut placed, placed_word(part, word)?)?;
        owner = part.owed();
    }
    Ok(placed)
}

// The word of the compile's command, if there is one.
fn placed_word(part: Part, word: &Bytes) -> Result<Option<Word>, AllocError>
    ensures { IfOk result (λ placed. placed ≡ placed_word part word.now) }
{
    match part {
        Part::Word(Role::Source(ending)) => Ok(Some(Word::Input(ending.ext()))),
        _ if is_sent(part) => Ok(Some(Word::Text(word.copy()?))),
        _ => Ok(None),
    }
}
