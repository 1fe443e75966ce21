//! The words that preprocess a source.

ghost use Rattle.std.specs.Prelude.{◌≡◌, IfOk};
ghost use Rattle.arg_scan.specs.Class.{IsRemote};
ghost use Rattle.arg_strip.specs.Words.{preprocessing_word, preprocessing_words};

use crate::push::push_some;
use arg_scan::{Part, Role, part_of};
use farm_types::{Bytes, Words};
use option_table::{Effect, gcc_table};
use std::alloc::{AllocError, Global};

/// The words that preprocess the source of a command that may be sent.
///
/// They are its words in order without the output option and its operand, and with `-E` in place of
/// each `-c` and `-S` that is an option.
pub fn cpp_words(alloc: Global, words: &Words) -> Result<Words, AllocError>
    requires { IsRemote words.now }
    ensures { IfOk result (λ kept. kept ≡ preprocessing_words words.now) }
{
    kept_words(alloc, words.as_slice())
}

fn kept_words(alloc: Global, words: &[Bytes]) -> Result<Words, AllocError>
    ensures { IfOk result (λ kept. kept ≡ preprocessing_words words.now) }
{
    let table = gcc_table();
    let mut owner = None;
    let mut kept = Words::new(alloc);
    for (at, word) in words.iter().enumerate() {
        let part = part_of(&table, owner, at, word);
        push_some(&mut kept, preprocessing_word(alloc, part, word)?)?;
        owner = part.owed();
    }
    Ok(kept)
}

// The word of the preprocessor's command, if there is one.
fn preprocessing_word(alloc: Global, part: Part, word: &Bytes) -> Result<Option<Bytes>, AllocError>
    ensures { IfOk result (λ kept. kept ≡ preprocessing_word part word.now) }
{
    match part {
        Part::Operand(Effect::Output) => Ok(None),
        Part::Word(
            Role::Flag {
                effect: Effect::Output,
                ..
            },
        ) => Ok(None),
        Part::Word(
            Role::Flag {
                effect: Effect::Action,
                ..
            },
        ) => Ok(Some(Bytes::from_slice(alloc, b"-E")?)),
        _ => Ok(Some(word.copy()?)),
    }
}
