//! The words that are sent.

ghost use Rattle.std.specs.Prelude.{◌≡◌, ◌↔◌, ◌++◌, ◌∷◌, [], length, IfOk, IsTrue};
ghost use Rattle.arg_scan.specs.Roles.{part_at, word_at};
ghost use Rattle.arg_scan.specs.Class.{IsRemote};
ghost use Rattle.arg_strip.specs.Words.{AsksTheSame, gather, placed_words, is_sent, output_of, sent_word, stripped};

use crate::push::push_some;
use arg_scan::{Part, Role, Verdict, classify, output_name, part_of, remote_plan};
use farm_types::{Bytes, Words};
use option_table::{Effect, gcc_table};
use std::alloc::{AllocError, Global};

/// Whether a command may be sent. It takes no memory.
pub fn is_remote(words: &Words) -> bool
    ensures { IsTrue result ↔ IsRemote words.now }
{
    matches!(classify(words), Verdict::Remote(_))
}

/// The words that are sent for a command that may be sent.
///
/// They are its words in order without the options of the preprocessor and the linker, without the
/// output option, and without the operands of these; then `-o` and the output.
pub fn strip(alloc: Global, words: &Words) -> Result<Words, AllocError>
    requires { IsRemote words.now }
    ensures words { IfOk result (λ sent. sent ≡ stripped words.now) }

    // What is sent may be sent again: it asks for the same, and nothing more is left out.
    ensures remote { IfOk result (λ sent. IsRemote sent) }
    ensures same { IfOk result (λ sent. AsksTheSame words.now sent) }
    ensures again { IfOk result (λ sent. stripped sent ≡ sent) }
    ensures placed { IfOk result (λ sent. placed_words sent ≡ placed_words words.now) }
{
    let plan = remote_plan(words);
    let output = output_name(alloc, words, &plan)?;
    strip_to(alloc, words, output)
}

/// The same, for a caller that has the name of the output, as `scan` gives it. The command isn't classified again.
pub fn strip_to(alloc: Global, words: &Words, output: Bytes) -> Result<Words, AllocError>
    requires remote { IsRemote words.now }
    requires output { output ≡ output_of words.now }
    ensures { IfOk result (λ sent. sent ≡ stripped words.now) }
{
    let mut sent = sent_words(alloc, words.as_slice())?;
    sent.try_push(Bytes::from_slice(alloc, b"-o")?)?;
    sent.try_push(output)?;
    Ok(sent)
}

fn sent_words(alloc: Global, words: &[Bytes]) -> Result<Words, AllocError>
    ensures { IfOk result (λ sent. sent ≡ gather (λ at. sent_word (part_at words.now at) (word_at words.now at)) (length words.now)) }
{
    let table = gcc_table();
    let mut owner = None;
    let mut sent = Words::new(alloc);
    for (at, word) in words.iter().enumerate() {
        let part = part_of(&table, owner, at, word);
        push_some(&mut sent, sent_word(part, word)?)?;
        owner = part.owed();
    }
    Ok(sent)
}

// The word, if it is sent.
fn sent_word(part: Part, word: &Bytes) -> Result<Option<Bytes>, AllocError>
    ensures { IfOk result (λ sent. sent ≡ sent_word part word.now) }
{
    if is_sent(part) {
        Ok(Some(word.copy()?))
    } else {
        Ok(None)
    }
}

/// Whether a word of this use is sent.
pub(crate) fn is_sent(part: Part) -> bool
    ensures { result ≡ is_sent part }
{
    match part {
        Part::Operand(effect) | Part::Word(Role::Flag { effect, .. }) => match effect {
            Effect::Strip | Effect::Output => false,
            Effect::Keep | Effect::Action | Effect::Local(_) | Effect::Listing => true,
        },
        Part::Compiler | Part::Word(_) => true,
    }
}
