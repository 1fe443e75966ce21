//! The line of a list of words.

ghost use Rattle.std.specs.Prelude.{◌≡◌, ◌≤◌, ◌++◌, ◌∷◌, [], true, length, IfOk, OnOk, IsTrue, ◌↔◌};
ghost use Rattle.farm_types.specs.Limits.{job_list_max};
ghost use Rattle.job_list.specs.Lines.{LineOf};
ghost use Rattle.job_list.specs.Texts.{is_job, lines_of};
ghost use Rattle.job_list.specs.Jobs.{JobOf, JobsOf};
ghost use Rattle.job_list.specs.Prints.{IsPrintable, ArePrintable, AreJobWords};
ghost use Rattle.job_list.specs.Prints as prints;

use farm_types::{Bytes, Words};
use memchr::memchr2;
use std::alloc::{AllocError, Global};

// A byte between double quotes.
fn put_byte(line: &mut Bytes, byte: u8) -> Result<(), AllocError>
    ensures { OnOk result (line.new ≡ line.old ++ prints.byte_text byte) }
{
    if byte == b'"' || byte == b'\\' {
        line.try_extend(&[b'\\', byte])
    } else {
        line.try_push(byte)
    }
}

// A word between double quotes.
fn put_word(line: &mut Bytes, word: &[u8]) -> Result<(), AllocError>
    ensures { OnOk result (line.new ≡ line.old ++ prints.word_text word.now) }
{
    line.try_push(b'"')?;
    for byte in word {
        put_byte(line, *byte)?;
    }
    line.try_push(b'"')
}

// Words between double quotes, with a space between words.
fn put_words(alloc: Global, words: &Words) -> Result<Bytes, AllocError>
    ensures { IfOk result (λ line. line ≡ prints.words_text words.now) }
{
    let mut line = Bytes::new(alloc);
    for (at, word) in words.as_slice().iter().enumerate() {
        if 0 < at {
            line.try_push(b' ')?;
        }
        put_word(&mut line, word.as_slice())?;
    }
    Ok(line)
}

fn is_printable(word: &[u8]) -> bool
    ensures { IsTrue result ↔ IsPrintable word.now }
{
    memchr2(b'\n', 0, word).is_none()
}

/// Whether no word holds a line feed or a zero byte, as `print_words` asks.
pub fn are_printable(words: &Words) -> bool
    ensures { IsTrue result ↔ ArePrintable words.now }
{
    words
        .as_slice()
        .iter()
        .all(|word| is_printable(word.as_slice()))
}

/// A line that reads as these words. None of them may hold a line feed or a zero byte. Of UTF-8 words,
/// at least one, it is a job, and by itself it is a job list of these words, if it has at most 16,777,216 bytes.
pub fn print_words(alloc: Global, words: &Words) -> Result<Bytes, AllocError>
    requires { ArePrintable words.now }
    ensures line { IfOk result (λ line. LineOf line words.now) }
    ensures one { IfOk result (λ line. lines_of line ≡ line ∷ []) }
    ensures job { AreJobWords words.now
        → IfOk result (λ line. (is_job line ≡ true) × JobOf line words.now) }
    ensures again { AreJobWords words.now
        → IfOk result (λ line. length line ≤ job_list_max → JobsOf line (words.now ∷ [])) }
{
    put_words(alloc, words)
}
