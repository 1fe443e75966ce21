//! The front of a request at its limits, as the tests begin with it.

ghost use Rattle.std.specs.Prelude.{◌≡◌, ◌+◌, ◌++◌, ◌<◌, length, sum_by, codes, IfOk};
ghost use Rattle.std.specs.List.{flat_map};
ghost use Rattle.farm_types.specs.Fits.{WordsFit};
ghost use Rattle.farm_types.specs.Limits.{words_max, words_bytes_max};
ghost use Rattle.wire_tokens.specs.Request.{word_text};
ghost use Rattle.wire_tokens.specs.Token.{token};

use farm_types::{Bytes, Words};
use std::alloc::{AllocError, Global};
use wire_tokens::{ARGC, ARGV, DIST, push_body, push_token};

// A word of this many letters.
fn word_of(alloc: Global, len: usize) -> Result<Bytes, AllocError>
    ensures { IfOk result (λ word. length word ≡ len) }
{
    Ok(Bytes::from_vec(vec![in alloc; b'x'; len]?))
}

/// Words that have all the bytes that they may have together, and fewer than there may be.
pub fn full_words(alloc: Global) -> Result<Words, AllocError>
    ensures fit { IfOk result (λ words. WordsFit words) }
    ensures few { IfOk result (λ words. length words < words_max) }
    ensures full { IfOk result (λ words. sum_by length words ≡ words_bytes_max) }
{
    let mut words = Words::new(alloc);
    for _ in 0..16u32 {
        words.try_push(word_of(alloc, 65_536)?)?;
    }
    Ok(words)
}

/// The front of a request that has one word more than these.
pub fn front_of(alloc: Global, words: &[Bytes]) -> Result<Bytes, AllocError>
    requires fit { WordsFit words.now }
    requires few { length words.now < words_max }
    ensures { IfOk result (λ text. text
        ≡ token (codes "DIST") 1 ++ (token (codes "ARGC") (length words.now + 1) ++ flat_map word_text words.now)) }
{
    let mut text = Bytes::new(alloc);
    push_token(&mut text, DIST, 1)?;
    push_token(&mut text, ARGC, words.len() as u32 + 1)?;
    for word in words {
        push_body(&mut text, ARGV, word)?;
    }
    Ok(text)
}
