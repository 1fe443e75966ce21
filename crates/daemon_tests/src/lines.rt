//! The words of a line.

ghost use Rattle.std.specs.Prelude.{◌≡◌, ◌==◌, map, string_bytes, IfOk};
ghost use Rattle.std.specs.List.{slice_split};

use std::alloc::{AllocError, Global};

// What is between the single blanks of a line.
fn parts_of(alloc: Global, line: &str) -> Result<Vec<&str>, AllocError>
    ensures { IfOk result (λ parts. map (λ part. part.now) parts.items ≡ slice_split (λ c. c == 32) line.now) }
{
    line.split(' ').collect(alloc)
}

fn strings(alloc: Global, words: &[&str]) -> Result<Vec<String>, AllocError>
    ensures { IfOk result (λ list. map string_bytes list.items ≡ map (λ word. word.now) words.now) }
{
    let mut list = Vec::new(alloc);
    for word in words {
        list.push(String::from_str(alloc, word)?)?;
    }
    Ok(list)
}

/// The words of a line, which single blanks part.
pub fn words_of(alloc: Global, line: &str) -> Result<Vec<String>, AllocError>
    ensures { IfOk result (λ words. map string_bytes words.items ≡ slice_split (λ c. c == 32) line.now) }
{
    let parts = parts_of(alloc, line)?;
    strings(alloc, parts.as_slice())
}
