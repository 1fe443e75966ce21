//! Writing a request.

ghost use Rattle.std.specs.Prelude.{◌≡◌, ◌++◌, ◌≤◌, length, All, IfOk, OnOk};
ghost use Rattle.std.specs.List.{flat_map};
ghost use Rattle.farm_types.specs.Fits.{RequestFits};
ghost use Rattle.farm_types.specs.Limits.{word_max};
ghost use Rattle.wire_tokens.specs.Request.{request_text, word_text};

use farm_types::{Bytes, Request};
use std::alloc::{AllocError, Global};
use wire_tokens::{ARGC, ARGV, DIST, DOTI, push_body, push_token};

fn push_words(text: &mut Bytes, words: &[Bytes]) -> Result<(), AllocError>
    requires { All (λ word. length word ≤ word_max) words.now }
    ensures { OnOk result (text.new ≡ text.old ++ flat_map word_text words.now) }
{
    for word in words {
        push_body(text, ARGV, word)?;
    }
    Ok(())
}

/// The text of a request, in lower-case digits. It fails only for lack of memory.
pub fn encode(alloc: Global, request: &Request) -> Result<Bytes, AllocError>
    requires { RequestFits request.now.words request.now.source }
    ensures { IfOk result (λ text. text ≡ request_text request.now) }
{
    let mut text = Bytes::new(alloc);
    push_token(&mut text, DIST, 1)?;
    push_token(&mut text, ARGC, request.words.len() as u32)?;
    push_words(&mut text, request.words.as_slice())?;
    push_body(&mut text, DOTI, &request.source)?;
    Ok(text)
}
