//! Writing a reply.

ghost use Rattle.std.specs.Prelude.{◌≡◌, ◌++◌, IfOk};
ghost use Rattle.farm_types.specs.Fits.{OutcomeFits};
ghost use Rattle.wire_tokens.specs.Reply.{reply_text};

use farm_types::{Bytes, Outcome};
use std::alloc::{AllocError, Global};
use wire_tokens::{DONE, DOTO, SERR, SOUT, STAT, push_body, push_token};

/// The front of an outcome's text that ends before the object's bytes: with those after it, it is the whole text. It fails
/// only for lack of memory.
pub fn encode_head(alloc: Global, outcome: &Outcome) -> Result<Bytes, AllocError>
    requires { OutcomeFits outcome.now.status outcome.now.err outcome.now.out outcome.now.object }
    ensures { IfOk result (λ head. head ++ outcome.now.object ≡ reply_text outcome.now) }
{
    let mut head = Bytes::new(alloc);
    push_token(&mut head, DONE, 1)?;
    push_token(&mut head, STAT, outcome.status)?;
    push_body(&mut head, SERR, &outcome.err)?;
    push_body(&mut head, SOUT, &outcome.out)?;
    push_token(&mut head, DOTO, outcome.object.len() as u32)?;
    Ok(head)
}

/// The text of an outcome, in lower-case digits. It fails only for lack of memory.
pub fn encode(alloc: Global, outcome: &Outcome) -> Result<Bytes, AllocError>
    requires { OutcomeFits outcome.now.status outcome.now.err outcome.now.out outcome.now.object }
    ensures { IfOk result (λ text. text ≡ reply_text outcome.now) }
{
    let mut text = encode_head(alloc, outcome)?;
    text.try_extend(outcome.object.as_slice())?;
    Ok(text)
}
