//! Writing tokens at the end of a text.

ghost use Rattle.std.specs.Prelude.{◌≡◌, ◌++◌, ◌<◌, ◌^◌, length, OnOk};
ghost use Rattle.wire_tokens.specs.Token.{token};

use crate::token::{Name4, write_token};
use farm_types::Bytes;
use std::alloc::AllocError;

/// Adds the token of a name and a number. It fails only for lack of memory.
pub fn push_token(text: &mut Bytes, name: Name4, number: u32) -> Result<(), AllocError>
    ensures { OnOk result (text.new ≡ text.old ++ token name.0 number) }
{
    let mut room = [0; 12];
    write_token(name, number, &mut room);
    text.try_extend(&room)
}

/// Adds the token of a name and a length, and bytes of that length. It fails only for lack
/// of memory, and a token may then have been added.
pub fn push_body(text: &mut Bytes, name: Name4, bytes: &Bytes) -> Result<(), AllocError>
    requires { length bytes.now < 2 ^ 32 }
    ensures { OnOk result (text.new ≡ text.old ++ (token name.0 (length bytes.now) ++ bytes.now)) }
{
    push_token(text, name, bytes.len() as u32)?;
    text.try_extend(bytes.as_slice())
}
