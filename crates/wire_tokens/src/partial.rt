//! A token that comes byte by byte.

ghost use Rattle.std.specs.Prelude.{◌≡◌, ◌<◌, ◌≤◌, ◌∷◌, ◌++◌, [], List, ℕ, length, take};
ghost use Rattle.wire_tokens.specs.Partial.{number_so_far};

use crate::token::{Name4, Scan, TokenFault, scan_token};
use std::marker::Model;

/// The bytes of a token that have come so far: none, or up to twelve.
#[derive(Debug, Drop)]
pub struct PartialToken {
    bytes: [u8; 12],
    len: usize,
}

impl Model for PartialToken {
    ghost Value = { List ℕ };

    ghost view = { λ token. take token.len token.bytes };

    ghost invariant = { λ token. token.len ≤ 12 };
}

impl PartialToken {
    /// A token of which nothing has come. It takes no memory.
    pub fn new() -> PartialToken
        ensures { result ≡ [] }
    {
        PartialToken {
            bytes: [0; 12],
            len: 0,
        }
    }

    /// Takes the next byte of a token of the expected name. It returns the token's number if that was
    /// its last byte, None if bytes are missing, or why it is no such token. It takes no memory.
    pub fn take(&mut self, byte: u8, expected: Name4) -> Result<Option<u32>, TokenFault>
        requires { length self.old < 12 }
        ensures bytes { self.new ≡ self.old ++ byte ∷ [] }
        ensures number { result ≡ number_so_far expected.0 self.new }
    {
        self.bytes[self.len] = byte;
        self.len += 1;
        match scan_token(&self.bytes[..self.len], expected) {
            Scan::Number(n) => Ok(Some(n)),
            Scan::WrongName(at) => Err(TokenFault::WrongName { at }),
            Scan::BadDigit(at) => Err(TokenFault::BadDigit { at }),
            Scan::Short => Ok(None),
        }
    }
}
