//! The spelling of an option.

ghost use Rattle.std.specs.Prelude.{◌≡◌, ◌≤◌, List, length, take};

use std::marker::Model;

/// The most bytes of a spelling.
pub const SPELLING_MAX: usize = 23;

/// The spelling of an option: 0 to `SPELLING_MAX` bytes, held without memory.
#[derive(Debug, Drop)]
pub struct Spelling {
    bytes: [u8; SPELLING_MAX],
    len: usize,
}

impl Model for Spelling {
    ghost use Rattle.std.specs.Prelude.{ℕ, ◌≡◌, ◌≤◌, List, length, take};
    ghost use Rattle.option_table.specs.declared.spelling.TheConstants.{SPELLING_MAX};

    ghost Value = { List ℕ };

    ghost view = { λ s. take s.len s.bytes };

    ghost invariant = { λ s. s.len ≤ SPELLING_MAX };
}

impl Spelling {
    /// The spelling with these bytes.
    pub fn new(text: &[u8]) -> Spelling
        requires { length text.now ≤ SPELLING_MAX }
        ensures { result ≡ text.now }
    {
        let mut bytes = [0; SPELLING_MAX];
        bytes[..text.len()].copy_from_slice(text);
        Spelling {
            bytes,
            len: text.len(),
        }
    }

    pub fn len(&self) -> usize
        ensures len { result ≡ length self.now }
        ensures most { result ≤ SPELLING_MAX }
    {
        self.len
    }

    pub fn as_slice(&self) -> &[u8]
        ensures value { result.now ≡ self.now }
        ensures most { length self.now ≤ SPELLING_MAX }
    {
        &self.bytes[..self.len]
    }

    /// An equal spelling.
    pub fn copy(&self) -> Spelling
        ensures { result ≡ self.now }
    {
        Spelling {
            bytes: self.bytes,
            len: self.len,
        }
    }
}
