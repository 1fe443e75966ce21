//! A list of bytes.

ghost use Rattle.std.specs.Prelude.{◌≡◌, ◌==◌, ◌↔◌, ℕ, List, [], ◌∷◌, ◌++◌, length, slice_get, take, IfOk, IsTrue, OnOk, OnErr};

use crate::copying::TryCopy;
use std::alloc::{AllocError, Global};
use std::marker::Model;

/// A list of bytes. It keeps its allocator.
#[derive(Debug, Drop)]
pub struct Bytes {
    stored: Vec<u8>,
}

impl Model for Bytes {
    ghost Value = { List ℕ };

    ghost view = { λ b. b.stored.items };
}

impl Bytes {
    /// The empty list. It takes no memory.
    pub fn new(alloc: Global) -> Bytes
        ensures { result ≡ [] }
    {
        Bytes {
            stored: Vec::new(alloc),
        }
    }

    /// The bytes of a slice.
    pub fn from_slice(alloc: Global, bytes: &[u8]) -> Result<Bytes, AllocError>
        ensures { IfOk result (λ made. made ≡ bytes.now) }
    {
        Ok(Bytes {
            stored: bytes.to_vec(alloc)?,
        })
    }

    /// The bytes of a `Vec`. It takes no memory.
    pub fn from_vec(bytes: Vec<u8>) -> Bytes
        ensures { result ≡ bytes.items }
    {
        Bytes { stored: bytes }
    }

    /// The bytes as a `Vec`. It takes no memory.
    pub fn into_vec(self) -> Vec<u8>
        ensures { result.items ≡ self }
    {
        self.stored
    }

    pub fn len(&self) -> usize
        ensures { result ≡ length self.now }
    {
        self.stored.len()
    }

    pub fn is_empty(&self) -> bool
        ensures { result ≡ (length self.now == 0) }
    {
        self.stored.is_empty()
    }

    /// None exactly if `at` isn't below the length.
    pub fn get(&self, at: usize) -> Option<u8>
        ensures { result ≡ slice_get self.now at }
    {
        self.stored.get(at).copied()
    }

    pub fn as_slice(&self) -> &[u8]
        ensures { result.now ≡ self.now }
    {
        self.stored.as_slice()
    }

    /// Adds a byte at the end. A refused byte leaves the list as it was.
    pub fn try_push(&mut self, byte: u8) -> Result<(), AllocError>
        ensures ok { OnOk result (self.new ≡ self.old ++ byte ∷ []) }
        ensures err { OnErr result (self.new ≡ self.old) }
    {
        self.stored.push(byte)?;
        Ok(())
    }

    /// Adds bytes at the end. A refused piece leaves the list as it was.
    pub fn try_extend(&mut self, piece: &[u8]) -> Result<(), AllocError>
        ensures ok { OnOk result (self.new ≡ self.old ++ piece.now) }
        ensures err { OnErr result (self.new ≡ self.old) }
    {
        self.stored.extend_from_slice(piece)
    }

    /// Keeps only the first `len` bytes. It takes no memory.
    pub fn truncate(&mut self, len: usize)
        ensures { self.new ≡ take len self.old }
    {
        self.stored.truncate(len);
    }

    /// The same bytes, stored a second time.
    pub fn copy(&self) -> Result<Bytes, AllocError>
        ensures { IfOk result (λ made. made ≡ self.now) }
    {
        Ok(Bytes {
            stored: self.stored.clone()?,
        })
    }
}

impl TryCopy for Bytes {
    fn try_copy(&self) -> Result<Bytes, AllocError> {
        self.copy()
    }
}
