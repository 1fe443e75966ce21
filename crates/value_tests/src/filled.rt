//! Bytes of a length.
ghost use Rattle.std.specs.Prelude.{◌≡◌, length, IfOk};

use farm_types::Bytes;
use std::alloc::{AllocError, Global};

/// This many bytes.
pub fn repeated(alloc: Global, len: usize) -> Result<Bytes, AllocError>
    ensures { IfOk result (λ bytes. length bytes ≡ len) }
{
    Ok(Bytes::from_vec(vec![in alloc; b'w'; len]?))
}
