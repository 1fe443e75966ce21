//! Bytes of a length.
ghost use Rattle.std.specs.Prelude.{◌≡◌, length, IfOk};

use farm_types::Bytes;
use std::alloc::{AllocError, Global};

/// That many bytes, each other than the one before.
pub fn pattern(alloc: Global, len: usize, first: usize) -> Result<Bytes, AllocError>
    ensures { IfOk result (λ bytes. length bytes ≡ len) }
{
    let mut bytes = Bytes::new(alloc);
    for at in 0..len {
        bytes.try_push(((at % 251 + first % 251) % 251) as u8)?;
    }
    Ok(bytes)
}
