//! Inputs of the programs.

ghost use Rattle.std.specs.Prelude.{◌≡◌, false, IfOk};
ghost use Rattle.edge_memory.specs.Sources.{source_state, source_shows};

use edge_memory::MemSource;
use edge_traits::CallNumbers;
use farm_types::Bytes;
use std::alloc::{AllocError, Global};

/// An input of this text that isn't read yet, whose first read may fail.
pub fn source_of(alloc: Global, text: &str, fails: bool) -> Result<MemSource, AllocError>
    ensures { IfOk result (λ source. (source_shows (source_state source)).ended ≡ false) }
{
    let mut numbers = CallNumbers::new(alloc);
    if fails {
        numbers.try_push(1)?;
    }
    Ok(MemSource::new(Bytes::from_slice(alloc, text.as_bytes())?, numbers, 1_000))
}
