// The front of a script.
ghost use Rattle.std.specs.Prelude.{◌≡◌, drop};
ghost use Rattle.edge_memory.specs.Scripts.{first_or, ends_at_once};

use crate::{LinkScript, Moves};
use edge_traits::CallNumbers;
use farm_types::Bytes;
use std::alloc::Global;

/// Takes the first element out. If there is none, it gives the other value.
pub fn take_first_or<T: Drop>(script: &mut Vec<T>, other: T) -> T
    ensures first { result ≡ first_or other script.old.items }
    ensures rest { script.new.items ≡ drop 1 script.old.items }
{
    if script.is_empty() {
        return other;
    }
    script.remove(0)
}

/// The script of a link that ends at once.
pub fn ends_at_once(alloc: Global) -> LinkScript
    ensures { result ≡ ends_at_once }
{
    LinkScript {
        gives: Bytes::new(alloc),
        moves: Moves {
            fails: CallNumbers::new(alloc),
            zeros: CallNumbers::new(alloc),
            most: u32::MAX,
        },
    }
}
