//! What linking gives, and why it stops.

ghost use Rattle.std.specs.Prelude.{◌≡◌};

use farm_types::{Bytes, Words};
use std::alloc::AllocError;

/// What is wrong with objects that are linked.
#[derive(Debug, Drop)]
pub enum LinkFault {
    /// This line of this object isn't right. Both count from 1.
    BadObject { file: u64, line: u64 },
    /// An earlier object defines this name, too.
    Doubled { name: Bytes },
    /// This name is needed, and no object defines it.
    Unresolved { name: Bytes },
    /// The definition of each of these names uses the next, and that of the last one the first.
    Circular { names: Words },
}

/// What linking gives.
#[derive(Debug, Drop)]
pub enum Linked {
    /// The image of all objects.
    Image(Bytes),
    /// The first fault.
    Fault(LinkFault),
    /// Memory ran out.
    Memory,
}

/// Why there is no image.
#[derive(Debug, Drop)]
pub enum LinkStop {
    /// The first fault.
    Fault(LinkFault),
    /// Memory ran out.
    Memory,
}

impl From<AllocError> for LinkStop {
    ghost use Rattle.sample_linker.specs.declared.faults.LinkStop.TheVariants.{Memory};

    ghost from_gives = { λ _ e. e ≡ Memory };

    fn from(_error: AllocError) -> LinkStop {
        LinkStop::Memory
    }
}
