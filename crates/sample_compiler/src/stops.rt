//! Why a text isn't preprocessed.

ghost use Rattle.std.specs.Prelude.{◌≡◌};

use farm_types::Bytes;
use std::alloc::AllocError;

/// What is wrong with a line.
#[derive(Debug, Drop)]
pub enum ExpandFault {
    /// A line that begins with `#` and is no directive.
    BadDirective,
    /// A file that isn't there.
    NoFile(Bytes),
    /// A 17th file within one another.
    TooDeep,
}

/// Why a text wasn't preprocessed: a fault on a line of its file, a name for which it isn't known whether it is a file,
/// or out of memory.
#[derive(Debug, Drop)]
pub enum ExpandStop {
    Fault { line: u64, fault: ExpandFault },
    Unknown(Bytes),
    Memory,
}

impl From<AllocError> for ExpandStop {
    ghost use Rattle.sample_compiler.specs.declared.stops.ExpandStop.TheVariants.{Memory};

    ghost from_gives = { λ _ e. e ≡ Memory };

    fn from(_error: AllocError) -> ExpandStop {
        ExpandStop::Memory
    }
}
