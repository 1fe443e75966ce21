//! Devices in memory, as the tests begin with them.

ghost use Rattle.std.specs.Prelude.{◌≡◌, false, IfOk};
ghost use Rattle.edge_traits.specs.Keepers.{IsIdle};
ghost use Rattle.edge_memory.specs.Keepers.{keeper_state, keeper_shows};
ghost use Rattle.edge_memory.specs.Sinks.{sink_state, sink_shows};

use crate::files::{Listed, files_of, numbers};
use edge_memory::{MemKeeper, MemSink, Moves};
use std::alloc::{AllocError, Global};

/// Which writes of a sink fail, and which take nothing.
pub type Writes = (&'static [u64], &'static [u64]);

pub const GOOD: Writes = (&[], &[]);

/// A keeper of these files, whose calls with these numbers fail.
pub fn keeper_of(alloc: Global, list: Listed, fails: &[u64]) -> Result<MemKeeper, AllocError>
    ensures { IfOk result (λ keeper. IsIdle (keeper_shows (keeper_state keeper))) }
{
    let files = files_of(alloc, list)?;
    Ok(MemKeeper::new(files, numbers(alloc, fails)?))
}

/// A sink that nothing is written to yet.
pub fn sink_of(alloc: Global, writes: Writes) -> Result<MemSink, AllocError>
    ensures { IfOk result (λ sink. (sink_shows (sink_state sink)).stopped ≡ false) }
{
    let (fails, zeros) = writes;
    let moves = Moves {
        fails: numbers(alloc, fails)?,
        zeros: numbers(alloc, zeros)?,
        most: 1_000,
    };
    Ok(MemSink::new(alloc, moves))
}
