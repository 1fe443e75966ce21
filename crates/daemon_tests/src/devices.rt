//! A loop's compilers, and a sink, as the tests begin with them.

ghost use Rattle.std.specs.Prelude.{◌≡◌, false, IfOk};
ghost use Rattle.edge_memory.specs.Sinks.{sink_state, sink_shows};
ghost use Rattle.loop_link.specs.Replies.{AreOwnNames};

use daemon_service::{Compiler, CompilerVec, Compilers};
use edge_memory::{MemSink, Moves};
use edge_traits::CallNumbers;
use farm_types::Bytes;
use std::alloc::{AllocError, Global};

pub fn numbers(alloc: Global, list: &[u64]) -> Result<CallNumbers, AllocError> {
    let mut numbers = CallNumbers::new(alloc);
    for number in list {
        numbers.try_push(*number)?;
    }
    Ok(numbers)
}

/// The table of one compiler, under its own name.
pub fn table(alloc: Global) -> Result<Compilers, AllocError>
    ensures { IfOk result (λ table. AreOwnNames table.rows) }
{
    let name = Bytes::from_slice(alloc, b"scc")?;
    let program = name.copy()?;
    let mut rows = CompilerVec::new(alloc);
    rows.try_push(Compiler { name, program })?;
    Ok(Compilers { rows })
}

/// A sink of which these writes take nothing, and that nothing is written to yet.
pub fn sink(alloc: Global, zeros: &[u64]) -> Result<MemSink, AllocError>
    ensures { IfOk result (λ s. (sink_shows (sink_state s)).stopped ≡ false) }
{
    let zeros = numbers(alloc, zeros)?;
    let moves = Moves {
        fails: CallNumbers::new(alloc),
        zeros,
        most: 1_000,
    };
    Ok(MemSink::new(alloc, moves))
}
