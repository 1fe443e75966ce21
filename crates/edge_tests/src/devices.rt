//! Files in memory as the tests begin with them.

ghost use Rattle.std.specs.Prelude.{◌≡◌, ℕ, [], None, codes, IfOk};
ghost use Rattle.std.specs.FinMap.{empty, insert};
ghost use Rattle.edge_memory.specs.Keepers.{keeper_state};
ghost use Rattle.object_delivery.specs.ScriptedFiles.{files_state};

use edge_memory::MemKeeper;
use edge_traits::{CallNumbers, FileList};
use farm_types::Bytes;
use object_delivery::MemFiles;
use std::alloc::{AllocError, Global};

/// The numbers of calls.
pub fn numbers(alloc: Global, all: &[u64]) -> Result<CallNumbers, AllocError>
    ensures { IfOk result (λ numbers. numbers ≡ all.now) }
{
    Ok(CallNumbers::from_vec(all.to_vec(alloc)?))
}

/// One file: `x.o`, which holds `old`.
pub fn one_file(alloc: Global) -> Result<FileList, AllocError>
    ensures { IfOk result (λ files. files ≡ insert empty (codes "x.o") (codes "old")) }
{
    let mut files = FileList::new(alloc);
    let name = Bytes::from_slice(alloc, b"x.o")?;
    files.try_put(name, Bytes::from_slice(alloc, b"old")?)?;
    Ok(files)
}

/// That file, on which no call was made yet. The calls of these numbers fail, and an append adds one byte at most.
pub fn files_with(alloc: Global, fails: &[u64]) -> Result<MemFiles, AllocError>
    ensures { IfOk result (λ f. files_state f
        ≡ record { files = insert empty (codes "x.o") (codes "old"); fails = fails.now; most = 1; made = 0; overruns = 0 }) }
{
    let files = one_file(alloc)?;
    let fails = numbers(alloc, fails)?;
    Ok(MemFiles::new(files, fails, 1))
}

/// A keeper of that file, on which no call was made yet. The calls of these numbers fail.
pub fn keeper_with(alloc: Global, fails: &[u64]) -> Result<MemKeeper, AllocError>
    ensures { IfOk result (λ k. keeper_state k
        ≡ record { files = insert empty (codes "x.o") (codes "old"); fails = fails.now; made = 0; overruns = 0; puts = []; fetches = []; pending = None }) }
{
    let files = one_file(alloc)?;
    let fails = numbers(alloc, fails)?;
    Ok(MemKeeper::new(files, fails))
}
