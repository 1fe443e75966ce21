//! Files that are fetched to be linked or run.

ghost use Rattle.std.specs.Prelude.{ℕ, ◌≡◌, map, string_bytes, IfOk, IfErr};
ghost use Rattle.edge_traits.specs.Keepers.{IsIdle};
ghost use Rattle.sample_compiler.specs.Loads.{OnlyFetched};
ghost use Rattle.sample_program.specs.Fetches.{Took, TookAll, Missed, MissedOne};

use arg_scan::is_reserved;
use edge_traits::{FetchFault, Keeper};
use farm_types::limits::OBJECT_MAX;
use farm_types::{Bytes, Words};
use std::alloc::{AllocError, Global};

/// The most bytes of all files together.
pub const FILES_MAX: u32 = OBJECT_MAX as u32;

/// Why files weren't fetched.
#[derive(Debug, Drop)]
pub enum FetchStop {
    /// There is no file of this name.
    Missing(Bytes),
    /// The files have more bytes than are fetched.
    TooLarge,
    /// The keeper failed.
    File,
    /// Memory ran out.
    Memory,
}

impl From<AllocError> for FetchStop {
    ghost use Rattle.sample_program.specs.declared.fetching.FetchStop.TheVariants.{Memory};

    ghost from_gives = { λ _ e. e ≡ Memory };

    fn from(_error: AllocError) -> FetchStop {
        FetchStop::Memory
    }
}

/// Fetches a file of at most that many bytes. A name that ends in `.farm~` is no file, and isn't fetched.
pub fn fetch_file<K: Keeper>(
    alloc: Global,
    name: &Bytes,
    left: u32,
    keeper: &mut K,
) -> Result<Bytes, FetchStop>
    requires { IsIdle (K.shows keeper.old) }
    ensures only { OnlyFetched (K.shows keeper.old) (K.shows keeper.new) }
    ensures took { IfOk result (Took name.now left (K.shows keeper.old) (K.shows keeper.new)) }
    ensures missed { IfErr result (Missed name.now left (K.shows keeper.old) (K.shows keeper.new)) }
{
    if is_reserved(name.as_slice()) {
        return Err(FetchStop::Missing(name.copy()?));
    }
    match keeper.fetch(alloc, name, left) {
        Ok(content) => Ok(content),
        Err(FetchFault::Absent) => Err(FetchStop::Missing(name.copy()?)),
        Err(FetchFault::TooMuch { .. }) => Err(FetchStop::TooLarge),
        Err(FetchFault::Failed) => Err(FetchStop::File),
        Err(FetchFault::Memory) => Err(FetchStop::Memory),
    }
}

/// Fetches files in order, which have at most `FILES_MAX` bytes together. It stops at the first that is missing or goes beyond.
pub fn fetch_files<K: Keeper>(
    alloc: Global,
    names: &[String],
    keeper: &mut K,
) -> Result<Words, FetchStop>
    requires { IsIdle (K.shows keeper.old) }
    ensures only { OnlyFetched (K.shows keeper.old) (K.shows keeper.new) }
    ensures took { IfOk result (TookAll (map string_bytes names.now) (K.shows keeper.old) (K.shows keeper.new)) }
    ensures missed { IfErr result (MissedOne (map string_bytes names.now) (K.shows keeper.old) (K.shows keeper.new)) }
{
    let mut contents = Words::new(alloc);
    let mut left = FILES_MAX;
    for name in names {
        let name = Bytes::from_slice(alloc, name.as_bytes())?;
        let content = fetch_file(alloc, &name, left, keeper)?;
        left -= content.len() as u32;
        contents.try_push(content)?;
    }
    Ok(contents)
}
