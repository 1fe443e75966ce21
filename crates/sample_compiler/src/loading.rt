//! The files that a command's words look up, fetched from a keeper of files.

ghost use Rattle.std.specs.Prelude.{◌≡◌, ◌∷◌, [], false, IsTrue, IfOk, IfErr, IfNone, OnOk, OnErr};
ghost use Rattle.edge_traits.specs.Told.{Grew};
ghost use Rattle.file_map.specs.FileMaps.{Files};
ghost use Rattle.sample_compiler.specs.Lookups.{Agrees};
ghost use Rattle.sample_compiler.specs.Samples.{task_text};
ghost use Rattle.edge_traits.specs.Keepers.{IsIdle};
ghost use Rattle.sample_compiler.specs.Loads.{unstaged, AreShort, entry_at, entries_at, names_for, FetchedFront, Learned, LoadWent, LoadFailed, OnlyFetched, SameRuns};
ghost use Rattle.sample_compiler.specs.Seeking.{asked_names, first_unknown, firsts_after, task_names};
ghost use Rattle.sample_compiler.specs.Tasks.{task_of};

use crate::compiler::task_text;
use crate::lookup::Sources;
use crate::stops::ExpandStop;
use crate::task::{Task, task_of};
use arg_scan::is_reserved;
use edge_traits::{FetchFault, Keeper};
use farm_types::limits::SOURCE_MAX;
use farm_types::{Bytes, Words};
use sample_lang::FileMap;
use std::alloc::{AllocError, Global};

/// The most bytes of a file that is fetched.
pub const FETCH_MAX: u32 = SOURCE_MAX as u32;

/// Why the files weren't loaded.
#[derive(Debug, Drop)]
pub enum LoadFault {
    /// The keeper failed.
    Failed,
    /// A file has that many bytes, more than are fetched.
    TooMuch { bytes: u64 },
    /// Memory ran out.
    Memory,
}

impl From<AllocError> for LoadFault {
    ghost use Rattle.sample_compiler.specs.declared.loading.LoadFault.TheVariants.{Memory};

    ghost from_gives = { λ _ e. e ≡ Memory };

    fn from(_error: AllocError) -> LoadFault {
        LoadFault::Memory
    }
}

/// What is known so far: the files that were fetched, and the names that are no files.
#[derive(Drop)]
pub struct Known {
    pub files: FileMap,
    pub absent: Words,
}

// The next name that is looked up and isn't known yet. Without one, all files that are as known make the same text.
fn next_unknown(alloc: Global, known: &Known, task: &Task) -> Result<Option<Bytes>, AllocError>
    ensures same { IfOk result (λ next. IfNone next ((files : Files) → Agrees known.now.files known.now.absent false files
        → task_text files task.now ≡ task_text known.now.files task.now)) }
    ensures first { IfOk result (λ next. (files : Files) → Agrees known.now.files known.now.absent false files
        → first_unknown known.now.files known.now.absent (task_names files task.now) ≡ next) }
{
    let sources = Sources {
        alloc,
        files: &known.files,
        absent: known.absent.as_slice(),
        whole: false,
        dirs: task.dirs.as_slice(),
    };
    match task_text(sources, task) {
        Ok(_) => Ok(None),
        Err(ExpandStop::Fault { .. }) => Ok(None),
        Err(ExpandStop::Unknown(path)) => Ok(Some(path)),
        Err(ExpandStop::Memory) => Err(AllocError),
    }
}

// Fetches a file, or learns that it isn't there. Names that are kept for files that are being written aren't fetched.
fn learn<K: Keeper>(
    alloc: Global,
    known: &mut Known,
    path: Bytes,
    keeper: &mut K,
) -> Result<(), LoadFault>
    requires { IsIdle (K.shows keeper.old) }
    ensures learned { OnOk result (Learned (K.shows keeper.new) known.old known.new path) }
    ensures fetched { OnOk result (IsTrue (K.shows keeper.new).files.known
        → Grew (K.shows keeper.old).fetches (K.shows keeper.new).fetches (entry_at (unstaged (K.shows keeper.new).files.value) path)) }
    ensures tried { OnErr result (IsTrue (K.shows keeper.new).files.known
        → FetchedFront (unstaged (K.shows keeper.new).files.value) (path ∷ []) (K.shows keeper.old).fetches (K.shows keeper.new).fetches) }
    ensures went { OnOk result (LoadWent (K.shows keeper.old) (K.shows keeper.new) (path ∷ [])) }
    ensures failed { IfErr result (LoadFailed (K.shows keeper.old) (K.shows keeper.new) (path ∷ [])) }
    ensures only { OnlyFetched (K.shows keeper.old) (K.shows keeper.new) }
{
    if is_reserved(path.as_slice()) {
        known.absent.try_push(path)?;
        return Ok(());
    }
    match keeper.fetch(alloc, &path, FETCH_MAX) {
        Ok(content) => {
            known.files.try_put(path, content)?;
            Ok(())
        }
        Err(FetchFault::Absent) => {
            known.absent.try_push(path)?;
            Ok(())
        }
        Err(FetchFault::Failed) => Err(LoadFault::Failed),
        Err(FetchFault::TooMuch { bytes }) => Err(LoadFault::TooMuch { bytes }),
        Err(FetchFault::Memory) => Err(LoadFault::Memory),
    }
}

// The files that a task looks up.
fn load_task<K: Keeper>(alloc: Global, task: &Task, keeper: &mut K) -> Result<FileMap, LoadFault>
    requires { IsIdle (K.shows keeper.old) }
    ensures same { IfOk result (λ files. IsTrue (K.shows keeper.new).files.known
        → task_text (unstaged (K.shows keeper.new).files.value) task.now ≡ task_text files task.now) }
    ensures short { IfOk result AreShort }
    ensures fetched { OnOk result (IsTrue (K.shows keeper.new).files.known
        → Grew (K.shows keeper.old).fetches (K.shows keeper.new).fetches (entries_at (unstaged (K.shows keeper.new).files.value) (firsts_after [] (task_names (unstaged (K.shows keeper.new).files.value) task.now)))) }
    ensures tried { OnErr result (IsTrue (K.shows keeper.new).files.known
        → FetchedFront (unstaged (K.shows keeper.new).files.value) (firsts_after [] (task_names (unstaged (K.shows keeper.new).files.value) task.now)) (K.shows keeper.old).fetches (K.shows keeper.new).fetches) }
    ensures went { OnOk result (LoadWent (K.shows keeper.old) (K.shows keeper.new) (task_names (unstaged (K.shows keeper.new).files.value) task.now)) }
    ensures failed { IfErr result (LoadFailed (K.shows keeper.old) (K.shows keeper.new) (task_names (unstaged (K.shows keeper.new).files.value) task.now)) }
    ensures only { OnlyFetched (K.shows keeper.old) (K.shows keeper.new) }
{
    let mut known = Known {
        files: FileMap::new(alloc),
        absent: Words::new(alloc),
    };
    for _turn in 0..u64::MAX {
        match next_unknown(alloc, &known, task)? {
            Some(path) => learn(alloc, &mut known, path, keeper)?,
            None => return Ok(known.files),
        }
    }
    // No memory holds that many names.
    Err(LoadFault::Memory)
}

/// Fetches the files that the compiler looks up for these words, in the order in which it looks them up first, each once, and no others. A name is left out
/// if its fetch returned that it isn't there, or if it ends in `.farm~`, which isn't fetched. So the words leave the
/// same over these files as over all of the keeper's, except those names. A file has at most `SOURCE_MAX` bytes. It puts nothing.
pub fn load<K: Keeper>(alloc: Global, words: &Words, keeper: &mut K) -> Result<FileMap, LoadFault>
    requires idle { IsIdle (K.shows keeper.old) }
    ensures same { IfOk result (λ files. IsTrue (K.shows keeper.new).files.known
        → SameRuns words.now (unstaged (K.shows keeper.new).files.value) files) }
    ensures short { IfOk result AreShort }
    ensures fetched { OnOk result (IsTrue (K.shows keeper.new).files.known
        → Grew (K.shows keeper.old).fetches (K.shows keeper.new).fetches (entries_at (unstaged (K.shows keeper.new).files.value) (names_for (unstaged (K.shows keeper.new).files.value) words.now))) }
    ensures tried { OnErr result (IsTrue (K.shows keeper.new).files.known
        → FetchedFront (unstaged (K.shows keeper.new).files.value) (names_for (unstaged (K.shows keeper.new).files.value) words.now) (K.shows keeper.old).fetches (K.shows keeper.new).fetches) }
    ensures went { OnOk result (LoadWent (K.shows keeper.old) (K.shows keeper.new) (asked_names (unstaged (K.shows keeper.new).files.value) (task_of words.now))) }
    ensures failed { IfErr result (LoadFailed (K.shows keeper.old) (K.shows keeper.new) (asked_names (unstaged (K.shows keeper.new).files.value) (task_of words.now))) }
    ensures only { OnlyFetched (K.shows keeper.old) (K.shows keeper.new) }
{
    match task_of(alloc, words.as_slice())? {
        Some(task) => load_task(alloc, &task, keeper),
        None => Ok(FileMap::new(alloc)),
    }
}
