ghost use Rattle.std.specs.Prelude.{◌≡◌, ◌≤◌, ◌<◌, ◌++◌, ◌↔◌, ℕ, List, [], length, IsTrue, IfOk, IfErr, OnOk, OnErr};
ghost use Rattle.std.specs.Bool.{OnFalse};
ghost use Rattle.edge_traits.specs.Told.{Grew, Became};
ghost use Rattle.edge_traits.specs.Causes.{HasPutCause, IsRemoval, Still};
ghost use Rattle.edge_traits.specs.FileMaps.{files_after, IsStaged};
ghost use Rattle.edge_traits.specs.Keepers.{KeeperView, IsIdle, IsPending, HasPending, put_entries, fetch_entries, Fetched, FetchCause, KeeperLater, KeeperStill};

use crate::{EdgeFault, FetchFault};
use farm_types::Bytes;
use std::alloc::Global;

/// Keeps files. Names that end in `.farm~` are its own, for files that are still being written.
///
/// A file is put in steps: `begin` makes a put pending, `add` gives it bytes, and `commit` makes the file hold them. Until
/// then, and after any step that is refused, each file is as it was. No step is an overrun.
pub trait Keeper {
    /// What it shows of its past.
    ghost shows: { Self → KeeperView };

    /// Whether a put is pending. It takes no memory.
    fn is_pending(&self) -> bool
        ensures pending { IsTrue result ↔ IsPending (shows self.now) }
        ensures idle { OnFalse result (IsIdle (shows self.now)) };

    /// Begins a put of this path, with no bytes yet.
    fn begin(&mut self, alloc: Global, path: &Bytes) -> Result<(), EdgeFault>
        requires idle { IsIdle (shows self.old) }
        requires name { ¬ (IsStaged path.now) }
        ensures begun { OnOk result (HasPending (shows self.new) path.now []) }
        ensures idle { OnErr result (IsIdle (shows self.new)) }
        ensures files { Became (shows self.old).files (shows self.new).files (shows self.old).files.value }
        ensures puts { Grew (shows self.old).puts (shows self.new).puts [] }
        ensures fetches { Grew (shows self.old).fetches (shows self.new).fetches [] }
        ensures overruns { Still (shows self.old).overruns (shows self.new).overruns }
        ensures cause { HasPutCause (shows self.old).faults (shows self.new).faults result };

    /// Adds these bytes to the end of the pending put. After an `Err` none is pending.
    fn add(&mut self, alloc: Global, piece: &[u8]) -> Result<(), EdgeFault>
        requires pending { IsPending (shows self.old) }
        requires some { 0 < length piece.now }
        ensures added { (path bytes : List ℕ) → HasPending (shows self.old) path bytes → OnOk result (HasPending (shows self.new) path (bytes ++ piece.now)) }
        ensures idle { OnErr result (IsIdle (shows self.new)) }
        ensures files { Became (shows self.old).files (shows self.new).files (shows self.old).files.value }
        ensures puts { Grew (shows self.old).puts (shows self.new).puts [] }
        ensures fetches { Grew (shows self.old).fetches (shows self.new).fetches [] }
        ensures overruns { Still (shows self.old).overruns (shows self.new).overruns }
        ensures cause { HasPutCause (shows self.old).faults (shows self.new).faults result };

    /// Makes the file of the pending put hold its bytes, or leaves it as it was. None is pending then.
    fn commit(&mut self, alloc: Global) -> Result<(), EdgeFault>
        requires pending { IsPending (shows self.old) }
        ensures files { (path bytes : List ℕ) → HasPending (shows self.old) path bytes
            → Became (shows self.old).files (shows self.new).files (files_after (shows self.old).files.value path bytes result) }
        ensures puts { (path bytes : List ℕ) → HasPending (shows self.old) path bytes
            → Grew (shows self.old).puts (shows self.new).puts (put_entries path bytes result) }
        ensures idle { IsIdle (shows self.new) }
        ensures fetches { Grew (shows self.old).fetches (shows self.new).fetches [] }
        ensures overruns { Still (shows self.old).overruns (shows self.new).overruns }
        ensures cause { HasPutCause (shows self.old).faults (shows self.new).faults result };

    /// Gives up the put that is pending, if there is one. It takes no memory of its own, and can't be refused.
    fn abandon(&mut self)
        ensures idle { IsIdle (shows self.new) }
        ensures files { Became (shows self.old).files (shows self.new).files (shows self.old).files.value }
        ensures puts { Grew (shows self.old).puts (shows self.new).puts [] }
        ensures fetches { Grew (shows self.old).fetches (shows self.new).fetches [] }
        ensures faults { (shows self.old).faults ≤ (shows self.new).faults }
        ensures removal { IsRemoval (shows self.old).faults (shows self.new).faults }
        ensures overruns { Still (shows self.old).overruns (shows self.new).overruns };

    /// Makes the file hold exactly these bytes, or leaves it as it was.
    fn put(&mut self, alloc: Global, path: &Bytes, bytes: &[u8]) -> Result<(), EdgeFault>
        requires idle { IsIdle (shows self.old) }
        requires name { ¬ (IsStaged path.now) }
        ensures files { Became (shows self.old).files (shows self.new).files (files_after (shows self.old).files.value path.now bytes.now result) }
        ensures puts { Grew (shows self.old).puts (shows self.new).puts (put_entries path.now bytes.now result) }
        ensures idle { IsIdle (shows self.new) }
        ensures fetches { Grew (shows self.old).fetches (shows self.new).fetches [] }
        ensures overruns { Still (shows self.old).overruns (shows self.new).overruns }
        ensures cause { HasPutCause (shows self.old).faults (shows self.new).faults result }
    {
        self.begin(alloc, path)?;
        if !bytes.is_empty() {
            self.add(alloc, bytes)?;
        }
        self.commit(alloc)
    }

    /// Gives the whole file, which has at most `bound` bytes.
    fn fetch(&mut self, alloc: Global, path: &Bytes, bound: u32) -> Result<Bytes, FetchFault>
        requires idle { IsIdle (shows self.old) }
        requires name { ¬ (IsStaged path.now) }
        ensures whole { IfOk result (Fetched path.now bound (shows self.new)) }
        ensures fetches { Grew (shows self.old).fetches (shows self.new).fetches (fetch_entries path.now result) }
        ensures files { Became (shows self.old).files (shows self.new).files (shows self.old).files.value }
        ensures puts { Grew (shows self.old).puts (shows self.new).puts [] }
        ensures idle { IsIdle (shows self.new) }
        ensures counts { KeeperLater (shows self.old) (shows self.new) }
        ensures done { OnOk result (KeeperStill (shows self.old) (shows self.new)) }
        ensures cause { IfErr result (FetchCause path.now bound (shows self.old) (shows self.new)) };
}
