ghost use Rattle.std.specs.Prelude.{◌≡◌, []};

use crate::keeper::MemKeeper;
use edge_traits::{CallNumbers, EdgeFault, FetchFault, FileList, Keeper, none_of};
use farm_types::Bytes;
use std::alloc::Global;

/// A keeper of files in memory that never fails.
#[derive(Drop)]
pub struct MemNeverKeeper {
    inner: MemKeeper,
    ghost never: { inner.calls.fails ≡ [] },
}

impl MemNeverKeeper {
    ghost use Rattle.std.specs.Prelude.{◌≡◌, [], None};
    ghost use Rattle.edge_memory.specs.Nevers.{never_keeper_state};

    /// A keeper of these files. It takes no memory.
    pub fn new(files: FileList, fails: CallNumbers) -> MemNeverKeeper
        ensures { never_keeper_state result ≡ record { files = files; fails = []; made = 0; overruns = 0; puts = []; fetches = []; pending = None } }
    {
        MemNeverKeeper {
            inner: MemKeeper::new(files, none_of(fails)),
        }
    }
}

impl Keeper for MemNeverKeeper {
    ghost use Rattle.std.specs.Prelude.{◌≡◌, ◌<◌, length, IsErrOf, IfErr};
    ghost use Rattle.edge_traits.specs.FileMaps.{IsStaged};
    ghost use Rattle.edge_traits.specs.Keepers.{IsIdle, IsPending, FetchCause};
    ghost use Rattle.edge_traits.specs.declared.faults.EdgeFault.TheVariants.{Failed};
    ghost use Rattle.edge_traits.specs.declared.faults.FetchFault.TheVariants.{Failed as FetchFailed};
    ghost use Rattle.edge_memory.specs.Keepers.{after_begin, after_add, after_commit, after_abandon, IsFetchAnswer, after_fetch};
    ghost use Rattle.edge_memory.specs.Nevers.{never_keeper_state, never_keeper_shows};

    ghost shows = { λ k. never_keeper_shows (never_keeper_state k) };

    fn is_pending(&self) -> bool {
        self.inner.is_pending()
    }

    #[tactic(auto, using(edge_traits::proofs::Counting::nevers))]
    fn begin(&mut self, alloc: Global, path: &Bytes) -> Result<(), EdgeFault>
        requires idle { IsIdle (never_keeper_shows (never_keeper_state self.old)) }
        requires name { ¬ (IsStaged path.now) }
        ensures never { ¬ (IsErrOf result Failed) }
        ensures state { never_keeper_state self.new ≡ after_begin (never_keeper_state self.old) path.now result }
    {
        self.inner.begin(alloc, path)
    }

    #[tactic(auto, using(edge_traits::proofs::Counting::nevers))]
    fn add(&mut self, alloc: Global, piece: &[u8]) -> Result<(), EdgeFault>
        requires pending { IsPending (never_keeper_shows (never_keeper_state self.old)) }
        requires some { 0 < length piece.now }
        ensures never { ¬ (IsErrOf result Failed) }
        ensures state { never_keeper_state self.new ≡ after_add (never_keeper_state self.old) piece.now result }
    {
        self.inner.add(alloc, piece)
    }

    #[tactic(auto, using(edge_traits::proofs::Counting::nevers))]
    fn commit(&mut self, alloc: Global) -> Result<(), EdgeFault>
        requires pending { IsPending (never_keeper_shows (never_keeper_state self.old)) }
        ensures never { ¬ (IsErrOf result Failed) }
        ensures state { never_keeper_state self.new ≡ after_commit (never_keeper_state self.old) result }
    {
        self.inner.commit(alloc)
    }

    fn abandon(&mut self)
        ensures state { never_keeper_state self.new ≡ after_abandon (never_keeper_state self.old) }
    {
        self.inner.abandon();
    }

    #[tactic(auto, using(edge_traits::proofs::Counting::nevers))]
    fn fetch(&mut self, alloc: Global, path: &Bytes, bound: u32) -> Result<Bytes, FetchFault>
        requires idle { IsIdle (never_keeper_shows (never_keeper_state self.old)) }
        requires name { ¬ (IsStaged path.now) }
        ensures answer { IsFetchAnswer (never_keeper_state self.old) path.now bound result }
        ensures never { ¬ (IsErrOf result FetchFailed) }
        ensures state { never_keeper_state self.new ≡ after_fetch (never_keeper_state self.old) path.now result }
        ensures cause { IfErr result (FetchCause path.now bound (never_keeper_shows (never_keeper_state self.old)) (never_keeper_shows (never_keeper_state self.new))) }
    {
        self.inner.fetch(alloc, path, bound)
    }
}
