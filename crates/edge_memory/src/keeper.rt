use edge_traits::{
    CallNumbers, Calls, EdgeFault, Fetch, FetchFault, FileList, Keeper, Put, raised,
};
use farm_types::{Bytes, Room, Trail};
use std::alloc::Global;

/// A keeper of files in memory.
#[derive(Drop)]
pub struct MemKeeper {
    files: FileList,
    calls: Calls,
    overruns: u64,
    puts: Trail<Put>,
    fetches: Trail<Fetch>,
    pending: Option<Put>,
}

impl MemKeeper {
    ghost use Rattle.std.specs.Prelude.{◌≡◌, [], None};
    ghost use Rattle.edge_memory.specs.Keepers.{keeper_state};

    /// A keeper of these files. It takes no memory.
    pub fn new(files: FileList, fails: CallNumbers) -> MemKeeper
        ensures { keeper_state result ≡ record { files = files; fails = fails; made = 0; overruns = 0; puts = []; fetches = []; pending = None } }
    {
        MemKeeper {
            files,
            calls: Calls::new(fails),
            overruns: 0,
            puts: Trail::new(),
            fetches: Trail::new(),
            pending: None,
        }
    }

    /// The files that were put, in order. It takes no memory.
    pub fn into_puts(self) -> Trail<Put>
        ensures { result ≡ (keeper_state self).puts }
    {
        self.puts
    }
}

impl Keeper for MemKeeper {
    ghost use Rattle.std.specs.Prelude.{◌≡◌, ◌≤◌, ◌<◌, ◌↔◌, length, IsTrue, IsErrOf, IfErr, OnOk};
    ghost use Rattle.edge_traits.specs.Causes.{HasCause};
    ghost use Rattle.edge_traits.specs.FileMaps.{IsStaged};
    ghost use Rattle.edge_traits.specs.Keepers.{IsIdle, IsPending, KeeperStill, FetchCause};
    ghost use Rattle.edge_traits.specs.declared.faults.EdgeFault.TheVariants.{Failed};
    ghost use Rattle.edge_traits.specs.Calls.{names_next};
    ghost use Rattle.edge_memory.specs.Keepers.{keeper_state, keeper_shows, after_begin, after_add, after_commit, after_abandon, IsFetchAnswer, after_fetch};

    ghost shows = { λ k. keeper_shows (keeper_state k) };

    fn is_pending(&self) -> bool {
        match &self.pending {
            Some(_) => true,
            None => false,
        }
    }

    #[tactic(auto, using(edge_traits::proofs::Counting::causes))]
    fn begin(&mut self, alloc: Global, path: &Bytes) -> Result<(), EdgeFault>
        requires idle { IsIdle (keeper_shows (keeper_state self.old)) }
        requires name { ¬ (IsStaged path.now) }
        ensures failed { IsErrOf result Failed ↔ IsTrue (names_next (keeper_state self.old).fails (keeper_state self.old).made) }
        ensures state { keeper_state self.new ≡ after_begin (keeper_state self.old) path.now result }
        ensures cause { HasCause (keeper_shows (keeper_state self.old)).faults (keeper_shows (keeper_state self.new)).faults result }
    {
        self.pending = None;
        if self.calls.fails_next() {
            return Err(EdgeFault::Failed);
        }
        let path = path.copy()?;
        let bytes = Bytes::new(alloc);
        self.pending = Some(Put { path, bytes });
        Ok(())
    }

    #[tactic(auto, using(edge_traits::proofs::Counting::causes))]
    fn add(&mut self, _alloc: Global, piece: &[u8]) -> Result<(), EdgeFault>
        requires pending { IsPending (keeper_shows (keeper_state self.old)) }
        requires some { 0 < length piece.now }
        ensures failed { IsErrOf result Failed ↔ IsTrue (names_next (keeper_state self.old).fails (keeper_state self.old).made) }
        ensures state { keeper_state self.new ≡ after_add (keeper_state self.old) piece.now result }
        ensures cause { HasCause (keeper_shows (keeper_state self.old)).faults (keeper_shows (keeper_state self.new)).faults result }
    {
        let Some(mut put) = self.pending.take() else {
            unreachable!()
        };
        if self.calls.fails_next() {
            return Err(EdgeFault::Failed);
        }
        put.bytes.try_extend(piece)?;
        self.pending = Some(put);
        Ok(())
    }

    #[tactic(auto, using(edge_traits::proofs::Counting::causes))]
    fn commit(&mut self, alloc: Global) -> Result<(), EdgeFault>
        requires pending { IsPending (keeper_shows (keeper_state self.old)) }
        ensures failed { IsErrOf result Failed ↔ IsTrue (names_next (keeper_state self.old).fails (keeper_state self.old).made) }
        ensures state { keeper_state self.new ≡ after_commit (keeper_state self.old) result }
        ensures cause { HasCause (keeper_shows (keeper_state self.old)).faults (keeper_shows (keeper_state self.new)).faults result }
    {
        let Some(put) = self.pending.take() else {
            unreachable!()
        };
        if self.calls.fails_next() {
            return Err(EdgeFault::Failed);
        }
        let room = Room::new(alloc)?;
        let content = put.bytes.copy()?;
        self.files.try_put(put.path.copy()?, content)?;
        self.puts.add(room, put);
        Ok(())
    }

    fn abandon(&mut self)
        ensures state { keeper_state self.new ≡ after_abandon (keeper_state self.old) }
    {
        self.pending = None;
    }

    #[tactic(auto, using(edge_traits::proofs::Counting::causes))]
    fn fetch(&mut self, alloc: Global, path: &Bytes, bound: u32) -> Result<Bytes, FetchFault>
        requires idle { IsIdle (keeper_shows (keeper_state self.old)) }
        requires name { ¬ (IsStaged path.now) }
        ensures answer { IsFetchAnswer (keeper_state self.old) path.now bound result }
        ensures state { keeper_state self.new ≡ after_fetch (keeper_state self.old) path.now result }
        ensures faults { (keeper_shows (keeper_state self.old)).faults ≤ (keeper_shows (keeper_state self.new)).faults }
        ensures done { OnOk result (KeeperStill (keeper_shows (keeper_state self.old)) (keeper_shows (keeper_state self.new))) }
        ensures cause { IfErr result (FetchCause path.now bound (keeper_shows (keeper_state self.old)) (keeper_shows (keeper_state self.new))) }
    {
        if self.calls.fails_next() {
            return Err(FetchFault::Failed);
        }
        let Some(content) = self.files.find(path) else {
            self.overruns = raised(self.overruns);
            return Err(FetchFault::Absent);
        };
        let bytes = content.len();
        if bytes > bound as usize {
            self.overruns = raised(self.overruns);
            return Err(FetchFault::TooMuch {
                bytes: bytes as u64,
            });
        }
        let room = Room::new(alloc)?;
        let answer = content.copy()?;
        let entry = Fetch {
            path: path.copy()?,
            bytes: content.copy()?,
        };
        self.fetches.add(room, entry);
        Ok(answer)
    }
}
