ghost use Rattle.std.specs.Prelude.{◌≡◌, ◌<◌, OnOk, OnErr};
ghost use Rattle.object_delivery.specs.FileViews.{moved_file};

use crate::Files;
use edge_traits::{CallNumbers, Calls, EdgeFault, FetchFault, FileList, raised};
use farm_types::Bytes;
use std::alloc::{AllocError, Global};

/// Files in memory, which follow a script.
#[derive(Drop)]
pub struct MemFiles {
    files: FileList,
    calls: Calls,
    most: u32,
    overruns: u64,
    ghost moves: { 0 < most },
}

impl MemFiles {
    ghost use Rattle.std.specs.Prelude.{◌≡◌, IfOk};
    ghost use Rattle.object_delivery.specs.FileViews.{content_of};
    ghost use Rattle.object_delivery.specs.ScriptedFiles.{files_state};

    /// These files. The calls of the numbers in `fails`, counted from 1, are those that fail, and `most` is the most bytes that one append adds.
    /// It takes no memory.
    pub fn new(files: FileList, fails: CallNumbers, most: u32) -> MemFiles
        requires { 0 < most }
        ensures { files_state result ≡ record { files = files; fails = fails; most = most; made = 0; overruns = 0 } }
    {
        MemFiles {
            files,
            calls: Calls::new(fails),
            most,
            overruns: 0,
        }
    }

    /// What the file holds, which is nothing if it isn't there.
    fn content(&self, alloc: Global, name: &Bytes) -> Result<Bytes, AllocError>
        ensures { IfOk result (λ bytes. bytes ≡ content_of (files_state self.now).files name.now) }
    {
        match self.files.find(name) {
            Some(content) => content.copy(),
            None => Ok(Bytes::new(alloc)),
        }
    }
}

impl Files for MemFiles {
    ghost use Rattle.std.specs.Prelude.{◌≡◌, ◌≢◌, Err, ◌≤◌, ◌↔◌, length, min, IsTrue, IsErrOf, IfOk, IfErr, OnOk};
    ghost use Rattle.edge_traits.specs.Calls.{names_next};
    ghost use Rattle.edge_traits.specs.Causes.{HasCause, IsRemoval};
    ghost use Rattle.edge_traits.specs.Keepers.{FetchCause, KeeperStill};
    ghost use Rattle.edge_traits.specs.declared.faults.EdgeFault.TheVariants.{Failed};
    ghost use Rattle.object_delivery.specs.FileViews.{as_keeper, HasAppendCause};
    ghost use Rattle.object_delivery.specs.ScriptedFiles.{files_state, files_shows, after_create, after_append, after_rename, after_remove, IsLoadAnswer, after_load};

    ghost shows = { λ f. files_shows (files_state f) };

    #[tactic(auto, using(edge_traits::proofs::Counting::causes))]
    fn create(&mut self, alloc: Global, name: &Bytes) -> Result<(), EdgeFault>
        ensures failed { IsErrOf result Failed ↔ IsTrue (names_next (files_state self.old).fails (files_state self.old).made) }
        ensures state { files_state self.new ≡ after_create (files_state self.old) name.now result }
        ensures cause { HasCause (files_shows (files_state self.old)).faults (files_shows (files_state self.new)).faults result }
    {
        if self.calls.fails_next() {
            return Err(EdgeFault::Failed);
        }
        self.files.try_put(name.copy()?, Bytes::new(alloc))?;
        Ok(())
    }

    #[tactic(auto, using(edge_traits::proofs::Counting::causes))]
    fn append(&mut self, alloc: Global, name: &Bytes, piece: &[u8]) -> Result<usize, EdgeFault>
        ensures failed { IsErrOf result Failed ↔ IsTrue (names_next (files_state self.old).fails (files_state self.old).made) }
        ensures taken { IfOk result (λ n. n ≡ min (files_state self.old).most (length piece.now)) }
        ensures state { files_state self.new ≡ after_append (files_state self.old) name.now piece.now result }
        ensures cause { HasAppendCause (files_shows (files_state self.old)).faults (files_shows (files_state self.new)).faults piece.now result }
    {
        if self.calls.fails_next() {
            return Err(EdgeFault::Failed);
        }
        let taken = piece.len().min(self.most as usize);
        let mut content = self.content(alloc, name)?;
        content.try_extend(&piece[..taken])?;
        self.files.try_put(name.copy()?, content)?;
        Ok(taken)
    }

    #[tactic(auto, using(edge_traits::proofs::Counting::causes))]
    fn rename(&mut self, _alloc: Global, from: &Bytes, to: &Bytes) -> Result<(), EdgeFault>
        ensures failed { IsErrOf result Failed ↔ IsTrue (names_next (files_state self.old).fails (files_state self.old).made) }
        ensures state { files_state self.new ≡ after_rename (files_state self.old) from.now to.now result }
        ensures cause { HasCause (files_shows (files_state self.old)).faults (files_shows (files_state self.new)).faults result }
    {
        if self.calls.fails_next() {
            return Err(EdgeFault::Failed);
        }
        move_file(&mut self.files, from, to)?;
        Ok(())
    }

    #[tactic(auto, using(edge_traits::proofs::Counting::causes))]
    fn remove(&mut self, name: &Bytes) -> Result<(), EdgeFault>
        ensures failed { IsErrOf result Failed ↔ IsTrue (names_next (files_state self.old).fails (files_state self.old).made) }
        ensures memory { result ≢ Err EdgeFault.Memory }
        ensures once { IsRemoval (files_shows (files_state self.old)).faults (files_shows (files_state self.new)).faults }
        ensures state { files_state self.new ≡ after_remove (files_state self.old) name.now result }
        ensures cause { HasCause (files_shows (files_state self.old)).faults (files_shows (files_state self.new)).faults result }
    {
        if self.calls.fails_next() {
            return Err(EdgeFault::Failed);
        }
        self.files.remove(name);
        Ok(())
    }

    #[tactic(auto, using(edge_traits::proofs::Counting::causes))]
    fn load(&mut self, _alloc: Global, name: &Bytes, bound: u32) -> Result<Bytes, FetchFault>
        ensures answer { IsLoadAnswer (files_state self.old) name.now bound result }
        ensures state { files_state self.new ≡ after_load (files_state self.old) result }
        ensures faults { (files_shows (files_state self.old)).faults ≤ (files_shows (files_state self.new)).faults }
        ensures done { OnOk result (KeeperStill (as_keeper (files_shows (files_state self.old))) (as_keeper (files_shows (files_state self.new)))) }
        ensures cause { IfErr result (FetchCause name.now bound (as_keeper (files_shows (files_state self.old))) (as_keeper (files_shows (files_state self.new)))) }
    {
        if self.calls.fails_next() {
            return Err(FetchFault::Failed);
        }
        let Some(content) = self.files.find(name) else {
            self.overruns = raised(self.overruns);
            return Err(FetchFault::Absent);
        };
        let bytes = content.len();
        if bytes > bound as usize {
            self.overruns = raised(self.overruns);
            return Err(FetchFault::TooMuch {
                bytes: bytes as u64,
            });
        }
        Ok(content.copy()?)
    }
}

/// Gives a file another name, if it is there.
fn move_file(files: &mut FileList, from: &Bytes, to: &Bytes) -> Result<(), AllocError>
    ensures ok { OnOk result (files.new ≡ moved_file files.old from.now to.now) }
    ensures err { OnErr result (files.new ≡ files.old) }
{
    let Some(content) = files.find(from) else {
        return Ok(());
    };
    let content = content.copy()?;
    files.try_put(to.copy()?, content)?;
    if from.as_slice() != to.as_slice() {
        files.remove(from);
    }
    Ok(())
}
