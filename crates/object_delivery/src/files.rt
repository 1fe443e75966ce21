ghost use Rattle.std.specs.Prelude.{◌≡◌, ◌≢◌, Err, ◌≤◌, [], length, IfOk, IfErr, OnOk};
ghost use Rattle.edge_traits.specs.Told.{Became};
ghost use Rattle.edge_traits.specs.Causes.{HasCause, IsRemoval};
ghost use Rattle.edge_traits.specs.FileMaps.{files_after};
ghost use Rattle.edge_traits.specs.Keepers.{Fetched, FetchCause, KeeperStill};
ghost use Rattle.object_delivery.specs.FileViews.{FilesView, as_keeper, Appends, HasAppendCause, files_renamed, files_without};

use edge_traits::{EdgeFault, FetchFault};
use farm_types::Bytes;
use std::alloc::Global;

/// Files by their names, as a system of files offers them.
pub trait Files {
    /// What they show.
    ghost shows: { Self → FilesView };

    /// Makes the file empty, whether it is there or not.
    fn create(&mut self, alloc: Global, name: &Bytes) -> Result<(), EdgeFault>
        ensures files { Became (shows self.old).files (shows self.new).files (files_after (shows self.old).files.value name.now [] result) }
        ensures overruns { (shows self.new).overruns ≡ (shows self.old).overruns }
        ensures cause { HasCause (shows self.old).faults (shows self.new).faults result };

    /// Adds the front of the piece at the end of the file, and returns how many bytes were taken.
    /// A call that takes none of a piece with bytes counts as a failed one, though it returns no fault. One that returns an `Err` may have
    /// added a front of the piece.
    fn append(&mut self, alloc: Global, name: &Bytes, piece: &[u8]) -> Result<usize, EdgeFault>
        ensures bound { IfOk result (λ n. n ≤ length piece.now) }
        ensures files { Appends (shows self.old).files (shows self.new).files name.now piece.now result }
        ensures overruns { (shows self.new).overruns ≡ (shows self.old).overruns }
        ensures cause { HasAppendCause (shows self.old).faults (shows self.new).faults piece.now result };

    /// Gives the file another name, in place of the file that had it.
    fn rename(&mut self, alloc: Global, from: &Bytes, to: &Bytes) -> Result<(), EdgeFault>
        ensures files { Became (shows self.old).files (shows self.new).files (files_renamed (shows self.old).files.value from.now to.now result) }
        ensures overruns { (shows self.new).overruns ≡ (shows self.old).overruns }
        ensures cause { HasCause (shows self.old).faults (shows self.new).faults result };

    /// Takes the file away. It takes no memory, and counts one fault at most.
    fn remove(&mut self, name: &Bytes) -> Result<(), EdgeFault>
        ensures files { Became (shows self.old).files (shows self.new).files (files_without (shows self.old).files.value name.now result) }
        ensures overruns { (shows self.new).overruns ≡ (shows self.old).overruns }
        ensures memory { result ≢ Err EdgeFault.Memory }
        ensures once { IsRemoval (shows self.old).faults (shows self.new).faults }
        ensures cause { HasCause (shows self.old).faults (shows self.new).faults result };

    /// Gives the whole file, which has at most `bound` bytes, as `fetch` of a keeper does.
    fn load(&mut self, alloc: Global, name: &Bytes, bound: u32) -> Result<Bytes, FetchFault>
        ensures whole { IfOk result (Fetched name.now bound (as_keeper (shows self.new))) }
        ensures files { Became (shows self.old).files (shows self.new).files (shows self.old).files.value }
        ensures faults { (shows self.old).faults ≤ (shows self.new).faults }
        ensures overruns { (shows self.old).overruns ≤ (shows self.new).overruns }
        ensures done { OnOk result (KeeperStill (as_keeper (shows self.old)) (as_keeper (shows self.new))) }
        ensures cause { IfErr result (FetchCause name.now bound (as_keeper (shows self.old)) (as_keeper (shows self.new))) };
}
