ghost use Rattle.std.specs.Prelude.{◌≡◌, ◌<◌, ◌≤◌, ◌++◌, ℕ, List, [], length, IsTrue, Some, None, IfOk, IfErr, OnOk, OnErr};
ghost use Rattle.std.specs.FinMap.{insert, remove};
ghost use Rattle.edge_traits.specs.Told.{Became};
ghost use Rattle.edge_traits.specs.Causes.{HasCause, HasPutCause, IsRemoval};
ghost use Rattle.edge_traits.specs.FileMaps.{IsStaged, files_after};
ghost use Rattle.edge_traits.specs.Keepers.{IsIdle, IsPending, HasPending};
ghost use Rattle.object_delivery.specs.FileViews.{appended, content_of};
ghost use Rattle.object_delivery.specs.Staging.{Kept, path_of, IsSound, HasFile, keeper_view, begun, still, staged, ChangesOnly, delivered, RemovedOrLeft, DroppedPut, AbandonedPut, FailedPut};

use crate::Files;
use edge_traits::{EdgeFault, FetchFault, Keeper};
use farm_types::Bytes;
use std::alloc::{AllocError, Global};
use std::marker::Model;

/// A file that is being written: the path that it is for, and the name that it has until then.
#[derive(Drop)]
pub struct Staged {
    pub path: Bytes,
    pub name: Bytes,
}

/// A keeper over files. It writes a file under its name with `.farm~` added, and renames it once it is whole.
#[derive(Drop)]
pub struct FileKeeper<F: Files> {
    files: F,
    pending: Option<Staged>,
}

impl<F: Files> Model for FileKeeper<F> {
    ghost Value = { Kept F };

    ghost view = { λ k. record { files = k.files; pending = path_of k.pending } };

    ghost invariant = { λ k. IsSound (F.shows k.files) k.pending };
}

impl<F: Files> FileKeeper<F> {
    /// A keeper with no put pending. It takes no memory.
    pub fn new(files: F) -> FileKeeper<F>
        ensures { result ≡ record { files = files; pending = None } }
    {
        FileKeeper {
            files,
            pending: None,
        }
    }

    /// The files that were kept. It takes no memory.
    pub fn into_files(self) -> F
        ensures { result ≡ self.files }
    {
        self.files
    }
}

impl<F: Files> Keeper for FileKeeper<F> {
    ghost shows = { λ k. keeper_view (F.shows k.files) k.pending };

    fn is_pending(&self) -> bool {
        match &self.pending {
            Some(_) => true,
            None => false,
        }
    }

    /// Begins a put of this path, and keeps the name under which it is written.
    fn begin(&mut self, alloc: Global, path: &Bytes) -> Result<(), EdgeFault>
        requires idle { IsIdle (keeper_view (F.shows self.old.files) self.old.pending) }
        requires name { ¬ (IsStaged path.now) }
        ensures ok { OnOk result (Became (F.shows self.old.files).files (F.shows self.new.files).files (insert (F.shows self.old.files).files.value (staged path.now) [])) }
        ensures err { IfErr result (FailedPut (F.shows self.old.files) (F.shows self.new.files) path.now) }
        ensures pending { self.new.pending ≡ begun path.now result }
        ensures overruns { (F.shows self.new.files).overruns ≡ (F.shows self.old.files).overruns }
        ensures cause { HasPutCause (F.shows self.old.files).faults (F.shows self.new.files).faults result }
    {
        let name = staged_name(path)?;
        let path = path.copy()?;
        self.pending = None;
        let created = create(&mut self.files, alloc, &name);
        if created.is_ok() {
            self.pending = Some(Staged { path, name });
        }
        created
    }

    /// Adds these bytes to the file that is being written.
    fn add(&mut self, alloc: Global, piece: &[u8]) -> Result<(), EdgeFault>
        requires pending { IsPending (keeper_view (F.shows self.old.files) self.old.pending) }
        requires some { 0 < length piece.now }
        ensures ok { (path : List ℕ) → self.old.pending ≡ Some path
            → OnOk result (Became (F.shows self.old.files).files (F.shows self.new.files).files (appended (F.shows self.old.files).files.value (staged path) piece.now)) }
        ensures err { (path : List ℕ) → self.old.pending ≡ Some path → IfErr result (DroppedPut (F.shows self.old.files) (F.shows self.new.files) path) }
        ensures pending { self.new.pending ≡ still self.old.pending result }
        ensures overruns { (F.shows self.new.files).overruns ≡ (F.shows self.old.files).overruns }
        ensures cause { HasPutCause (F.shows self.old.files).faults (F.shows self.new.files).faults result }
    {
        let Some(staging) = self.pending.take() else {
            unreachable!()
        };
        let added = fill(&mut self.files, alloc, &staging.name, piece);
        if added.is_ok() {
            self.pending = Some(staging);
        }
        added
    }

    /// Gives the file that is being written its name.
    fn commit(&mut self, alloc: Global) -> Result<(), EdgeFault>
        requires pending { IsPending (keeper_view (F.shows self.old.files) self.old.pending) }
        ensures ok { (path : List ℕ) → self.old.pending ≡ Some path
            → OnOk result (Became (F.shows self.old.files).files (F.shows self.new.files).files
            (delivered (F.shows self.old.files).files.value path (content_of (F.shows self.old.files).files.value (staged path)))) }
        ensures err { (path : List ℕ) → self.old.pending ≡ Some path → IfErr result (DroppedPut (F.shows self.old.files) (F.shows self.new.files) path) }
        ensures files { (path bytes : List ℕ) → HasPending (keeper_view (F.shows self.old.files) self.old.pending) path bytes
            → Became (keeper_view (F.shows self.old.files) self.old.pending).files (keeper_view (F.shows self.new.files) self.new.pending).files
            (files_after (keeper_view (F.shows self.old.files) self.old.pending).files.value path bytes result) }
        ensures pending { self.new.pending ≡ None }
        ensures overruns { (F.shows self.new.files).overruns ≡ (F.shows self.old.files).overruns }
        ensures cause { HasPutCause (F.shows self.old.files).faults (F.shows self.new.files).faults result }
    {
        let Some(staging) = self.pending.take() else {
            unreachable!()
        };
        finish(&mut self.files, alloc, &staging.name, &staging.path)
    }

    /// Takes away the file that is being written, if there is one. It stays if its removal fails.
    fn abandon(&mut self)
        ensures dropped { (path : List ℕ) → self.old.pending ≡ Some path → AbandonedPut (F.shows self.old.files) (F.shows self.new.files) path }
        ensures idle { self.old.pending ≡ None → self.new ≡ self.old }
        ensures pending { self.new.pending ≡ None }
        ensures overruns { (F.shows self.new.files).overruns ≡ (F.shows self.old.files).overruns }
        ensures faults { (F.shows self.old.files).faults ≤ (F.shows self.new.files).faults }
        ensures removal { IsRemoval (F.shows self.old.files).faults (F.shows self.new.files).faults }
    {
        if let Some(staging) = self.pending.take() {
            let _ = self.files.remove(&staging.name);
        }
    }

    /// Makes the file hold exactly these bytes, or leaves it as it was.
    fn put(&mut self, alloc: Global, path: &Bytes, bytes: &[u8]) -> Result<(), EdgeFault>
        requires idle { IsIdle (keeper_view (F.shows self.old.files) self.old.pending) }
        requires name { ¬ (IsStaged path.now) }
        ensures ok { OnOk result (Became (F.shows self.old.files).files (F.shows self.new.files).files (delivered (F.shows self.old.files).files.value path.now bytes.now)) }
        ensures err { IfErr result (FailedPut (F.shows self.old.files) (F.shows self.new.files) path.now) }
        ensures pending { self.new.pending ≡ None }
        ensures overruns { (F.shows self.new.files).overruns ≡ (F.shows self.old.files).overruns }
        ensures cause { HasPutCause (F.shows self.old.files).faults (F.shows self.new.files).faults result }
    {
        self.begin(alloc, path)?;
        if !bytes.is_empty() {
            self.add(alloc, bytes)?;
        }
        self.commit(alloc)
    }

    fn fetch(&mut self, alloc: Global, path: &Bytes, bound: u32) -> Result<Bytes, FetchFault> {
        self.files.load(alloc, path, bound)
    }
}

/// The name under which a file is written.
fn staged_name(path: &Bytes) -> Result<Bytes, AllocError>
    ensures { IfOk result (λ name. name ≡ staged path.now) }
{
    let mut name = path.copy()?;
    name.try_extend(ENDING)?;
    Ok(name)
}

const ENDING: &[u8] = b".farm~";

/// Makes a file empty, or takes it away.
fn create<F: Files>(files: &mut F, alloc: Global, name: &Bytes) -> Result<(), EdgeFault>
    ensures ok { OnOk result (Became (F.shows files.old).files (F.shows files.new).files (insert (F.shows files.old).files.value name.now [])) }
    ensures err { IfErr result (RemovedOrLeft (F.shows files.old) (F.shows files.new) name.now) }
    ensures overruns { (F.shows files.new).overruns ≡ (F.shows files.old).overruns }
    ensures cause { HasPutCause (F.shows files.old).faults (F.shows files.new).faults result }
{
    let created = files.create(alloc, name);
    if created.is_err() {
        let _ = files.remove(name);
    }
    created
}

/// Adds all these bytes at the end of a file that is there, or takes it away.
fn fill<F: Files>(files: &mut F, alloc: Global, name: &Bytes, piece: &[u8]) -> Result<(), EdgeFault>
    requires there { IsTrue (F.shows files.old).files.known → HasFile (F.shows files.old).files.value name.now }
    ensures ok { OnOk result (Became (F.shows files.old).files (F.shows files.new).files (appended (F.shows files.old).files.value name.now piece.now)) }
    ensures err { IfErr result (RemovedOrLeft (F.shows files.old) (F.shows files.new) name.now) }
    ensures overruns { (F.shows files.new).overruns ≡ (F.shows files.old).overruns }
    ensures cause { HasPutCause (F.shows files.old).faults (F.shows files.new).faults result }
{
    let added = append_all(files, alloc, name, piece);
    if added.is_err() {
        let _ = files.remove(name);
    }
    added
}

/// Gives a file that is there another name, or takes it away.
fn finish<F: Files>(
    files: &mut F,
    alloc: Global,
    name: &Bytes,
    path: &Bytes,
) -> Result<(), EdgeFault>
    requires there { IsTrue (F.shows files.old).files.known → HasFile (F.shows files.old).files.value name.now }
    ensures ok { OnOk result (Became (F.shows files.old).files (F.shows files.new).files
        (insert (remove (F.shows files.old).files.value name.now) path.now (content_of (F.shows files.old).files.value name.now))) }
    ensures err { IfErr result (RemovedOrLeft (F.shows files.old) (F.shows files.new) name.now) }
    ensures overruns { (F.shows files.new).overruns ≡ (F.shows files.old).overruns }
    ensures cause { HasPutCause (F.shows files.old).faults (F.shows files.new).faults result }
{
    let renamed = files.rename(alloc, name, path);
    if renamed.is_err() {
        let _ = files.remove(name);
    }
    renamed
}

/// Adds all these bytes at the end of a file that is there.
fn append_all<F: Files>(
    files: &mut F,
    alloc: Global,
    name: &Bytes,
    piece: &[u8],
) -> Result<(), EdgeFault>
    requires there { IsTrue (F.shows files.old).files.known → HasFile (F.shows files.old).files.value name.now }
    ensures ok { OnOk result (Became (F.shows files.old).files (F.shows files.new).files (appended (F.shows files.old).files.value name.now piece.now)) }
    ensures err { OnErr result (ChangesOnly (F.shows files.old).files (F.shows files.new).files name.now) }
    ensures overruns { (F.shows files.new).overruns ≡ (F.shows files.old).overruns }
    ensures cause { HasCause (F.shows files.old).faults (F.shows files.new).faults result }
{
    let mut rest = piece;
    'adding: while !rest.is_empty() {
        let taken = files.append(alloc, name, rest)?;
        if taken == 0 {
            return Err(EdgeFault::Failed);
        }
        rest = &rest[taken..];
    }
    Ok(())
}
