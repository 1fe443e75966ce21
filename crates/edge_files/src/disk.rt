ghost use Rattle.std.specs.Prelude.{◌≡◌, ◌≢◌, ℕ, ◌≤◌, length, IsOk, IfOk, IfErr, OnOk, OnErr, MatchResult, None, Err, true, string_bytes};
ghost use Rattle.std.specs.IoError.{error_kind};
ghost use Rattle.std.specs.Str.{IsUtf8};
ghost use Rattle.edge_streams.specs.Counts.{call_faults};
ghost use Rattle.edge_files.specs.Counts.{append_faults, load_faults, load_overruns};
ghost use Rattle.edge_files.specs.OwnNames.{first_names, SameOwner};
ghost use Rattle.edge_streams.specs.Reading.{IsReadWithin};
ghost use Rattle.edge_files.specs.Loads.{IsLoadFault, load_of};
ghost use Rattle.edge_files.specs.Staging.{may_be_put};
ghost use Rattle.edge_files.specs.Views.{files_view, counted_files, files_names, can_put, takes_empty};

use crate::notices::{tell_empty_file, tell_unput, tell_unread};
use crate::own_files::OwnNames;
use crate::staging::{StagedFile, move_to, stage};
use edge_streams::{Reading, first_room, raise, read_to_end};
use edge_traits::{EdgeFault, FetchFault};
use farm_types::Bytes;
use object_delivery::Files;
use std::alloc::Global;
use std::fs::{File, OpenFile};
use std::io::{Eprint, ErrorKind};
use std::{fs, io, rt, str};

/// The files of the system, for a keeper that writes one file at a time. A name that isn't UTF-8 counts as a fault.
/// A file is written as a new file `farm-PROCESS-SERIAL.farm~` in its folder, and gets its name in the end. A character device gets the bytes in the
/// end, from such a file in the folder that this value was given.
/// Anything else that is no regular file is never replaced. A file without a byte may be refused.
#[derive(Drop)]
pub struct DiskFiles<R> {
    rt: R,
    names: OwnNames,
    puts_empty: bool,
    staged: Option<StagedFile>,
    faults: u64,
    overruns: u64,
}

impl<R: rt::Files<File = File>> DiskFiles<R> {
    /// The files, without faults and overruns so far. What is for a device is written in `folder`, and `process` is the number of
    /// this process. A put of a file without a byte is a fault unless they put empty files.
    pub fn new(rt: R, folder: String, process: u32, puts_empty: bool) -> DiskFiles<R>
        ensures view { files_view result ≡ counted_files 0 0 }
        ensures names { files_names result ≡ first_names (string_bytes folder) process }
        ensures empty { takes_empty result ≡ puts_empty }
    {
        DiskFiles {
            rt,
            names: OwnNames::new(folder, process),
            puts_empty,
            staged: None,
            faults: 0,
            overruns: 0,
        }
    }
}

impl<R: rt::Files<File = File> + Eprint> Files for DiskFiles<R> {
    ghost shows = { files_view };

    fn create(&mut self, alloc: Global, name: &Bytes) -> Result<(), EdgeFault>
        ensures name { OnOk result (IsUtf8 name.now) }
        ensures names { SameOwner (files_names self.old) (files_names self.new) }
        ensures overruns { (files_view self.new).overruns ≡ (files_view self.old).overruns }
        ensures faults { (files_view self.new).faults ≡ call_faults result (files_view self.old).faults }
    {
        match stage(&self.rt, &mut self.names, alloc, name) {
            Ok(staged) => {
                self.staged = Some(staged);
                Ok(())
            }
            Err(EdgeFault::Failed) => {
                raise(&mut self.faults);
                Err(EdgeFault::Failed)
            }
            Err(EdgeFault::Memory) => Err(EdgeFault::Memory),
        }
    }

    fn append(&mut self, _alloc: Global, name: &Bytes, piece: &[u8]) -> Result<usize, EdgeFault>
        ensures bound { IfOk result (λ n. n ≤ length piece.now) }
        ensures names { files_names self.new ≡ files_names self.old }
        ensures memory { result ≢ Err EdgeFault.Memory }
        ensures overruns { (files_view self.new).overruns ≡ (files_view self.old).overruns }
        ensures faults { (files_view self.new).faults ≡ append_faults result piece.now (files_view self.old).faults }
    {
        match append_piece(&mut self.staged, name, piece) {
            Ok(taken) => {
                if taken == 0 && !piece.is_empty() {
                    raise(&mut self.faults);
                }
                Ok(taken)
            }
            Err(error) => {
                tell_unput_bytes(&self.rt, name, &error);
                raise(&mut self.faults);
                Err(EdgeFault::Failed)
            }
        }
    }

    fn rename(&mut self, _alloc: Global, from: &Bytes, to: &Bytes) -> Result<(), EdgeFault>
        ensures name { OnOk result (IsUtf8 to.now) }
        ensures filled { OnOk result (can_put self.old ≡ true) }
        ensures names { files_names self.new ≡ files_names self.old }
        ensures overruns { (files_view self.new).overruns ≡ (files_view self.old).overruns }
        ensures memory { result ≢ Err EdgeFault.Memory }
        ensures faults { (files_view self.new).faults ≡ call_faults result (files_view self.old).faults }
    {
        if !may_be_put(self.puts_empty, &self.staged) {
            tell_empty_put(&self.rt, to);
            raise(&mut self.faults);
            return Err(EdgeFault::Failed);
        }
        match rename_file(&self.rt, &mut self.staged, from, to) {
            Ok(()) => Ok(()),
            Err(error) => {
                tell_unput_bytes(&self.rt, to, &error);
                raise(&mut self.faults);
                Err(EdgeFault::Failed)
            }
        }
    }

    fn remove(&mut self, name: &Bytes) -> Result<(), EdgeFault>
        ensures names { files_names self.new ≡ files_names self.old }
        ensures overruns { (files_view self.new).overruns ≡ (files_view self.old).overruns }
        ensures memory { result ≢ Err EdgeFault.Memory }
        ensures faults { (files_view self.new).faults ≡ call_faults result (files_view self.old).faults }
    {
        match remove_file(&self.rt, &mut self.staged, name) {
            Ok(()) => Ok(()),
            Err(error) => {
                tell_unput_bytes(&self.rt, name, &error);
                raise(&mut self.faults);
                Err(EdgeFault::Failed)
            }
        }
    }

    fn load(&mut self, alloc: Global, name: &Bytes, bound: u32) -> Result<Bytes, FetchFault>
        ensures within { IfOk result (λ bytes. length bytes ≤ bound) }
        ensures cause { IfErr result (IsLoadFault bound) }
        ensures name { OnOk result (IsUtf8 name.now) }
        ensures names { files_names self.new ≡ files_names self.old }
        ensures faults { (files_view self.new).faults ≡ load_faults result (files_view self.old).faults }
        ensures overruns { (files_view self.new).overruns ≡ load_overruns result (files_view self.old).overruns }
    {
        let loaded = load_file(&self.rt, alloc, name, bound);
        match loaded {
            Ok(_) | Err(FetchFault::Memory) => {}
            Err(FetchFault::Absent | FetchFault::TooMuch { .. }) => raise(&mut self.overruns),
            Err(FetchFault::Failed) => raise(&mut self.faults),
        }
        loaded
    }
}

/// Whether the file that is being written may be put.
fn may_be_put(puts_empty: bool, staged: &Option<StagedFile>) -> bool
    ensures { result ≡ may_be_put puts_empty staged.now }
{
    puts_empty
        || match staged {
            None => false,
            Some(file) => file.has_bytes(),
        }
}

/// An empty file isn't put under this name. One that isn't UTF-8 has no line.
fn tell_empty_put<R: Eprint>(rt: &R, name: &Bytes) {
    if let Ok(text) = text_of(name) {
        tell_empty_file(rt, text);
    }
}

/// A put of this name failed, for the system's reason. A name that isn't UTF-8 has no line.
fn tell_unput_bytes<R: Eprint>(rt: &R, name: &Bytes, error: &io::Error) {
    if let Ok(text) = text_of(name) {
        tell_unput(rt, text.strip_suffix(".farm~").unwrap_or(text), error);
    }
}

/// A name as text. One that isn't UTF-8 has none.
pub(crate) fn text_of(name: &Bytes) -> io::Result<&str>
    ensures { MatchResult result (λ text. (text.now ≡ name.now) × IsUtf8 name.now) (λ error. ¬ (IsUtf8 name.now)) }
{
    str::from_utf8(name.as_slice()).map_err(|_| io::Error::from(ErrorKind::InvalidInput))
}

fn append_piece(staged: &mut Option<StagedFile>, name: &Bytes, piece: &[u8]) -> io::Result<usize>
    ensures { IfOk result (λ n. n ≤ length piece.now) }
{
    match staged {
        Some(file) => {
            if !file.stands_for(name) {
                return Err(io::Error::from(ErrorKind::NotFound));
            }
            file.write(piece)
        }
        None => Err(io::Error::from(ErrorKind::NotFound)),
    }
}

/// Gives the file that is being written its own name. If that fails, it is still being written.
fn rename_file<R: rt::Files>(
    rt: &R,
    staged: &mut Option<StagedFile>,
    from: &Bytes,
    to: &Bytes,
) -> io::Result<()>
    ensures name { OnOk result (IsUtf8 to.now) }
    ensures ended { OnOk result (staged.new ≡ None) }
    ensures stays { OnErr result (staged.new ≡ staged.old) }
{
    let Some(file) = staged else {
        return Err(io::Error::from(ErrorKind::NotFound));
    };
    if !file.stands_for(from) {
        return Err(io::Error::from(ErrorKind::NotFound));
    }
    move_to(rt, file.path(), file.goal_for(text_of(to)?))?;
    *staged = None;
    Ok(())
}

/// Takes the file that is being written away, and does nothing if there is none. It is being written no more, whatever the answer is.
fn remove_file<R: rt::Files>(
    rt: &R,
    staged: &mut Option<StagedFile>,
    name: &Bytes,
) -> io::Result<()>
    ensures ended { staged.new ≡ None }
    ensures idle { staged.old ≡ None → IsOk result }
{
    match staged.take() {
        Some(file) => {
            if !file.stands_for(name) {
                return Err(io::Error::from(ErrorKind::NotFound));
            }
            fs::remove_file(rt, file.path())
        }
        None => Ok(()),
    }
}

fn load_file<R: rt::Files + Eprint>(
    rt: &R,
    alloc: Global,
    name: &Bytes,
    bound: u32,
) -> Result<Bytes, FetchFault>
    ensures within { IfOk result (λ bytes. length bytes ≤ bound) }
    ensures cause { IfErr result (IsLoadFault bound) }
    ensures name { OnOk result (IsUtf8 name.now) }
{
    let Ok(path) = text_of(name) else {
        return Err(FetchFault::Failed);
    };
    load(rt, alloc, path, bound)
}

/// The whole file, which has at most `bound` bytes.
pub fn load<R: rt::Files + Eprint>(
    rt: &R,
    alloc: Global,
    path: &str,
    bound: u32,
) -> Result<Bytes, FetchFault>
    ensures within { IfOk result (λ bytes. length bytes ≤ bound) }
    ensures cause { IfErr result (IsLoadFault bound) }
{
    match File::open(rt, path) {
        Ok(mut file) => {
            let room = first_room(length_of(&file), bound);
            loaded(read_to_end(&mut file, alloc, bound, room)?)
        }
        Err(error) => {
            if error.kind() != ErrorKind::NotFound {
                tell_unread(rt, path, &error);
            }
            Err(why_unopened(&error))
        }
    }
}

/// How long the system says that a file is, and 0 if it doesn't say.
fn length_of<F: OpenFile>(file: &F) -> u64 {
    match file.metadata() {
        Ok(metadata) => metadata.len(),
        Err(_) => 0,
    }
}

/// What a load is by what its reading gave.
fn loaded(reading: Reading) -> Result<Bytes, FetchFault>
    ensures loaded { result ≡ load_of reading }
    ensures within { (bound : ℕ) → IsReadWithin bound reading → IfOk result (λ bytes. length bytes ≤ bound) }
    ensures cause { (bound : ℕ) → IsReadWithin bound reading → IfErr result (IsLoadFault bound) }
{
    match reading {
        Reading::Whole(bytes) => Ok(bytes),
        Reading::Over(bytes) => Err(FetchFault::TooMuch { bytes }),
        Reading::Failed => Err(FetchFault::Failed),
    }
}

/// Why a file can't be opened: it isn't there, or the system says anything else.
fn why_unopened(error: &io::Error) -> FetchFault
    ensures absent { error_kind error.now ≡ ErrorKind.NotFound → result ≡ FetchFault.Absent }
    ensures failed { error_kind error.now ≢ ErrorKind.NotFound → result ≡ FetchFault.Failed }
    ensures cause { (bound : ℕ) → IsLoadFault bound result }
{
    if error.kind() == ErrorKind::NotFound {
        return FetchFault::Absent;
    }
    FetchFault::Failed
}
