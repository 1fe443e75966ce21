// A folder for one run, in which the files of the run are.
ghost use Rattle.std.specs.Prelude.{◌≡◌, ◌≢◌, true, IfOk, IfErr, Err, string_bytes};
ghost use Rattle.std.specs.Fs.{asks_read, asks_write, asks_create_new};
ghost use Rattle.edge_runs.specs.Commands.{NamesNoStream};
ghost use Rattle.edge_runs.specs.RunFolders.{folder_name, IsNamedIn, place_of, file_in};

use crate::notices::{tell_unmade, tell_unremoved};
use edge_files::tell_unput;
use edge_traits::StationFault;
use std::alloc::{AllocError, Global};
use std::fs::OpenOptions;
use std::io::{Eprint, ErrorKind, Write};
use std::os::unix::fs::OpenOptionsExt;
use std::random::RandomSource;
use std::rt;
use std::sync::Arc;
use std::sync::atomic::{AtomicBool, AtomicU64, Ordering};

/// What a station leaves to its door: the folder of its last run, and whether it was asked for a run.
///
/// The door removes the folder once the reply was sent, since the system may write to the disk for it. There is one at a time, and one thread has
/// both the station and the door.
#[derive(Drop)]
pub struct RunNotes {
    alloc: Global,
    /// The folder in which that of the run is.
    folder: String,
    /// The halves of the random word of its name; both are 0 if there is none.
    first: AtomicU64,
    second: AtomicU64,
    was_asked: AtomicBool,
}

impl RunNotes {
    /// None yet, of runs whose folders are in this one.
    pub fn new(alloc: Global, folder: String) -> RunNotes {
        RunNotes {
            alloc,
            folder,
            first: AtomicU64::new(0),
            second: AtomicU64::new(0),
            was_asked: AtomicBool::new(false),
        }
    }

    /// The station is asked for a run.
    pub fn note_asked(&self) {
        self.was_asked.store(true, Ordering::SeqCst);
    }

    /// Whether the station was asked for a run since this was called last.
    pub fn take_asked(&self) -> bool {
        self.was_asked.swap(false, Ordering::SeqCst)
    }

    /// Leaves the folder of this word. There is none before.
    fn leave(&self, word: &[u8; WORD_LENGTH]) {
        let (first, second) = halves_of(word);
        self.first.store(first, Ordering::SeqCst);
        self.second.store(second, Ordering::SeqCst);
    }

    /// Removes the folder that was left, if there is one. If memory runs out for its name, it is still left.
    fn remove_left<R: rt::Files + Eprint>(&self, rt: &R) {
        let word = word_of(
            self.first.swap(0, Ordering::SeqCst),
            self.second.swap(0, Ordering::SeqCst),
        );
        if word == [0; WORD_LENGTH] {
            return;
        }
        match folder_name(self.alloc, self.folder.as_str(), &word) {
            Ok(path) => remove_folder(rt, self.alloc, path.as_str()),
            Err(_) => self.leave(&word),
        }
    }
}

/// The notes that a station and its door share.
pub type SharedNotes = Arc<RunNotes, Global>;

/// Removes the folder that was left, if there are notes.
pub fn remove_left<R: rt::Files + Eprint>(rt: &R, notes: &Option<SharedNotes>) {
    if let Some(notes) = notes {
        notes.remove_left(rt);
    }
}

/// The halves of a word as numbers.
fn halves_of(word: &[u8; WORD_LENGTH]) -> (u64, u64) {
    let number = u128::from_be_bytes(*word);
    ((number >> 64) as u64, (number % (1 << 64)) as u64)
}

/// The word of these halves.
fn word_of(first: u64, second: u64) -> [u8; WORD_LENGTH] {
    (u128::from(first) << 64 | u128::from(second)).to_be_bytes()
}

/// A folder that this value made. When this value goes, the folder is removed with all that is in it, or with notes it is left to the door.
///
/// Only its owner may look into it or write there, and nobody can foresee its name. So neither another station, thread or process nor a peer can name
/// a file of the run.
pub struct RunFolder<'a, R: rt::Files + Eprint> {
    rt: &'a R,
    alloc: Global,
    path: String,
    word: [u8; WORD_LENGTH],
    notes: &'a Option<SharedNotes>,
}

impl<'a, R: rt::Files + RandomSource + Eprint> RunFolder<'a, R> {
    /// A new empty folder in this one. With notes, its removal is left to the door, and what was left before is removed now.
    pub fn create(
        rt: &'a R,
        alloc: Global,
        folder: &str,
        notes: &'a Option<SharedNotes>,
    ) -> Result<RunFolder<'a, R>, StationFault>
        ensures name { IfOk result (λ made. IsNamedIn folder.now (place_of made)) }
        ensures fault { IfErr result NamesNoStream }
    {
        remove_left(rt, notes);
        let word = random_word(rt, folder)?;
        let path = folder_name(alloc, folder, &word)?;
        match rt.create_dir_with_mode(path.as_str(), FOLDER_OF_OWNER) {
            Ok(()) => Ok(RunFolder {
                rt,
                alloc,
                path,
                word,
                notes,
            }),
            Err(error) => {
                tell_unmade(rt, path.as_str(), &error);
                Err(StationFault::Failed)
            }
        }
    }
}

impl<R: rt::Files + Eprint> RunFolder<'_, R> {
    /// Where it is.
    pub fn path(&self) -> &str
        ensures { result.now ≡ place_of self.now }
    {
        self.path.as_str()
    }

    /// The path of a file of this name in the folder.
    pub fn name_of(&self, name: &str) -> Result<String, AllocError>
        ensures { IfOk result (λ path. string_bytes path ≡ file_in (place_of self.now) name.now) }
    {
        file_in(self.alloc, self.path.as_str(), name)
    }

    /// Makes a file at this path that only its owner may read, and writes these bytes.
    pub fn write_file(&self, path: &str, bytes: &[u8]) -> Result<(), StationFault>
        ensures fault { IfErr result NamesNoStream }
        ensures memory { result ≢ Err StationFault.Memory }
    {
        let mut file = open_new(self.rt, path)?;
        match file.write_all(bytes) {
            Ok(()) => Ok(()),
            Err(error) => {
                tell_unput(self.rt, path, &error);
                Err(StationFault::Failed)
            }
        }
    }
}

impl<R: rt::Files + Eprint> Drop for RunFolder<'_, R> {
    fn drop(self) {
        let RunFolder {
            rt,
            alloc,
            path,
            word,
            notes,
        } = self;
        match notes {
            Some(notes) => notes.leave(&word),
            None => remove_folder(rt, alloc, path.as_str()),
        }
        drop(path);
    }
}

/// The path of a file of this name in this folder.
fn file_in(alloc: Global, folder: &str, name: &str) -> Result<String, AllocError>
    ensures { IfOk result (λ path. string_bytes path ≡ file_in folder.now name.now) }
{
    let mut path = String::from_str(alloc, folder)?;
    path.push_str("/")?;
    path.push_str(name)?;
    Ok(path)
}

/// A new empty file in this folder, opened for reading and writing, that has lost its name there: nothing of it is left when it is closed.
pub fn nameless_file<R: rt::Files + RandomSource + Eprint>(
    rt: &R,
    alloc: Global,
    folder: &str,
) -> Result<R::File, StationFault>
    ensures fault { IfErr result NamesNoStream }
{
    let path = random_name(rt, alloc, folder)?;
    let file = open_new(rt, path.as_str())?;
    if let Err(error) = rt.remove_file(path.as_str()) {
        tell_unremoved(rt, path.as_str(), &error);
        return Err(StationFault::Failed);
    }
    Ok(file)
}

/// A new empty file at this path that only its owner may read, opened for reading and writing.
fn open_new<R: rt::Files + Eprint>(rt: &R, path: &str) -> Result<R::File, StationFault>
    ensures fault { IfErr result NamesNoStream }
    ensures memory { result ≢ Err StationFault.Memory }
{
    match for_owner_alone().open(rt, path) {
        Ok(file) => Ok(file),
        Err(error) => {
            tell_unmade(rt, path, &error);
            Err(StationFault::Failed)
        }
    }
}

/// Removes the folder of a run. The files of the words are removed first: that is all that most programs leave, and it needs no descriptor.
fn remove_folder<R: rt::Files + Eprint>(rt: &R, alloc: Global, path: &str) {
    for name in FILES_OF_WORDS {
        if let Ok(file) = file_in(alloc, path, name) {
            let _ = rt.remove_file(file.as_str());
        }
    }
    if rt.remove_dir(path).is_err() {
        remove_whole(rt, alloc, path);
    }
}

/// Removes a folder and all that is in it. If something was put there meanwhile, as by a child of the program that outlived it, it is tried again.
fn remove_whole<R: rt::Files + Eprint>(rt: &R, alloc: Global, path: &str) {
    for _ in 1..REMOVALS_TRIED {
        match rt.remove_dir_all(alloc, path) {
            Ok(()) => return,
            Err(error) => {
                if error.kind() != ErrorKind::DirectoryNotEmpty {
                    tell_unremoved(rt, path, &error);
                    return;
                }
            }
        }
    }
    if let Err(error) = rt.remove_dir_all(alloc, path) {
        tell_unremoved(rt, path, &error);
    }
}

/// A name in this folder that nobody can foresee.
fn random_name<R: RandomSource + Eprint>(
    rt: &R,
    alloc: Global,
    folder: &str,
) -> Result<String, StationFault>
    ensures name { IfOk result (λ path. IsNamedIn folder.now (string_bytes path)) }
    ensures fault { IfErr result NamesNoStream }
{
    Ok(folder_name(alloc, folder, &random_word(rt, folder)?)?)
}

/// A word that nobody can foresee, by the system's random bytes.
fn random_word<R: RandomSource + Eprint>(
    rt: &R,
    folder: &str,
) -> Result<[u8; WORD_LENGTH], StationFault>
    ensures fault { IfErr result NamesNoStream }
    ensures memory { result ≢ Err StationFault.Memory }
{
    let mut word = [0u8; WORD_LENGTH];
    match rt.fill_bytes(&mut word) {
        Ok(()) => Ok(word),
        Err(error) => {
            tell_unmade(rt, folder, &error);
            Err(StationFault::Failed)
        }
    }
}

/// `FOLDER/farm-WORD`, with the word in hexadecimal digits.
fn folder_name(alloc: Global, folder: &str, word: &[u8; WORD_LENGTH]) -> Result<String, AllocError>
    ensures { IfOk result (λ name. string_bytes name ≡ folder_name folder.now word.now) }
{
    let mut name = String::from_str(alloc, folder)?;
    name.push_str("/farm-")?;
    name.push_str(hex::encode(alloc, word.as_slice())?.as_str())?;
    Ok(name)
}

/// How a file of a run is opened: it is new, and only its owner may read and write it.
fn for_owner_alone() -> OpenOptions
    ensures read { asks_read result ≡ true }
    ensures written { asks_write result ≡ true }
    ensures is_new { asks_create_new result ≡ true }
{
    let mut options = OpenOptions::new();
    options.mode(FILE_OF_OWNER);
    options.read(true).write(true).create_new(true);
    options
}

/// The names of the files of `Input` and `Output`.
const FILES_OF_WORDS: [&str; 3] = ["input.i", "input.ii", "output.o"];

/// How often the removal of a folder is tried that isn't empty when all in it was removed.
const REMOVALS_TRIED: u32 = 10;

/// How many random bytes a name has.
const WORD_LENGTH: usize = 16;

/// Reading, writing and entering by the folder's owner.
const FOLDER_OF_OWNER: u32 = 0o700;

/// Reading and writing by the file's owner.
const FILE_OF_OWNER: u32 = 0o600;
