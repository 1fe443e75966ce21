// New files that are written beside those whose names they get.
ghost use Rattle.std.specs.Prelude.{◌≡◌, ◌≢◌, ◌≤◌, length, IfOk, IfErr, OnOk};
ghost use Rattle.std.specs.Fs.{IsFile};
ghost use Rattle.std.specs.IoError.{error_kind};
ghost use Rattle.std.specs.Str.{IsUtf8, bytes_eq};
ghost use Rattle.edge_files.specs.OwnNames.{names_view, SameOwner};
ghost use Rattle.edge_files.specs.Staging.{has_bytes, staged_as, staged_at};

use crate::disk::text_of;
use crate::goals::{Goal, goal_of};
use crate::notices::tell_unput;
use crate::own_files::OwnNames;
use edge_streams::write_once;
use edge_traits::EdgeFault;
use farm_types::Bytes;
use std::alloc::{AllocError, Global};
use std::fs::{File, FileType};
use std::io::{Eprint, ErrorKind};
use std::os::unix::fs::FileTypeExt;
use std::{fs, io, rt};

/// A file that is being written: the name that it is written for, its own path, and the open file.
#[derive(Drop)]
pub struct StagedFile {
    name: Bytes,
    path: String,
    /// The path that it was begun for, and the one that it goes to in its place.
    target: String,
    goal: String,
    file: File,
    /// Whether a byte was written.
    has_bytes: bool,
}

impl StagedFile {
    /// Whether a byte was written.
    pub fn has_bytes(&self) -> bool
        ensures { result ≡ has_bytes self.now }
    {
        self.has_bytes
    }

    /// Whether it is written for this name.
    pub fn stands_for(&self, name: &Bytes) -> bool
        ensures { result ≡ bytes_eq (staged_as self.now) name.now }
    {
        self.name.as_slice() == name.as_slice()
    }

    /// Where it is.
    pub fn path(&self) -> &str
        ensures { result.now ≡ staged_at self.now }
    {
        self.path.as_str()
    }

    /// The path that it goes to if it is to have this one: the end of a link there as it was when it was begun, or else this path.
    pub fn goal_for<'a>(&'a self, path: &'a str) -> &'a str {
        if path == self.target.as_str() {
            return self.goal.as_str();
        }
        path
    }

    /// Adds the front of the piece, and answers how many bytes were taken.
    pub fn write(&mut self, piece: &[u8]) -> io::Result<usize>
        ensures { IfOk result (λ n. n ≤ length piece.now) }
    {
        let count = write_once(&mut self.file, piece)?;
        self.has_bytes |= count > 0;
        Ok(count)
    }
}

/// What is at a path.
#[derive(Drop)]
enum Standing {
    /// Nothing, or a regular file.
    Free,
    /// A character device.
    Device,
    /// Anything else, as a folder, a pipe or a socket.
    Other,
}

/// What is there, by its kind. Only a regular file may be replaced.
fn standing_of(kind: FileType) -> Standing
    ensures file { IsFile kind → result ≡ Standing.Free }
    ensures kept { ¬ (IsFile kind) → result ≢ Standing.Free }
{
    if kind.is_file() {
        return Standing::Free;
    }
    if kind.is_char_device() {
        return Standing::Device;
    }
    Standing::Other
}

/// What is at the path: nothing if the system says that it isn't there.
fn look_at<R: rt::Files>(rt: &R, path: &str) -> io::Result<Standing>
    ensures { IfErr result (λ error. error_kind error ≢ ErrorKind.NotFound) }
{
    match fs::metadata(rt, path) {
        Ok(metadata) => Ok(standing_of(metadata.file_type())),
        Err(error) => {
            if error.kind() == ErrorKind::NotFound {
                Ok(Standing::Free)
            } else {
                Err(error)
            }
        }
    }
}

/// A new empty file that is written for this name.
pub fn stage<R: rt::Files<File = File> + Eprint>(
    rt: &R,
    names: &mut OwnNames,
    alloc: Global,
    name: &Bytes,
) -> Result<StagedFile, EdgeFault>
    ensures name { OnOk result (IsUtf8 name.now) }
    ensures stands { IfOk result (λ staged. staged_as staged ≡ name.now) }
    ensures owner { SameOwner (names_view names.old) (names_view names.new) }
{
    let Ok(text) = text_of(name) else {
        return Err(EdgeFault::Failed);
    };
    let target = text.strip_suffix(".farm~").unwrap_or(text);
    let goal = goal_of(rt, alloc, target)?;
    let beside = match look_at(rt, goal.path.as_str()) {
        Ok(Standing::Free) => Some(goal.path.as_str()),
        Ok(Standing::Device) => None,
        Ok(Standing::Other) => {
            let error = io::Error::other("it is no regular file and no device");
            return Err(told(rt, target, &error));
        }
        Err(error) => return Err(told(rt, target, &error)),
    };
    // All other memory is had before the file is made, so that none is left if memory runs out.
    let name = name.copy()?;
    let target = String::from_str(alloc, target)?;
    let (path, file) = new_file(rt, names, alloc, beside, &goal)?;
    Ok(StagedFile {
        name,
        path,
        target,
        goal: goal.path,
        file,
        has_bytes: false,
    })
}

/// The fault of a put that failed. It is reported with the system's reason.
fn told<R: Eprint>(rt: &R, target: &str, error: &io::Error) -> EdgeFault
    ensures { result ≡ EdgeFault.Failed }
{
    tell_unput(rt, target, error);
    EdgeFault::Failed
}

/// A new file beside this path, or else in the folder of the names. A name that is there already is passed over.
fn new_file<R: rt::Files<File = File> + Eprint>(
    rt: &R,
    names: &mut OwnNames,
    alloc: Global,
    beside: Option<&str>,
    goal: &Goal,
) -> Result<(String, File), EdgeFault>
    ensures { SameOwner (names_view names.old) (names_view names.new) }
{
    for _ in 0..NAMES_TRIED {
        let path = next_name(names, alloc, beside)?;
        match goal.open_new(rt, path.as_str()) {
            Ok(file) => return Ok((path, file)),
            Err(error) => {
                if error.kind() != ErrorKind::AlreadyExists {
                    return Err(told(rt, goal.path.as_str(), &error));
                }
            }
        }
    }
    Err(EdgeFault::Failed)
}

fn next_name(
    names: &mut OwnNames,
    alloc: Global,
    beside: Option<&str>,
) -> Result<String, AllocError>
    ensures { SameOwner (names_view names.old) (names_view names.new) }
{
    match beside {
        Some(path) => names.next_beside(alloc, path),
        None => names.next(alloc, "farm~"),
    }
}

/// How many names are tried before a file is given up.
const NAMES_TRIED: u32 = 1000;

/// Gives a file the name of what it was written for, or copies it into the device that is there.
pub fn move_to<R: rt::Files>(rt: &R, from: &str, to: &str) -> io::Result<()> {
    match look_at(rt, to)? {
        Standing::Free => fs::rename(rt, from, to),
        Standing::Device => {
            fs::copy(rt, from, to)?;
            fs::remove_file(rt, from)
        }
        Standing::Other => Err(io::Error::other("it is no regular file and no device")),
    }
}
