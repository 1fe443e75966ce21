// Where an output goes. What is at its path is treated as gcc's assembler treats it.
use crate::notices::tell_unput;
use edge_traits::EdgeFault;
use std::alloc::{AllocError, Global};
use std::fs::{File, Metadata, OpenOptions, Permissions};
use std::io::{self, Eprint, ErrorKind};
use std::os::unix::fs::{OpenOptionsExt, PermissionsExt};
use std::rt;

/// Where an output goes: the path, and the mode if an empty file there is to keep its own.
#[derive(Drop)]
pub struct Goal {
    pub path: String,
    mode: Option<u32>,
}

impl Goal {
    /// A new file at this path. If it takes the place of an empty file, it has that file's mode.
    pub fn open_new<R: rt::Files<File = File>>(&self, rt: &R, path: &str) -> io::Result<File> {
        let mut options = OpenOptions::new();
        if let Some(mode) = self.mode {
            options.mode(mode);
        }
        let file = options.write(true).create_new(true).open(rt, path)?;
        if let Some(mode) = self.mode {
            // Without it the file may have less of the mode, by the process's mask, and never more.
            let _ = file.set_permissions(Permissions::from_mode(mode));
        }
        Ok(file)
    }
}

/// Where an output of this path goes. A link to nothing or to an empty file is followed, and an empty file keeps its mode. Anything else is left as
/// it is, and its name is taken.
pub fn goal_of<R: rt::Files + Eprint>(
    rt: &R,
    alloc: Global,
    target: &str,
) -> Result<Goal, EdgeFault> {
    let mut path = String::from_str(alloc, target)?;
    for _ in 0..LINKS_FOLLOWED {
        match step_at(rt, path.as_str()) {
            Ok(Step::Ends(mode)) => return Ok(Goal { path, mode }),
            Ok(Step::Follows) => {}
            Err(error) => {
                tell_unput(rt, target, &error);
                return Err(EdgeFault::Failed);
            }
        }
        path = follow(rt, alloc, path.as_str(), target)?;
    }
    tell_unput(rt, target, &io::Error::other("too many links"));
    Err(EdgeFault::Failed)
}

/// What is to be done at a path.
#[derive(Clone, Copy)]
enum Step {
    /// The output goes here, with this mode if it is to keep one.
    Ends(Option<u32>),
    /// There is a link here that is to be followed.
    Follows,
}

fn step_at<R: rt::Files>(rt: &R, path: &str) -> io::Result<Step> {
    let here = match rt.symlink_metadata(path) {
        Ok(here) => here,
        Err(error) => {
            if error.kind() == ErrorKind::NotFound {
                return Ok(Step::Ends(None));
            }
            return Err(error);
        }
    };
    if here.is_symlink() {
        return behind_link(rt.metadata(path));
    }
    Ok(Step::Ends(mode_to_keep(&here)))
}

/// A link is followed to nothing and to an empty file.
fn behind_link(there: io::Result<Metadata>) -> io::Result<Step> {
    match there {
        Ok(there) => Ok(match mode_to_keep(&there) {
            Some(_) => Step::Follows,
            None => Step::Ends(None),
        }),
        Err(error) => {
            if error.kind() == ErrorKind::NotFound {
                return Ok(Step::Follows);
            }
            Err(error)
        }
    }
}

/// The mode of an empty regular file.
fn mode_to_keep(found: &Metadata) -> Option<u32> {
    if found.is_file() && found.len() == 0 {
        return Some(found.permissions().mode() & ALL_MODES);
    }
    None
}

/// The path to which the link at this path leads.
fn follow<R: rt::Files + Eprint>(
    rt: &R,
    alloc: Global,
    path: &str,
    target: &str,
) -> Result<String, EdgeFault> {
    match rt.read_link(alloc, path) {
        Ok(link) => match link.to_str() {
            Some(text) => Ok(linked_from(alloc, path, text)?),
            None => Err(EdgeFault::Failed),
        },
        Err(error) => {
            if error.kind() == ErrorKind::OutOfMemory {
                return Err(EdgeFault::Memory);
            }
            tell_unput(rt, target, &error);
            Err(EdgeFault::Failed)
        }
    }
}

/// The path to which a link at this path leads: its text, after the folder of the link if the text isn't a path from the root.
fn linked_from(alloc: Global, path: &str, text: &str) -> Result<String, AllocError> {
    if text.starts_with('/') {
        return String::from_str(alloc, text);
    }
    match path.rsplit_once('/') {
        Some((folder, _)) => {
            let mut name = String::from_str(alloc, folder)?;
            name.push_str("/")?;
            name.push_str(text)?;
            Ok(name)
        }
        None => String::from_str(alloc, text),
    }
}

/// How many links are followed, as Linux has it.
const LINKS_FOLLOWED: u32 = 40;

/// The bits of a mode.
const ALL_MODES: u32 = 0o7777;
