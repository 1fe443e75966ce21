//! The place of a program, and which driver it is.

ghost use Rattle.std.specs.Prelude.{◌≡◌, IfOk, string_bytes};
ghost use Rattle.whole_command.specs.Programs.{path_in};

use crate::clang::is_clang;
use crate::gcc::is_gcc;
use arg_scan::last_name;
use farm_types::Bytes;
use std::alloc::{AllocError, Global};
use std::env::{self, Env, VarError};
use std::fs;
use std::os::unix::fs::PermissionsExt;
use std::rt::Files;

/// The folders in which programs are sought if there is no `PATH`.
const FOLDERS: &str = "/bin:/usr/bin";

/// Whether a program is there: by its path, or in a folder of `PATH`. If `PATH` isn't UTF-8, it counts as there.
pub fn is_there<R: Files + Env + AllocGlobal>(rt: &R, program: &str) -> Result<bool, AllocError> {
    Ok(!matches!(place_of(rt, program)?, Place::Nowhere))
}

/// The name of the driver that a program is: its last name if that has `gcc`, `g++` or `clang` in it, and else the one that it links to, as `cc`
/// to `clang`.
pub fn driver_of<R: Files + Env + AllocGlobal>(rt: &R, program: &str) -> Result<Bytes, AllocError> {
    let alloc = rt.alloc();
    let name = last_name(program.as_bytes());
    if is_clang(name) || is_gcc(name) {
        return Bytes::from_slice(alloc, name);
    }
    let Place::At(path) = place_of(rt, program)? else {
        return Bytes::from_slice(alloc, name);
    };
    match fs::canonicalize(rt, path.as_str()) {
        Ok(path) => Bytes::from_slice(alloc, last_name(path.to_string_lossy().as_bytes())),
        Err(_) => Bytes::from_slice(alloc, name),
    }
}

// The place of a program.
#[derive(Drop)]
enum Place {
    Nowhere,
    At(String),
    /// `PATH` isn't UTF-8.
    Unknown,
}

fn place_of<R: Files + Env + AllocGlobal>(rt: &R, program: &str) -> Result<Place, AllocError> {
    let alloc = rt.alloc();
    if program.contains('/') {
        return Ok(if is_program(rt, program) {
            Place::At(String::from_str(alloc, program)?)
        } else {
            Place::Nowhere
        });
    }
    let folders = match env::var(rt, "PATH") {
        Ok(folders) => folders,
        Err(VarError::NotPresent) => String::from_str(alloc, FOLDERS)?,
        Err(VarError::NotUnicode) => return Ok(Place::Unknown),
        Err(VarError::OutOfMemory) => return Err(AllocError),
    };
    for folder in folders.split(':') {
        let path = path_in(alloc, folder, program)?;
        if is_program(rt, path.as_str()) {
            return Ok(Place::At(path));
        }
    }
    Ok(Place::Nowhere)
}

// The path of a name in a folder; an empty folder is that of the process.
fn path_in(alloc: Global, folder: &str, name: &str) -> Result<String, AllocError>
    ensures { IfOk result (λ path. string_bytes path ≡ path_in folder.now name.now) }
{
    let mut path = String::from_str(alloc, folder)?;
    if !folder.is_empty() {
        path.push_str("/")?;
    }
    path.push_str(name)?;
    Ok(path)
}

// Whether a file that may be run is there.
fn is_program<R: Files>(rt: &R, path: &str) -> bool {
    match fs::metadata(rt, path) {
        Ok(found) => found.is_file() && found.permissions().mode() & 0o111 != 0,
        Err(_) => false,
    }
}
