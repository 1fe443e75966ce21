// What farmd says on standard error as it begins: where it listens, and its table of compilers.
use daemon_program::DoorPlace;
use farmd_options::{compilers_of, settings_of};
use std::alloc::AllocError;
use std::env::{self, Env};
use std::io::Eprint;
use std::net::Ipv4Addr;
use std::os::unix::fs::{MetadataExt, PermissionsExt};
use std::rt::Files;
use std::{fs, str};

/// Says where the doors are, at this port, and each compiler of the table: whether its program is found, and whether its compiles are kept apart.
pub fn tell_beginning<R: Eprint + Env + Files + AllocGlobal>(
    rt: &R,
    words: &[String],
    place: &DoorPlace,
    port: u16,
) -> Result<(), AllocError> {
    let address = Ipv4Addr::from_bits(place.addr);
    let doors = place.doors;
    let _ = eprintln!(rt; "farmd: listens at {address}:{port}, {doors} at one time");
    let path = env::var(rt, "PATH").unwrap_or(String::new(rt.alloc()));
    let compilers = compilers_of(rt.alloc(), settings_of(words))?;
    for compiler in compilers.as_slice() {
        // Both are parts of a word, which is a text.
        let name = str::from_utf8(compiler.name.as_slice()).unwrap_or("");
        let program = str::from_utf8(compiler.program.as_slice()).unwrap_or("");
        let remark = remark(rt, path.as_str(), program)?;
        let _ = eprintln!(rt; "farmd: {name} is {program}{remark}");
    }
    Ok(())
}

// What a row of the table says after its program: whether it can't be found, and whether its compiles are kept apart from others.
fn remark<R: Files + AllocGlobal>(
    rt: &R,
    path: &str,
    program: &str,
) -> Result<&'static str, AllocError> {
    let Some(file) = found(rt, path, program)? else {
        return Ok(", which can't be found");
    };
    if !is_box(rt, file.as_str()) {
        return Ok(", not kept apart");
    }
    match found(rt, path, "bwrap")? {
        Some(_) => Ok(""),
        None => Ok(", not kept apart, since bubblewrap isn't there"),
    }
}

/// Says so if the folder for the files of compiles isn't there.
pub fn tell_folder<R: Eprint + Files>(rt: &R, folder: &str) {
    if !fs::metadata(rt, folder).is_ok_and(|found| found.is_dir()) {
        let _ = eprintln!(rt; "farmd: {folder}: no folder for files of compiles, see TMPDIR");
    }
}

/// Whether the user of this process is root. If there is no `/proc`, that isn't known.
pub fn is_root<R: Files>(rt: &R) -> bool {
    fs::metadata(rt, "/proc/self").is_ok_and(|found| found.uid() == 0)
}

// The file of a program, by its path or in a folder of `PATH`, if it is there.
fn found<R: Files + AllocGlobal>(
    rt: &R,
    path: &str,
    program: &str,
) -> Result<Option<String>, AllocError> {
    if program.contains('/') {
        let file = String::from_str(rt.alloc(), program)?;
        return Ok(is_program(rt, program).then_some(file));
    }
    for folder in path.split(':') {
        let file = format!(in rt.alloc(); "{folder}/{program}")?;
        if is_program(rt, file.as_str()) {
            return Ok(Some(file));
        }
    }
    Ok(None)
}

// Whether a program is farmd-box, or a link to it.
fn is_box<R: Files + AllocGlobal>(rt: &R, file: &str) -> bool {
    fs::canonicalize(rt, file).is_ok_and(|found| found.as_path().ends_with("farmd-box"))
}

// Whether a file that may be run is there.
fn is_program<R: Files>(rt: &R, path: &str) -> bool {
    match fs::metadata(rt, path) {
        Ok(found) => found.is_file() && found.permissions().mode() & 0o111 != 0,
        Err(_) => false,
    }
}
