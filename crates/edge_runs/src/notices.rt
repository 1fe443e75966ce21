// Lines on the standard error that say why a folder or a file of a run failed. One that can't be written is dropped.
use std::io::{Eprint, Error};

/// A folder or a file of the station's own couldn't be made, for the system's reason.
pub fn tell_unmade<R: Eprint>(rt: &R, path: &str, error: &Error) {
    let _ = eprintln!(rt; "{path}: cannot be made: {error}");
}

/// A folder of the station's own couldn't be removed, for the system's reason.
pub fn tell_unremoved<R: Eprint>(rt: &R, path: &str, error: &Error) {
    let _ = eprintln!(rt; "{path}: cannot be removed: {error}");
}
