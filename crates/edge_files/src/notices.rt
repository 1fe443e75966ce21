// Lines on the standard error that say which file failed and why. One that can't be written is dropped.
use std::io::{Eprint, Error};

/// A file couldn't be put in its place, for the system's reason.
pub fn tell_unput<R: Eprint>(rt: &R, path: &str, error: &Error) {
    let _ = eprintln!(rt; "{path}: cannot be written: {error}");
}

/// An empty object isn't put in its place.
pub fn tell_empty_file<R: Eprint>(rt: &R, path: &str) {
    let _ = eprintln!(rt; "{path}: an empty object isn't put");
}

/// A file couldn't be read, for the system's reason.
pub fn tell_unread<R: Eprint>(rt: &R, path: &str, error: &Error) {
    let _ = eprintln!(rt; "{path}: cannot be read: {error}");
}
