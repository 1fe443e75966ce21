//! What a program's `main` reads of its environment.
ghost use Rattle.std.specs.Prelude.{◌≡◌, codes, IfOk, string_bytes};
ghost use Rattle.edge_streams.specs.Environment.{IsValueOf, IsFolderOf};

use std::alloc::{AllocError, Global};
use std::env::{self, Env, VarError};
use std::io::ErrorKind;

/// The words of the command line, without the program's name. None if one of them isn't UTF-8.
pub fn command_words<R: Env + AllocGlobal>(rt: &R) -> Result<Option<Vec<String>>, AllocError> {
    match env::args(rt) {
        Ok(given) => {
            let mut words = Vec::new(rt.alloc());
            for word in given.skip(1) {
                words.push(word)?;
            }
            Ok(Some(words))
        }
        Err(error) => {
            if error.kind() == ErrorKind::OutOfMemory {
                return Err(AllocError);
            }
            Ok(None)
        }
    }
}

/// The value of a variable, None if it isn't set. One that isn't UTF-8 is the replacement character. That is no number, no host and no switch, so
/// such a value is refused if it matters.
pub fn variable<R: Env + AllocGlobal>(rt: &R, name: &str) -> Result<Option<String>, AllocError> {
    value_of(rt.alloc(), env::var(rt, name))
}

fn value_of(alloc: Global, found: Result<String, VarError>) -> Result<Option<String>, AllocError>
    ensures { IfOk result (IsValueOf found) }
{
    match found {
        Ok(value) => Ok(Some(value)),
        Err(VarError::NotPresent) => Ok(None),
        Err(VarError::NotUnicode) => Ok(Some(String::from_str(alloc, "\u{FFFD}")?)),
        Err(VarError::OutOfMemory) => Err(AllocError),
    }
}

/// The folder for files of a process's own: `TMPDIR`, or `/tmp` if that isn't set, is empty or isn't UTF-8.
pub fn own_folder<R: Env + AllocGlobal>(rt: &R) -> Result<String, AllocError> {
    folder_of(rt.alloc(), env::var(rt, "TMPDIR"))
}

/// The folder of this process. It is empty if the system doesn't say it or if it isn't UTF-8.
pub fn current_folder<R: Env + AllocGlobal>(rt: &R) -> Result<String, AllocError> {
    match env::current_dir(rt) {
        Ok(folder) => match folder.to_str() {
            Some(text) => String::from_str(rt.alloc(), text),
            None => Ok(String::new(rt.alloc())),
        },
        Err(error) => {
            if error.kind() == ErrorKind::OutOfMemory {
                return Err(AllocError);
            }
            Ok(String::new(rt.alloc()))
        }
    }
}

fn folder_of(alloc: Global, found: Result<String, VarError>) -> Result<String, AllocError>
    ensures { IfOk result (IsFolderOf found) }
{
    match found {
        Ok(folder) => {
            if folder.is_empty() {
                return folder_for_all(alloc);
            }
            Ok(folder)
        }
        Err(VarError::OutOfMemory) => Err(AllocError),
        Err(VarError::NotPresent | VarError::NotUnicode) => folder_for_all(alloc),
    }
}

fn folder_for_all(alloc: Global) -> Result<String, AllocError>
    ensures { IfOk result (λ folder. string_bytes folder ≡ codes "/tmp") }
{
    String::from_str(alloc, "/tmp")
}
