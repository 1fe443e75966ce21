//! Before a job: whether what is at its output asks for the command as it is.

ghost use Rattle.std.specs.Prelude.{◌≡◌};
ghost use Rattle.whole_command.specs.Outputs.{takes_whole_command};

use arg_scan::Action;
use std::fs::Metadata;
use std::io::{self, ErrorKind};
use std::rt::Files;

/// What is at the path of an output.
#[derive(Clone, Copy, Debug, PartialEq, Eq)]
pub enum Found {
    Nothing,
    /// A regular file.
    File,
    /// A link, a folder, a device, a pipe or a socket; or the system doesn't say what.
    Other,
}

/// Whether a command with this action is run here as it is, for what is at its output.
///
/// gcc's assembler makes a regular file anew, as a job does. Through anything else it writes, and the compiler itself writes into whatever is
/// there.
pub fn takes_whole_command(action: Action, found: Found) -> bool
    ensures { result ≡ takes_whole_command action found }
{
    match (action, found) {
        (_, Found::Nothing) | (Action::Compile, Found::File) => false,
        (_, Found::Other) | (Action::Assemble, Found::File) => true,
    }
}

/// What is at this path. A link isn't followed.
pub fn found_at<R: Files>(rt: &R, path: &str) -> Found {
    kind_of(rt.symlink_metadata(path))
}

fn kind_of(found: io::Result<Metadata>) -> Found {
    match found {
        Ok(found) if found.is_file() => Found::File,
        Err(error) if error.kind() == ErrorKind::NotFound => Found::Nothing,
        _ => Found::Other,
    }
}
