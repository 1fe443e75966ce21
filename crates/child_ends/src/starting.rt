//! A start of this program by a shell that waits for it.

ghost use Rattle.std.specs.Prelude.{◌≡◌, ◌∷◌, ◌++◌, IfOk, OnOk, codes, map, string_bytes};
ghost use Rattle.std.specs.Fmt.{decimal};
ghost use Rattle.std.specs.Process.{command_args, command_program};
ghost use Rattle.child_ends.specs.Starts.{ending_text, program_text, starting_text};

use crate::ignored::ignores_ends;
use edge_real::{nameless_file, own_folder};
use farm_types::exits::FAULT;
use std::alloc::{AllocError, Global};
use std::env::Env;
use std::fs::{self, File};
use std::io::{Eprint, Read};
use std::os::fd::AsRawFd;
use std::process::{Command, Processes};
use std::random::RandomSource;
use std::rt::Files;
use std::str;

/// What a program does, for how it is started again.
#[derive(Clone, Copy, Debug, PartialEq, Eq)]
pub enum Kind {
    /// Its work, and then it ends.
    Command,
    /// It serves until it is ended. If this process ends, so does it.
    Daemon,
}

/// Starts the program of this process once more if it ignores SIGCHLD, with these words, its own streams and that signal as it is by default. Returns the exit status.
///
/// The system keeps no end of a child of this process, so a shell waits for it, and leaves the status in a file without a name. None if nothing was started:
/// the ends are kept, or the system has no `env` that sets signals.
pub fn start_again<R: Processes + Env + Files<File = File> + RandomSource + Eprint + AllocGlobal>(
    rt: &R,
    process: u32,
    kind: Kind,
    words: &[String],
) -> Result<Option<u8>, AllocError> {
    let Ok(text) = fs::read(rt, "/proc/self/stat") else {
        return Ok(None);
    };
    if !ignores_ends(text.as_slice()) {
        return Ok(None);
    }
    let folder = own_folder(rt)?;
    let Ok(mut file) = nameless_file(rt, rt.alloc(), folder.as_str()) else {
        return Ok(None);
    };
    let place = Place {
        process,
        number: u32::try_from(file.as_raw_fd()).unwrap_or(0),
    };
    let mut command = shell(rt.alloc(), kind, &place, words)?;
    // The system keeps no end of the shell either.
    let _ = command.status(rt);
    Ok(status_in(&mut file))
}

// The process whose program is started again, and its file for the status.
#[derive(Clone, Copy)]
struct Place {
    process: u32,
    number: u32,
}

// The shell, and what it does.
fn shell(alloc: Global, kind: Kind, place: &Place, words: &[String]) -> Result<Command, AllocError>
    ensures program { IfOk result (λ command. command_program command ≡ codes "sh") }
    ensures arguments { IfOk result (λ command. command_args command ≡ codes "-c" ∷ starting_text kind ∷ codes "farm"
        ∷ ending_text place.now.process place.now.number ∷ program_text place.now.process ∷ map string_bytes words.now) }
{
    let ending = ending_of(alloc, place.process, place.number)?;
    let program = program_of(alloc, place.process)?;
    let mut command = Command::new(alloc, "sh")?;
    command.arg("-c")?;
    command.arg(script_of(kind))?;
    command.arg("farm")?;
    command.arg(ending.as_str())?;
    command.arg(program.as_str())?;
    add_all(&mut command, words)?;
    Ok(command)
}

// Gives a command these words more.
fn add_all(command: &mut Command, words: &[String]) -> Result<(), AllocError>
    ensures program { OnOk result (command_program command.new ≡ command_program command.old) }
    ensures arguments { OnOk result (command_args command.new ≡ command_args command.old ++ map string_bytes words.now) }
{
    for word in words {
        command.arg(word.as_str())?;
    }
    Ok(())
}

// The file for the status, as another process opens it.
fn ending_of(alloc: Global, process: u32, number: u32) -> Result<String, AllocError>
    ensures { IfOk result (λ path. string_bytes path ≡ ending_text process number) }
{
    let mut path = format!(in alloc; "/proc/{process}/fd/")?;
    let digits = number.to_string(alloc)?;
    path.push_str(digits.as_str())?;
    Ok(path)
}

// The program of a process.
fn program_of(alloc: Global, process: u32) -> Result<String, AllocError>
    ensures { IfOk result (λ path. string_bytes path ≡ program_text process) }
{
    format!(in alloc; "/proc/{process}/exe")
}

// What the shell does: it notes that the program is started, starts it and waits, and notes its status.
fn script_of(kind: Kind) -> &'static str
    ensures { result.now ≡ starting_text kind }
{
    match kind {
        Kind::Command => COMMAND,
        Kind::Daemon => DAEMON,
    }
}

const COMMAND: &str = "end=$1; shift
env --default-signal=CHLD true 2>/dev/null || exit
echo begun >>$end
env --default-signal=CHLD \"$@\"
echo $? >>$end
";

const DAEMON: &str = "end=$1; shift
env --default-signal=CHLD true 2>/dev/null || exit
echo begun >>$end
env --default-signal=CHLD,INT,QUIT \"$@\" &
while kill -0 $! && [ -e $end ]; do sleep 0.2; done 2>/dev/null
kill $! 2>/dev/null
wait $! 2>/dev/null
code=$?
[ -e $end ] && echo $code >>$end
";

// The status that the shell left. None if it started nothing.
fn status_in<F: Read>(file: &mut F) -> Option<u8> {
    let mut room = [0u8; 32];
    let count = file.read(&mut room).unwrap_or(0);
    if count == 0 {
        return None;
    }
    Some(status_of(room.get(..count).unwrap_or(&[])).unwrap_or(FAULT))
}

fn status_of(text: &[u8]) -> Option<u8> {
    let line = str::from_utf8(text).ok()?.lines().nth(1)?;
    line.parse::<u8>().ok()
}
