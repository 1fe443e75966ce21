//! A run of a command as it is.

ghost use Rattle.std.specs.Prelude.{◌≡◌, []};

use crate::programs::is_there;
use crate::words::{Given, Whole, command_of};
use farm_types::exit_code;
use farm_types::exits::FAULT;
use std::alloc::AllocError;
use std::env::Env;
use std::io::{self, Eprint};
use std::os::unix::process::ExitStatusExt;
use std::process::{ExitStatus, Processes};
use std::rt::Files;

/// Runs a command as it is, and returns its exit code.
///
/// It has the standard streams, the folder and the environment of this process. Its exit code is its own, 104 if a signal ended it, and 107 if
/// it can't be started or the system keeps no end of it; a line on the standard error says which signal, and why.
pub fn run_whole<R: Processes + Env + Files + Eprint + AllocGlobal>(
    rt: &R,
    whole: &Whole<'_>,
) -> Result<u8, AllocError> {
    Ok(match status_of(rt, whole)? {
        Ok(status) => number_of(rt, name_of(whole.given, "the command"), status),
        Err(error) if error.raw_os_error() == Some(NO_CHILD) => {
            let program = name_of(whole.given, "the command");
            let _ = eprintln!(rt;
                "farm: {program}: how it ended isn't known: whoever started farm has it ignore SIGCHLD"
            );
            FAULT
        }
        Err(error) => {
            let program = name_of(whole.given, "bash");
            let _ = eprintln!(rt; "farm: {program}: cannot be started: {error}");
            FAULT
        }
    })
}

// The number of the fault of a wait for a child whose end the system doesn't keep.
const NO_CHILD: i32 = 10;

// Starts a command, and waits for it.
//
// It is handed on no descriptor if its program isn't there, so that its own start fails, nor if there is no shell that would hand them on.
fn status_of<R: Processes + Env + Files + AllocGlobal>(
    rt: &R,
    whole: &Whole<'_>,
) -> Result<io::Result<ExitStatus>, AllocError> {
    let alloc = rt.alloc();
    if !whole.descriptors.is_empty() && is_first_there(rt, whole.given)? {
        let mut command = command_of(alloc, whole)?;
        if let Ok(mut child) = command.spawn(rt) {
            return Ok(child.wait());
        }
    }
    let mut command = command_of(alloc, &without_descriptors(whole))?;
    Ok(command.status(rt))
}

// Whether the program of a command is there, as far as its name is known.
fn is_first_there<R: Env + Files + AllocGlobal>(
    rt: &R,
    given: Given<'_>,
) -> Result<bool, AllocError> {
    match given {
        Given::Words([program, ..]) => is_there(rt, program.as_str()),
        Given::Words([]) | Given::OwnLine => Ok(true),
    }
}

// The command with nothing to hand on.
fn without_descriptors<'a>(whole: &Whole<'a>) -> Whole<'a>
    ensures given { result.given ≡ whole.now.given }
    ensures none { result.descriptors.now ≡ [] }
{
    Whole {
        given: whole.given,
        process: whole.process,
        descriptors: &[],
    }
}

// The name of the program, or this one if it isn't known.
fn name_of<'a>(given: Given<'a>, other: &'a str) -> &'a str {
    match given {
        Given::Words([program, ..]) => program.as_str(),
        Given::Words([]) | Given::OwnLine => other,
    }
}

// The exit code of a command that ended.
fn number_of<R: Eprint>(rt: &R, program: &str, status: ExitStatus) -> u8 {
    if let Some(signal) = status.signal() {
        let _ = eprintln!(rt; "farm: {program}: killed by signal {signal}");
    }
    exit_code(status.into_raw().cast_unsigned())
}
