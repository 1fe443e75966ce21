//! The program and the words that run a command as it is.

ghost use Rattle.std.specs.Prelude.{◌≡◌, ◌∷◌, ◌++◌, None, IfOk, OnOk, codes, map, string_bytes};
ghost use Rattle.std.specs.Fmt.{decimal};
ghost use Rattle.std.specs.Process.{command_args, command_dir, command_program};
ghost use Rattle.whole_command.specs.Starts.{becoming_text, opening_text, sign, start_text, start_words, taking_text};

use std::alloc::{AllocError, Global};
use std::process::Command;

/// What a descriptor is open for.
#[derive(Clone, Copy, Debug, PartialEq, Eq)]
pub enum Mode {
    Read,
    Write,
    Both,
}

/// A descriptor that whoever started this process handed on to it, beside the standard streams.
#[derive(Clone, Copy, Debug, PartialEq, Eq)]
pub struct Descriptor {
    pub number: u32,
    pub mode: Mode,
}

/// The words of a command as it is.
#[derive(Clone, Copy)]
pub enum Given<'a> {
    Words(&'a [String]),
    /// They are those of this process's command line after `farm cc`: one of them isn't UTF-8.
    OwnLine,
}

/// A command as it is.
#[derive(Clone, Copy)]
pub struct Whole<'a> {
    pub given: Given<'a>,
    /// The number of this process.
    pub process: u32,
    /// What it is handed on. The library starts a program with the standard streams only.
    pub descriptors: &'a [Descriptor],
}

/// The program and the arguments that run a command, in the folder and the environment of this process.
///
/// They are the command's own, if its words are known and it is handed on nothing. Else `bash` opens the descriptors again, at /proc, takes the
/// words from there if they aren't known, and then becomes the command.
pub fn command_of(alloc: Global, whole: &Whole<'_>) -> Result<Command, AllocError>
    ensures words { IfOk result (λ command. command_program command ∷ command_args command ≡ start_words whole.now) }
    ensures folder { IfOk result (λ command. command_dir command ≡ None) }
{
    match whole.given {
        Given::Words([program, arguments @ ..]) if whole.descriptors.is_empty() => {
            let mut command = Command::new(alloc, program.as_str())?;
            add_all(&mut command, arguments)?;
            Ok(command)
        }
        Given::Words(words) => shell(alloc, whole, words),
        Given::OwnLine => shell(alloc, whole, &[]),
    }
}

// The shell that hands on descriptors, takes the words if they aren't known, and becomes the command.
fn shell(alloc: Global, whole: &Whole<'_>, words: &[String]) -> Result<Command, AllocError>
    ensures program { IfOk result (λ command. command_program command ≡ codes "bash") }
    ensures arguments { IfOk result (λ command. command_args command
        ≡ codes "-p" ∷ codes "-c" ∷ start_text whole.now ∷ codes "farm" ∷ map string_bytes words.now) }
    ensures folder { IfOk result (λ command. command_dir command ≡ None) }
{
    let script = script_of(alloc, whole)?;
    let mut command = Command::new(alloc, "bash")?;
    command.arg("-p")?;
    command.arg("-c")?;
    command.arg(script.as_str())?;
    command.arg("farm")?;
    add_all(&mut command, words)?;
    Ok(command)
}

// Gives a command these words more, and changes nothing else of it.
fn add_all(command: &mut Command, words: &[String]) -> Result<(), AllocError>
    ensures program { OnOk result (command_program command.new ≡ command_program command.old) }
    ensures arguments { OnOk result (command_args command.new ≡ command_args command.old ++ map string_bytes words.now) }
    ensures folder { OnOk result (command_dir command.new ≡ command_dir command.old) }
{
    for word in words {
        command.arg(word.as_str())?;
    }
    Ok(())
}

fn script_of(alloc: Global, whole: &Whole<'_>) -> Result<String, AllocError>
    ensures { IfOk result (λ script. string_bytes script ≡ start_text whole.now) }
{
    let mut script = String::new(alloc);
    for descriptor in whole.descriptors {
        let line = opening_line(alloc, whole.process, descriptor.number, descriptor.mode)?;
        script.push_str(line.as_str())?;
    }
    script.push_str(taking_line(alloc, whole)?.as_str())?;
    script.push_str(becoming_line())?;
    Ok(script)
}

// The line by which the shell becomes the command.
fn becoming_line() -> &'static str
    ensures { result.now ≡ becoming_text }
{
    "exec -- \"$@\"\n"
}

// The line that takes the words, if they aren't known.
fn taking_line(alloc: Global, whole: &Whole<'_>) -> Result<String, AllocError>
    ensures { IfOk result (λ line. string_bytes line ≡ taking_text whole.now.given whole.now.process) }
{
    let process = whole.process;
    match whole.given {
        Given::Words(_) => Ok(String::new(alloc)),
        Given::OwnLine => format!(in alloc;
            "mapfile -d '' -t words </proc/{process}/cmdline; set -- \"${{words[@]:2}}\"\n"
        ),
    }
}

// The line that opens a descriptor again, which stays closed if the system refuses it.
fn opening_line(alloc: Global, process: u32, number: u32, mode: Mode) -> Result<String, AllocError>
    ensures { IfOk result (λ line. string_bytes line ≡ opening_text process number mode) }
{
    let mut line = String::from_str(alloc, "{ command exec ")?;
    push_number(alloc, &mut line, number)?;
    line.push_str(sign_of(mode))?;
    line.push_str("/proc/")?;
    push_number(alloc, &mut line, process)?;
    line.push_str("/fd/")?;
    push_number(alloc, &mut line, number)?;
    line.push_str("; } 2>/dev/null\n")?;
    Ok(line)
}

fn push_number(alloc: Global, text: &mut String, number: u32) -> Result<(), AllocError>
    ensures { OnOk result (string_bytes text.new ≡ string_bytes text.old ++ decimal number) }
{
    let digits = number.to_string(alloc)?;
    text.push_str(digits.as_str())
}

fn sign_of(mode: Mode) -> &'static str
    ensures { result.now ≡ sign mode }
{
    match mode {
        Mode::Read => "<",
        Mode::Write => ">>",
        Mode::Both => "<>",
    }
}
