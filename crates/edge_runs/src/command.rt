// The command that runs the words of a job.
ghost use Rattle.std.specs.Prelude.{◌≡◌, ◌≢◌, ◌∷◌, ◌++◌, [], false, ◌||◌, map, Option, None, Some, Err, IfOk, IfErr, OnOk, MatchResult, All, string_bytes};
ghost use Rattle.std.specs.Option.{is_some, unwrap_or};
ghost use Rattle.std.specs.Process.{command_program, command_args, command_dir, SameEnv, SameDir};
ghost use Rattle.edge_traits.specs.Stations.{has_output};
ghost use Rattle.edge_runs.specs.Commands.{NamesNoStream, given_word, CanBeGiven, IsCommandOf, IsCommandIn, IsProgramIn, needs_folder, named_from, is_from_here, first_input, source_text, source_of, object_text};
ghost use Rattle.edge_runs.specs.RunFolders.{bytes_if};

use edge_traits::{StationFault, has_output};
use farm_types::{Ext, Word};
use std::alloc::{AllocError, Global};
use std::process::Command;
use std::str;

/// Whether one of the words is `Input` or `Output`.
pub fn needs_folder(words: &[Word]) -> bool
    ensures { result ≡ needs_folder words.now }
{
    input_ext(words).is_some() || has_output(words)
}

/// What the first `Input` of the words is, if one of them is `Input`.
#[tactic(auto, using(crate::proofs::WordLemmas::inputs))]
pub fn input_ext(words: &[Word]) -> Option<Ext>
    ensures { result ≡ first_input words.now }
{
    for word in words {
        if let Word::Input(ext) = word {
            return Some(*ext);
        }
    }
    None
}

/// The name of the input in its folder.
pub fn source_name(ext: Ext) -> &'static str
    ensures { result.now ≡ source_text ext }
{
    match ext {
        Ext::I => "input.i",
        Ext::Ii => "input.ii",
    }
}

/// The path, and nothing if there is none.
pub fn path_of(path: &Option<String>) -> &str
    ensures { result.now ≡ unwrap_or (bytes_if path.now) [] }
{
    match path {
        Some(path) => path.as_str(),
        None => "",
    }
}

/// The command of these words, with these paths for the input and the object. It runs in the folder of this process.
pub fn command_of(
    alloc: Global,
    words: &[Word],
    source: &str,
    object: &str,
) -> Result<Command, StationFault>
    ensures command { IfOk result (IsCommandOf words.now source.now object.now) }
    ensures given { OnOk result (All CanBeGiven words.now) }
    ensures empty { words.now ≡ [] → result ≡ Err StationFault.Failed }
    ensures fault { IfErr result NamesNoStream }
{
    let Some((program, arguments)) = words.split_first() else {
        return Err(StationFault::Failed);
    };
    let mut command = Command::new(alloc, text_of(program, source, object)?)?;
    give_all(&mut command, arguments, source, object)?;
    Ok(command)
}

/// The command of these words in this folder, which holds the input and the object. If the program is named by a path from `here`, the folder of this
/// process, it is the one there.
pub fn command_in(
    alloc: Global,
    words: &[Word],
    folder: &str,
    here: &str,
) -> Result<Command, StationFault>
    ensures command { IfOk result (IsCommandIn words.now here.now folder.now) }
    ensures given { OnOk result (All CanBeGiven words.now) }
    ensures empty { words.now ≡ [] → result ≡ Err StationFault.Failed }
    ensures fault { IfErr result NamesNoStream }
{
    let Some((program, arguments)) = words.split_first() else {
        return Err(StationFault::Failed);
    };
    let source = source_of(words);
    let program = text_of(program, source, OBJECT_NAME)?;
    let mut command = program_in(alloc, program, folder, here)?;
    give_all(&mut command, arguments, source, OBJECT_NAME)?;
    Ok(command)
}

/// The command of a program without arguments, in this folder. Its temporary files are in this folder too.
fn program_in(alloc: Global, program: &str, folder: &str, here: &str) -> Result<Command, AllocError>
    ensures { IfOk result (IsProgramIn program.now here.now folder.now) }
{
    let program = named_from(alloc, here, program)?;
    let mut command = Command::new(alloc, program.as_str())?;
    command.current_dir(folder)?;
    command.env("TMPDIR", named_from(alloc, here, folder)?.as_str())?;
    Ok(command)
}

/// The name of a program for a child in another folder than `here`: a path from there begins with it.
fn named_from(alloc: Global, here: &str, program: &str) -> Result<String, AllocError>
    ensures { IfOk result (λ name. string_bytes name ≡ named_from here.now program.now) }
{
    if !is_from_here(program.as_bytes()) {
        return String::from_str(alloc, program);
    }
    let mut name = String::from_str(alloc, here)?;
    name.push_str("/")?;
    name.push_str(program)?;
    Ok(name)
}

/// Whether it is a path from the folder of this process. A name without a slash is sought in `PATH`.
fn is_from_here(program: &[u8]) -> bool
    ensures { result ≡ is_from_here program.now }
{
    program.contains(&b'/') && !program.starts_with(b"/")
}

/// The name of the input in its folder. It is empty if `Input` isn't one of the words.
fn source_of(words: &[Word]) -> &'static str
    ensures { result.now ≡ source_of words.now }
{
    match input_ext(words) {
        Some(ext) => source_name(ext),
        None => "",
    }
}

/// The name of the object in its folder.
pub const OBJECT_NAME: &str = "output.o";

/// Gives a command these words more, and changes nothing else of it.
fn give_all(
    command: &mut Command,
    words: &[Word],
    source: &str,
    object: &str,
) -> Result<(), StationFault>
    ensures program { OnOk result (command_program command.new ≡ command_program command.old) }
    ensures arguments { OnOk result (command_args command.new ≡ command_args command.old ++ map (given_word source.now object.now) words.now) }
    ensures environment { OnOk result (SameEnv command.old command.new) }
    ensures folder { OnOk result (SameDir command.old command.new) }
    ensures given { OnOk result (All CanBeGiven words.now) }
    ensures fault { IfErr result NamesNoStream }
{
    for word in words {
        give(command, word, source, object)?;
    }
    Ok(())
}

/// Gives a command this word more, and changes nothing else of it.
fn give(command: &mut Command, word: &Word, source: &str, object: &str) -> Result<(), StationFault>
    ensures program { OnOk result (command_program command.new ≡ command_program command.old) }
    ensures arguments { OnOk result (command_args command.new ≡ command_args command.old ++ given_word source.now object.now word.now ∷ []) }
    ensures environment { OnOk result (SameEnv command.old command.new) }
    ensures folder { OnOk result (SameDir command.old command.new) }
    ensures given { OnOk result (CanBeGiven word.now) }
    ensures refused { ¬ (CanBeGiven word.now) → result ≡ Err StationFault.Failed }
    ensures fault { IfErr result NamesNoStream }
{
    let text = text_of(word, source, object)?;
    command.arg(text)?;
    Ok(())
}

/// A word as the program is given it. One that isn't UTF-8 or holds a zero byte can't be given.
fn text_of<'a>(word: &'a Word, source: &'a str, object: &'a str) -> Result<&'a str, StationFault>
    ensures text { IfOk result (λ text. text.now ≡ given_word source.now object.now word.now) }
    ensures cases { MatchResult result (λ text. CanBeGiven word.now) (λ fault. (fault ≡ StationFault.Failed) × ¬ (CanBeGiven word.now)) }
{
    match word {
        Word::Input(_) => Ok(source),
        Word::Output => Ok(object),
        Word::Text(bytes) => {
            if bytes.as_slice().contains(&0) {
                return Err(StationFault::Failed);
            }
            match str::from_utf8(bytes.as_slice()) {
                Ok(text) => Ok(text),
                Err(_) => Err(StationFault::Failed),
            }
        }
    }
}
