//! What the words of `farmd` ask for.

ghost use Rattle.std.specs.Prelude.{◌≡◌, ◌≤◌, ℕ, map, length, string_bytes, IfSome, IfNone, IfErr};
ghost use Rattle.farmd_options.specs.declared.command.Command.{Command as Asked};
ghost use Rattle.farmd_options.specs.Commands as commands;
ghost use Rattle.farmd_options.specs.Commands.{BadAt, IsCommand, ReadWords};

use crate::options::Options;
use crate::reading::read_options;
use farm_types::limits::PORT_DEFAULT;

/// What `farmd` is to do.
#[derive(Clone, Copy, Debug, PartialEq, Eq)]
pub enum Command {
    /// `--help`, as the only word or after `--trust-options`.
    Help,
    /// `--version`, as the only word or after `--trust-options`.
    Version,
    /// To serve, as these options say.
    Serve(Options),
}

/// Where the doors are: their IPv4 address as a number, their port, and how many they are. If `farmd` isn't to serve, there are none.
#[derive(Clone, Copy, Debug, PartialEq, Eq)]
pub struct DoorPlace {
    pub addr: u32,
    pub port: u16,
    pub doors: u32,
}

fn asked_by(word: &str) -> Option<Command>
    ensures { result ≡ commands.asked_by word.now }
{
    match word {
        "--help" => Some(Command::Help),
        "--version" => Some(Command::Version),
        _ => None,
    }
}

// What the first word asks for if it is `--help` or `--version`, and otherwise None.
fn asked(words: &[String]) -> Option<Command>
    ensures { result ≡ commands.asked (map string_bytes words.now) }
{
    match words {
        [first, ..] => asked_by(first.as_str()),
        [] => None,
    }
}

/// Whether the words begin with `--trust-options`: a station is to run any words of its peers' commands (docs/daemon.md).
pub fn trusts_options(words: &[String]) -> bool
    ensures { result ≡ commands.trusts (map string_bytes words.now) }
{
    match words {
        [first, ..] => first.as_str() == "--trust-options",
        [] => false,
    }
}

/// The words without a leading `--trust-options`: `--help`, `--version`, or options and their values.
pub fn settings_of(words: &[String]) -> &[String]
    ensures { map string_bytes result.now ≡ commands.settings_of (map string_bytes words.now) }
{
    match words {
        [first, settings @ ..] if first.as_str() == "--trust-options" => settings,
        _ => words,
    }
}

fn parse_settings(words: &[String]) -> Result<Command, usize>
    ensures read { commands.ByFirst (map string_bytes words.now) result (commands.asked (map string_bytes words.now)) }
    ensures within { IfErr result (λ place. place ≤ length words.now) }
{
    match asked(words) {
        Some(command) => {
            if words.len() == 1 {
                Ok(command)
            } else {
                Err(1)
            }
        }
        None => match read_options(words) {
            Ok(options) => Ok(Command::Serve(options)),
            Err(place) => Err(place),
        },
    }
}

/// What the words ask for, without the program's name. Err is the place, from 0, of the first word that isn't right; that of a
/// missing word is the number of words. It takes no memory.
pub fn parse_words(words: &[String]) -> Result<Command, usize>
    ensures { ReadWords (map string_bytes words.now) result }
{
    match parse_settings(settings_of(words)) {
        Ok(command) => Ok(command),
        Err(place) => {
            if trusts_options(words) {
                Err(place + 1)
            } else {
                Err(place)
            }
        }
    }
}

impl Command {
    fn place(&self) -> DoorPlace
        ensures { result ≡ commands.place_of self.now }
    {
        match self {
            Command::Help | Command::Version => DoorPlace {
                addr: 0,
                port: PORT_DEFAULT,
                doors: 0,
            },
            Command::Serve(options) => DoorPlace {
                addr: options.listen(),
                port: options.port(),
                doors: u32::from(options.jobs()),
            },
        }
    }
}

/// The place of the doors by these words. None if they are bad words. It takes no memory.
pub fn door_place(words: &[String]) -> Option<DoorPlace>
    ensures some { IfSome result (λ place. (command : Asked) × IsCommand (map string_bytes words.now) command × (place ≡ commands.place_of command)) }
    ensures none { IfNone result ((at : ℕ) × BadAt (map string_bytes words.now) at) }
{
    match parse_words(words) {
        Ok(command) => Some(command.place()),
        Err(_) => None,
    }
}
