//! The commands of `farm`.

ghost use Rattle.std.specs.Prelude.{◌≡◌, ◌≤◌, map, string_bytes, MatchResult};
ghost use Rattle.farm_options.specs.Commands.{BadAt, ByFirstWord, IsCommand, NamedCommand, asks_help, at_least_one, at_most, command_meant, counted, is_help_first, meaning, rehearse_words};
ghost use Rattle.farm_options.specs.Names.{first_word_named};
ghost use Rattle.farm_options.specs.Numbers.{jobs_number};

use crate::name::{CommandName, FirstWord, is_help, parse_first_word};
use crate::number::parse_jobs;
use crate::options::{Options, parse_options};

/// What the words of `farm` ask for. Texts and words are those of the command line.
#[derive(Clone, Copy, Debug)]
pub enum Command<'a> {
    /// `build` and its options.
    Build(Options<'a>),
    /// `watch` and its options, which are those of `build` and `--lines`.
    Watch(Options<'a>),
    /// `graph` and its options, which are those of `build`.
    Graph(Options<'a>),
    /// `cc` and the words of a compile command, at least one.
    Cc { words: &'a [String] },
    /// `hosts`, with the text of its option `--hosts`.
    Hosts { hosts: Option<&'a str> },
    /// `scan` and the words of a compile command, at least one.
    Scan { words: &'a [String] },
    /// `rehearse` and its number of jobs, 1 to 512.
    Rehearse { jobs: u16 },
    /// `--help`, by itself or after the name of a command.
    Help(Option<CommandName>),
    /// `--version`.
    Version,
}

// A command with at most this many words after the first of the command line.
fn with_at_most<'a>(
    command: Command<'a>,
    words: &[String],
    most: usize,
) -> Result<Command<'a>, usize>
    requires { most ≤ 1 }
    ensures { command_meant result ≡ at_most most (meaning command.entry) (map string_bytes words.now) }
{
    if words.len() <= most {
        Ok(command)
    } else {
        Err(1 + most)
    }
}

// A command with at least one word after its name.
fn with_words<'a>(command: Command<'a>, words: &[String]) -> Result<Command<'a>, usize>
    ensures { command_meant result ≡ at_least_one (meaning command.entry) (map string_bytes words.now) }
{
    if words.is_empty() {
        Err(1)
    } else {
        Ok(command)
    }
}

fn is_help_word(name: CommandName, word: &str, more: usize) -> bool
    ensures { result ≡ is_help_first name word.now more }
{
    is_help(word) && (more == 0 || !name.takes_any_words())
}

// Whether the words after a command's name ask for its help.
fn is_help_asked(name: CommandName, words: &[String]) -> bool
    ensures { result ≡ asks_help name (map string_bytes words.now) }
{
    match words.split_first() {
        None => false,
        Some((word, more)) => is_help_word(name, word.as_str(), more.len()),
    }
}

fn parse_build(words: &[String]) -> Result<Command<'_>, usize>
    ensures { NamedCommand CommandName.Build (map string_bytes words.now) (command_meant result) }
{
    match parse_options(CommandName::Build, words) {
        Ok(options) => Ok(Command::Build(options)),
        Err(place) => Err(place),
    }
}

fn parse_watch(words: &[String]) -> Result<Command<'_>, usize>
    ensures { NamedCommand CommandName.Watch (map string_bytes words.now) (command_meant result) }
{
    match parse_options(CommandName::Watch, words) {
        Ok(options) => Ok(Command::Watch(options)),
        Err(place) => Err(place),
    }
}

fn parse_graph(words: &[String]) -> Result<Command<'_>, usize>
    ensures { NamedCommand CommandName.Graph (map string_bytes words.now) (command_meant result) }
{
    match parse_options(CommandName::Graph, words) {
        Ok(options) => Ok(Command::Graph(options)),
        Err(place) => Err(place),
    }
}

fn parse_hosts(words: &[String]) -> Result<Command<'_>, usize>
    ensures { NamedCommand CommandName.Hosts (map string_bytes words.now) (command_meant result) }
{
    match parse_options(CommandName::Hosts, words) {
        Ok(options) => Ok(Command::Hosts {
            hosts: options.hosts,
        }),
        Err(place) => Err(place),
    }
}

// A rehearsal of as many jobs as a word says, which is the first of these.
fn with_jobs<'a>(word: &str, words: &'a [String]) -> Result<Command<'a>, usize>
    ensures { command_meant result ≡ counted (jobs_number word.now) (map string_bytes words.now) }
{
    match parse_jobs(word) {
        Some(jobs) => with_at_most(Command::Rehearse { jobs }, words, 1),
        None => Err(1),
    }
}

fn parse_rehearse(words: &[String]) -> Result<Command<'_>, usize>
    ensures { command_meant result ≡ rehearse_words (map string_bytes words.now) }
{
    match words.split_first() {
        None => Err(1),
        Some((word, _)) => with_jobs(word.as_str(), words),
    }
}

// The command with this name, by the words after it.
fn parse_named(name: CommandName, words: &[String]) -> Result<Command<'_>, usize>
    ensures { NamedCommand name (map string_bytes words.now) (command_meant result) }
{
    match name {
        CommandName::Build => parse_build(words),
        CommandName::Watch => parse_watch(words),
        CommandName::Graph => parse_graph(words),
        CommandName::Cc => with_words(Command::Cc { words }, words),
        CommandName::Hosts => parse_hosts(words),
        CommandName::Scan => with_words(Command::Scan { words }, words),
        CommandName::Rehearse => parse_rehearse(words),
    }
}

fn parse_by_name(name: CommandName, words: &[String]) -> Result<Command<'_>, usize>
    ensures { ByFirstWord (Some (FirstWord.Name name)) (map string_bytes words.now) (command_meant result) }
{
    if is_help_asked(name, words) {
        with_at_most(Command::Help(Some(name)), words, 1)
    } else {
        parse_named(name, words)
    }
}

// The command by its first word and the others.
fn parse_after<'a>(first: &str, words: &'a [String]) -> Result<Command<'a>, usize>
    ensures { ByFirstWord (first_word_named first.now) (map string_bytes words.now) (command_meant result) }
{
    match parse_first_word(first) {
        None => Err(0),
        Some(FirstWord::Help) => with_at_most(Command::Help(None), words, 0),
        Some(FirstWord::Version) => with_at_most(Command::Version, words, 0),
        Some(FirstWord::Name(name)) => parse_by_name(name, words),
    }
}

/// The command that the words ask for, without the program's name. Err is the place, from 0, of the first word that doesn't
/// fit; that of a missing word is the number of words. Takes no memory.
pub fn parse_command(words: &[String]) -> Result<Command<'_>, usize>
    ensures { MatchResult result
        (λ command. IsCommand (map string_bytes words.now) (meaning command))
        (BadAt (map string_bytes words.now)) }
{
    match words.split_first() {
        None => Err(0),
        Some((first, rest)) => parse_after(first.as_str(), rest),
    }
}
