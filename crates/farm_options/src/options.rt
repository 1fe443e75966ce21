//! The options of a command.

ghost use Rattle.std.specs.Prelude.{◌≡◌, List, map, string_bytes};
ghost use Rattle.std.specs.Option.{option_and_then, option_copied};
ghost use Rattle.option_reader.specs.Items.{Item};
ghost use Rattle.option_reader.specs.Readings.{AreOptions};
ghost use Rattle.farm_options.specs.Numbers.{lines_number, tries_number, workers_number};
ghost use Rattle.farm_options.specs.Options.{OptionsRead, given_in, given_by, line_count, options_meant, options_of, row_of, try_count, value_fits, worker_count};
ghost use Rattle.farm_options.specs.Names.{option_named};

use crate::name::{CommandName, OptionName, parse_option_name};
use crate::number::{parse_lines, parse_tries, parse_workers};
use farm_types::limits::WORKERS_DEFAULT;
use option_reader::{OptionTable, Row, check_options, stands, value_of};

/// What the options of a command say.
#[derive(Clone, Copy, Debug, PartialEq, Eq)]
pub struct Options<'a> {
    /// The text of `--hosts`.
    pub hosts: Option<&'a str>,
    /// The number of `--workers`, 1 to 16.
    pub workers: Option<u8>,
    /// The number of `--tries`, 1 to 16.
    pub tries: Option<u8>,
    /// The number of `--lines`, 1 to 100.
    pub lines: Option<u8>,
    /// False with `--no-fallback`.
    pub fallback: bool,
    /// False with `--no-retry`.
    pub retry: bool,
}

/// The exchanges that a job may make if `--tries` isn't given.
const TRIES_DEFAULT: u8 = 1;

/// The lines that show a build while it runs, if `--lines` isn't given.
const LINES_DEFAULT: u8 = 10;

impl Options<'_> {
    /// The number of workers: that of `--workers`, or else 4.
    pub fn worker_count(&self) -> u8
        ensures { result ≡ worker_count (given_in self.now) }
    {
        self.workers.unwrap_or(WORKERS_DEFAULT as u8)
    }

    /// How many exchanges a job may make: the number of `--tries`, or else 1.
    pub fn try_count(&self) -> u8
        ensures { result ≡ try_count (given_in self.now) }
    {
        self.tries.unwrap_or(TRIES_DEFAULT)
    }

    /// How many lines show a build while it runs: the number of `--lines`, or else 10.
    pub fn line_count(&self) -> u8
        ensures { result ≡ line_count (given_in self.now) }
    {
        self.lines.unwrap_or(LINES_DEFAULT)
    }
}

// What is known of an option of the command.
fn row_of(command: CommandName, option: Option<OptionName>) -> Option<Row>
    ensures { result ≡ row_of command option }
{
    match option {
        Some(option) if command.has_option(option) => Some(Row {
            takes_value: option.takes_value(),
            repeats: false,
        }),
        Some(_) => None,
        None => None,
    }
}

// Whether a word may be the value of an option.
fn is_value(option: Option<OptionName>, word: &str) -> bool
    ensures { result ≡ value_fits option word.now }
{
    match option {
        Some(OptionName::Hosts) => true,
        Some(OptionName::Workers) => parse_workers(word).is_some(),
        Some(OptionName::Tries) => parse_tries(word).is_some(),
        Some(OptionName::Lines) => parse_lines(word).is_some(),
        Some(OptionName::NoFallback) => false,
        Some(OptionName::NoRetry) => false,
        None => false,
    }
}

impl OptionTable for CommandName {
    ghost use Rattle.farm_options.specs.Options.{options_of};

    ghost table = { options_of };

    fn row(&self, word: &str) -> Option<Row> {
        row_of(*self, parse_option_name(word))
    }

    fn fits(&self, _before: &[String], name: &str, value: &str) -> bool {
        is_value(parse_option_name(name), value)
    }
}

// The number of workers that the value of an option spells.
fn workers_in(value: Option<&str>) -> Option<u8>
    ensures { result ≡ option_and_then workers_number (option_copied value.entry) }
{
    match value {
        Some(word) => parse_workers(word),
        None => None,
    }
}

// The number of tries that the value of an option spells.
fn tries_in(value: Option<&str>) -> Option<u8>
    ensures { result ≡ option_and_then tries_number (option_copied value.entry) }
{
    match value {
        Some(word) => parse_tries(word),
        None => None,
    }
}

// The number of lines that the value of an option spells.
fn lines_in(value: Option<&str>) -> Option<u8>
    ensures { result ≡ option_and_then lines_number (option_copied value.entry) }
{
    match value {
        Some(word) => parse_lines(word),
        None => None,
    }
}

// What options say.
fn options_in(command: CommandName, words: &[String]) -> Options<'_>
    ensures { (items : List Item) → AreOptions (options_of command) (map string_bytes words.now) items → given_in result ≡ given_by items }
{
    Options {
        hosts: value_of(&command, words, "--hosts"),
        workers: workers_in(value_of(&command, words, "--workers")),
        tries: tries_in(value_of(&command, words, "--tries")),
        lines: lines_in(value_of(&command, words, "--lines")),
        fallback: !stands(&command, words, "--no-fallback"),
        retry: !stands(&command, words, "--no-retry"),
    }
}

// What the options of a command say, or the place of the first word that doesn't fit. The first of these words is at
// place 1 of the command line.
pub(crate) fn parse_options(command: CommandName, words: &[String]) -> Result<Options<'_>, usize>
    ensures { OptionsRead command (map string_bytes words.now) (options_meant result) }
{
    match check_options(&command, words) {
        Ok(_) => Ok(options_in(command, words)),
        Err(place) => Err(1 + place),
    }
}
