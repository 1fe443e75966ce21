//! The words of `farm_jobs`.

ghost use Rattle.std.specs.Prelude.{◌≡◌, ◌≤◌, List, map, string_bytes, IfOk, IfErr, IfSome};
ghost use Rattle.std.specs.Option.{option_and_then, option_copied};
ghost use Rattle.option_reader.specs.Items.{Item};
ghost use Rattle.option_reader.specs.Readings.{AreOptions};
ghost use Rattle.compile_database.specs.Words as words;
ghost use Rattle.compile_database.specs.Words.{BadWordsAt, Chooses, count_of, given_by, number_of, option_of, options, row_of, value_fits};
ghost use Rattle.compile_database.specs.Selections.{choice_of, given};

use crate::choice::Selection;
use farm_types::limits::JOBS_MAX;
use farm_types::read_plain_decimal;
use option_reader::{OptionTable, Row, check_options, value_of};

/// An option of `farm_jobs`.
#[derive(Clone, Copy, Debug, PartialEq, Eq, Drop)]
pub(crate) enum OptionName {
    Folder,
    From,
    Count,
}

// What options say.
#[derive(Clone, Copy, Debug)]
pub(crate) struct Given<'a> {
    pub folder: Option<&'a str>,
    pub from: Option<usize>,
    pub count: Option<usize>,
}

// The number that a word spells in 1 to 9 decimal digits, without a leading zero.
fn number_of(word: &[u8]) -> Option<usize>
    ensures { result ≡ number_of word.now }
{
    match read_plain_decimal(word, 9, 0, 999_999_999) {
        Some(number) => Some(number as usize),
        None => None,
    }
}

// The number of `--count`.
fn count_of(word: &[u8]) -> Option<usize>
    ensures { result ≡ count_of word.now }
{
    match read_plain_decimal(word, 3, 1, JOBS_MAX as u32) {
        Some(count) => Some(count as usize),
        None => None,
    }
}

// The option that a word names.
fn option_of(word: &str) -> Option<OptionName>
    ensures { result ≡ option_of word.now }
{
    match word {
        "--folder" => Some(OptionName::Folder),
        "--from" => Some(OptionName::From),
        "--count" => Some(OptionName::Count),
        _ => None,
    }
}

// What is known of an option.
fn row_of(option: Option<OptionName>) -> Option<Row>
    ensures { result ≡ row_of option }
{
    match option {
        Some(_) => Some(Row {
            takes_value: true,
            repeats: false,
        }),
        None => None,
    }
}

// Whether a word may be the value of an option.
fn is_value(option: Option<OptionName>, word: &str) -> bool
    ensures { result ≡ value_fits option word.now }
{
    match option {
        Some(OptionName::Folder) => true,
        Some(OptionName::From) => number_of(word.as_bytes()).is_some(),
        Some(OptionName::Count) => count_of(word.as_bytes()).is_some(),
        None => false,
    }
}

/// The options of `farm_jobs`.
struct JobOptions;

impl OptionTable for JobOptions {
    ghost use Rattle.compile_database.specs.Words.{options};

    ghost table = { λ _. options };

    fn row(&self, word: &str) -> Option<Row> {
        row_of(option_of(word))
    }

    fn fits(&self, _before: &[String], name: &str, value: &str) -> bool {
        is_value(option_of(name), value)
    }
}

// The number that the value of an option spells.
fn number_in(value: Option<&str>) -> Option<usize>
    ensures { result ≡ option_and_then number_of (option_copied value.entry) }
{
    match value {
        Some(word) => number_of(word.as_bytes()),
        None => None,
    }
}

// The number of entries that the value of an option spells.
fn count_in(value: Option<&str>) -> Option<usize>
    ensures { result ≡ option_and_then count_of (option_copied value.entry) }
{
    match value {
        Some(word) => count_of(word.as_bytes()),
        None => None,
    }
}

// What options say.
fn options_in(words: &[String]) -> Given<'_>
    ensures { (items : List Item) → AreOptions options (map string_bytes words.now) items → given result ≡ given_by items }
{
    Given {
        folder: value_of(&JobOptions, words, "--folder"),
        from: number_in(value_of(&JobOptions, words, "--from")),
        count: count_in(value_of(&JobOptions, words, "--count")),
    }
}

// The selection that options make.
fn select(options: Given<'_>) -> Selection<'_>
    ensures { choice_of result ≡ words.choice_by (given options.entry) }
{
    Selection {
        folder: options.folder,
        from: options.from.unwrap_or(0),
        count: options.count,
    }
}

/// The selection that the words make, or the place of the first word that doesn't fit, from 0; that of a missing word is
/// their number. Takes no memory.
pub(crate) fn selection_of(words: &[String]) -> Result<Selection<'_>, usize>
    ensures ok { IfOk result (λ selection. Chooses (map string_bytes words.now) (choice_of selection)) }
    ensures err { IfErr result (BadWordsAt (map string_bytes words.now)) }
{
    match check_options(&JobOptions, words) {
        Ok(_) => Ok(select(options_in(words))),
        Err(place) => Err(place),
    }
}
