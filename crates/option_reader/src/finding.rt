//! One option among the words.

ghost use Rattle.std.specs.Prelude.{◌≡◌, ◌≤◌, List, map, length, drop, string_bytes, if◌then◌else◌};
ghost use Rattle.std.specs.Option.{option_copied};
ghost use Rattle.option_reader.specs.Items as items;
ghost use Rattle.option_reader.specs.Items.{Item, from_name, items_words, stands_in, value_in};
ghost use Rattle.option_reader.specs.Tables.{AreShaped, has_value};
ghost use Rattle.option_reader.specs.Readings.{AreOptions};

use crate::table::OptionTable;

// Whether a word is the value of the option of this name.
fn takes_value<T: OptionTable>(table: &T, name: &str) -> bool
    ensures { result ≡ has_value ((T.table table.now).known name.now) }
{
    match table.row(name) {
        Some(row) => row.takes_value,
        None => false,
    }
}

// The words after a value, if there is one.
fn behind_value(takes: bool, words: &[String]) -> &[String]
    ensures rest { result.now ≡ (if takes then drop 1 words.now else words.now) }
    ensures fewer { length result.now ≤ length words.now }
{
    if !takes || words.is_empty() {
        words
    } else {
        &words[1..]
    }
}

// The words from the first option of this name on; none if none has it.
fn from_option<'a, T: OptionTable>(table: &T, words: &'a [String], name: &str) -> &'a [String]
    ensures { (options : List Item) → AreShaped (T.table table.now) options → map string_bytes words.now ≡ items_words options
        → map string_bytes result.now ≡ items_words (from_name name.now options) }
{
    let mut rest = words;
    'each: while let Some((word, after)) = rest.split_first() {
        if word.as_str() == name {
            return rest;
        }
        rest = behind_value(takes_value(table, word.as_str()), after);
    }
    rest
}

/// Whether an option of this name is among the words, if these are options. Takes no memory.
pub fn stands<T: OptionTable>(table: &T, words: &[String], name: &str) -> bool
    ensures { (options : List Item) → AreOptions (T.table table.now) (map string_bytes words.now) options
        → result ≡ stands_in name.now options }
{
    !from_option(table, words, name).is_empty()
}

/// The value of the first option of this name among the words, if these are options. Takes no memory.
pub fn value_of<'a, T: OptionTable>(table: &T, words: &'a [String], name: &str) -> Option<&'a str>
    ensures { (options : List Item) → AreOptions (T.table table.now) (map string_bytes words.now) options
        → option_copied result ≡ value_in name.now options }
{
    if !takes_value(table, name) {
        return None;
    }
    match from_option(table, words, name) {
        [_, value, ..] => Some(value.as_str()),
        _ => None,
    }
}
