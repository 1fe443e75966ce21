//! The walk over the words.

ghost use Rattle.std.specs.Prelude.{◌≡◌, ◌≤◌, ◌+◌, ℕ, List, ◌∷◌, map, length, string_bytes, MatchResult, IfOk, IfErr, Some};
ghost use Rattle.option_reader.specs.Items.{Item, items_words, stands_in};
ghost use Rattle.option_reader.specs.Tables.{AreItems, Goes, may_stand};
ghost use Rattle.option_reader.specs.Readings.{AreOptions, BadOptionAt, StopAt};

use crate::finding::stands;
use crate::table::{OptionTable, Row};

// Whether an option with this row may come after these.
fn may_stand<T: OptionTable>(table: &T, before: &[String], name: &str, row: Row) -> bool
    ensures { (options : List Item) → AreItems (T.table table.now) options → map string_bytes before.now ≡ items_words options
        → result ≡ may_stand (Some row) (stands_in name.now options) }
{
    row.repeats || !stands(table, before, name)
}

// The number of words of the option with this name, between these words and those. Err: which of its words doesn't fit,
// from 0; that of a missing value is 1.
fn option_length<T: OptionTable>(
    table: &T,
    before: &[String],
    name: &str,
    after: &[String],
) -> Result<usize, usize>
    ensures read { (options : List Item) → AreItems (T.table table.now) options → map string_bytes before.now ≡ items_words options
        → MatchResult result
        (Goes (T.table table.now) options (name.now ∷ map string_bytes after.now))
        (StopAt (T.table table.now) options (name.now ∷ map string_bytes after.now)) }
    ensures some { IfOk result (λ n. 1 ≤ n) }
    ensures most { IfOk result (λ n. n ≤ 1 + length after.now) }
    ensures place { IfErr result (λ place. place ≤ 1) }
{
    let Some(row) = table.row(name) else {
        return Err(0);
    };
    if !may_stand(table, before, name, row) {
        return Err(0);
    }
    if !row.takes_value {
        return Ok(1);
    }
    match after.split_first() {
        None => Err(1),
        Some((value, _)) => {
            if table.fits(before, name, value.as_str()) {
                Ok(2)
            } else {
                Err(1)
            }
        }
    }
}

/// Whether the words are options of the command, one after another. Err is the place, from 0, of the first word that doesn't fit;
/// that of a missing value is the number of words. Takes no memory.
pub fn check_options<T: OptionTable>(table: &T, words: &[String]) -> Result<(), usize>
    ensures read { MatchResult result
        (λ _. (options : List Item) × AreOptions (T.table table.now) (map string_bytes words.now) options)
        (BadOptionAt (T.table table.now) (map string_bytes words.now)) }
    ensures within { IfErr result (λ place. place ≤ length words.now) }
{
    let mut at = 0;
    'each: while at < words.len() {
        match option_length(table, &words[..at], words[at].as_str(), &words[at + 1..]) {
            Ok(length) => at += length,
            Err(behind) => return Err(at + behind),
        }
    }
    Ok(())
}
