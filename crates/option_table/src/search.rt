//! The row that fits a word, among the places of one span.

ghost use Rattle.std.specs.Prelude.{◌≡◌, ◌<◌, ◌≤◌, ℕ, length, true, false, MatchOption};
ghost use Rattle.std.specs.List.{slice_index};
ghost use Rattle.option_table.specs.Rows.{fits_equal, fits_begin};
ghost use Rattle.option_table.specs.Held.{entry_row};
ghost use Rattle.option_table.specs.Searches.{equal_at, begin_at, is_longer, IsLongestIn};

use crate::held::Entry;
use crate::row::Form;
use crate::table::OptionTable;

// A place whose row the word equals.
pub(crate) fn equal_place<const N: usize>(
    table: &OptionTable<N>,
    places: &[u32],
    word: &[u8],
) -> Option<u32>
    ensures { MatchOption result ((k : ℕ) → k < length places.now → equal_at table.now word.now (slice_index places.now k) ≡ false) (λ place. equal_at table.now word.now place ≡ true) }
{
    for place in places {
        if is_equal(table, *place, word) {
            return Some(*place);
        }
    }
    None
}

// The place of the longest spelling that the word begins with.
pub(crate) fn longest_place<const N: usize>(
    table: &OptionTable<N>,
    places: &[u32],
    word: &[u8],
) -> Option<u32>
    ensures { IsLongestIn table.now word.now places.now (length places.now) result }
{
    let mut best: Option<u32> = None;
    for place in places {
        if is_begun(table, *place, word) && is_longer(table, *place, best) {
            best = Some(*place);
        }
    }
    best
}

// Whether the spelling at this place is longer than that at the best one so far.
fn is_longer<const N: usize>(table: &OptionTable<N>, place: u32, best: Option<u32>) -> bool
    ensures { result ≡ is_longer table.now place best }
{
    match best {
        Some(best) => table.length_at(best) < table.length_at(place),
        None => true,
    }
}

fn is_equal<const N: usize>(table: &OptionTable<N>, place: u32, word: &[u8]) -> bool
    ensures { result ≡ equal_at table.now word.now place }
{
    match table.entry(place) {
        Some(entry) => fits_equal(entry, word),
        None => false,
    }
}

fn is_begun<const N: usize>(table: &OptionTable<N>, place: u32, word: &[u8]) -> bool
    ensures { result ≡ begin_at table.now word.now place }
{
    match table.entry(place) {
        Some(entry) => fits_begin(entry, word),
        None => false,
    }
}

fn fits_equal(row: Entry<'_>, word: &[u8]) -> bool
    ensures { result ≡ fits_equal word.now (entry_row row.entry) }
{
    let takes = match row.form {
        Form::None | Form::Next | Form::Either => true,
        Form::Joined => false,
    };
    takes && row.spelling == word
}

fn fits_begin(row: Entry<'_>, word: &[u8]) -> bool
    ensures { result ≡ fits_begin word.now (entry_row row.entry) }
{
    let takes = match row.form {
        Form::None | Form::Next => false,
        Form::Joined | Form::Either => true,
    };
    takes && word.starts_with(row.spelling)
}
