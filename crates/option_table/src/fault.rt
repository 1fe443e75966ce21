//! What makes rows unfit for a table.

ghost use Rattle.std.specs.Prelude.{◌≡◌, ◌<◌, ◌≤◌, ◌^◌, ℕ, length, IsTrue, MatchOption};
ghost use Rattle.option_table.specs.Rows.{is_table, row_at};
ghost use Rattle.option_table.specs.Faults.{TableFaultStands, AreApart, AreAlike, AreFirstAlike};

use crate::row::OptionRow;

/// Why rows make no table. Places are those of the array that was handed in.
#[derive(Clone, Copy, Debug, PartialEq, Eq)]
pub enum TableFault {
    /// These two rows have one spelling, and no such pair has a lesser second place.
    Doubled { first: u32, second: u32 },
    /// No spelling is doubled, and this is the first with fewer than two bytes.
    Short { row: u32 },
}

// The fault of the rows; None if they make a table.
pub(crate) fn fault_of(rows: &[OptionRow]) -> Option<TableFault>
    requires { length rows.now < 2 ^ 32 }
    ensures { MatchOption result (IsTrue (is_table rows.now)) (λ fault. TableFaultStands rows.now fault) }
{
    match first_alike(rows) {
        Some((first, second)) => Some(TableFault::Doubled {
            first: first as u32,
            second: second as u32,
        }),
        None => match first_short(rows) {
            Some(at) => Some(TableFault::Short { row: at as u32 }),
            None => None,
        },
    }
}

// The first two rows with one spelling, the one with the least second place.
fn first_alike(rows: &[OptionRow]) -> Option<(usize, usize)>
    ensures { MatchOption result (AreApart rows.now) (λ pair. AreFirstAlike rows.now pair.0 pair.1) }
{
    for second in 0..rows.len() {
        if let Some(first) = alike_before(rows, second) {
            return Some((first, second));
        }
    }
    None
}

// A row before this one with the same spelling.
fn alike_before(rows: &[OptionRow], second: usize) -> Option<usize>
    requires { second < length rows.now }
    ensures { MatchOption result ((i : ℕ) → ¬ (AreAlike rows.now i second)) (λ first. AreAlike rows.now first second) }
{
    for first in 0..second {
        if rows[first].spelling.as_slice() == rows[second].spelling.as_slice() {
            return Some(first);
        }
    }
    None
}

// The first row whose spelling has fewer than two bytes.
fn first_short(rows: &[OptionRow]) -> Option<usize>
    ensures within { MatchOption result (length rows.now ≤ length rows.now) (λ at. at < length rows.now) }
    ensures long { MatchOption result ((k : ℕ) → k < length rows.now → 2 ≤ length (row_at rows.now k).spelling) (λ at. length (row_at rows.now at).spelling < 2) }
    ensures least { MatchOption result (length rows.now ≤ length rows.now) (λ at. (k : ℕ) → k < at → 2 ≤ length (row_at rows.now k).spelling) }
{
    for at in 0..rows.len() {
        if rows[at].spelling.len() < 2 {
            return Some(at);
        }
    }
    None
}
