//! A table of options, and the row that fits a word.

ghost use Rattle.std.specs.Prelude.{◌≡◌, ◌<◌, ◌≤◌, ◌↔◌, ◌^◌, ℕ, length, MatchOption, Some, IfSome, IsNone, IsSomeAnd, IsOk, IfOk, IfErr, Err, IsTrue};
ghost use Rattle.std.specs.List.{list_all, slice_get};
ghost use Rattle.option_table.specs.Rows.{fits_not, is_table};
ghost use Rattle.option_table.specs.Held.{IsEntry};
ghost use Rattle.option_table.specs.Searches.{length_at};

use crate::fault::{TableFault, fault_of};
use crate::held::{Entry, Held};
use crate::index::{second_byte, sorted_places, span_of, spans};
use crate::row::OptionRow;
use crate::search::{equal_place, longest_place};
use farm_types::Bytes;
use std::marker::Model;

/// The row that fits a word.
#[derive(Clone, Copy, Debug, PartialEq, Eq)]
pub struct Found {
    /// The row's place in the array that the table was made of, from 0.
    pub row: u32,
    /// The byte of the word at which the attached operand begins: the one after the spelling.
    pub joined: usize,
}

/// A table of N options. No two of its rows have one spelling, and each spelling has two bytes or more.
///
/// Beside its rows it keeps their places, sorted by the spelling's second byte and then by the spelling,
/// and for each byte the span of the places whose spelling has it there.
#[derive(Debug, Drop)]
pub struct OptionTable<const N: usize> {
    pub(crate) held: Held<N>,
}

impl<const N: usize> Model for OptionTable<N> {
    ghost use Rattle.std.specs.Prelude.{List};
    ghost use Rattle.option_table.specs.declared.row.OptionRow.{OptionRow};
    ghost use Rattle.option_table.specs.Held.{held_rows, IsHeld};

    ghost Value = { List OptionRow };

    ghost view = { λ t. held_rows t.held };

    ghost invariant = { λ t. IsHeld N t.held };
}

impl<const N: usize> OptionTable<N> {
    ghost use Rattle.option_table.specs.Rows.{found, place_of, row_at, FitsAt};
    ghost use Rattle.option_table.specs.Spans.{IsSpan};
    ghost use Rattle.option_table.specs.Faults.{TableFaultStands};

    /// The table of these rows. It takes no memory.
    ///
    /// It is refused if two rows have one spelling, or if one has fewer than two bytes.
    pub fn new(rows: [OptionRow; N]) -> Result<OptionTable<N>, TableFault>
        requires { N < 2 ^ 32 }
        ensures ok { IfOk result (λ table. table ≡ rows.entry) }
        ensures right { IsOk result ↔ IsTrue (is_table rows.entry) }
        ensures fault { IfErr result (λ fault. TableFaultStands rows.entry fault) }
        ensures only { (fault : TableFault) → TableFaultStands rows.entry fault → result ≡ Err fault }
    {
        match fault_of(&rows) {
            Some(fault) => Err(fault),
            None => {
                let places = sorted_places(&rows);
                let starts = spans(&rows, &places);
                Ok(OptionTable {
                    held: Held::Own {
                        rows,
                        places,
                        starts,
                    },
                })
            }
        }
    }

    /// A copy of the row at a place.
    pub fn row(&self, at: u32) -> OptionRow
        requires { at < N }
        ensures there { slice_get self.now at ≡ Some result }
        ensures value { result ≡ row_at self.now at }
    {
        match &self.held {
            Held::Own { rows, .. } => rows[at as usize].copy(),
            Held::Constant { rows, .. } => rows[at as usize].row(),
        }
    }

    /// The row that fits a word, or None if no row does.
    pub fn find(&self, word: &Bytes) -> Option<Found>
        ensures value { result ≡ found self.now word.now }
        ensures within { IfSome result (λ f. f.row < N) }
        ensures none { IsNone result ↔ IsTrue (list_all (fits_not word.now) self.now) }
        ensures only { (at : ℕ) → FitsAt self.now word.now at → IsSomeAnd result (λ f. f.row ≡ at) }
        ensures distinct { IsTrue (is_table self.now) }
    {
        match self.place(word.as_slice()) {
            Some(row) => Some(Found {
                row,
                joined: self.length_at(row),
            }),
            None => None,
        }
    }

    // The place of the row that fits the word.
    fn place(&self, word: &[u8]) -> Option<u32>
        ensures place { result ≡ place_of self.now word.now }
        ensures within { IfSome result (λ at. at < N) }
        ensures none { IsNone result → IsTrue (list_all (fits_not word.now) self.now) }
        ensures table { IsTrue (is_table self.now) }
    {
        let places = self.span(second_byte(word));
        match equal_place(self, places, word) {
            Some(place) => Some(place),
            None => longest_place(self, places, word),
        }
    }

    // The places whose spelling has this second byte.
    fn span(&self, letter: u8) -> &[u32]
        ensures span { IsSpan self.now letter result.now }
        ensures table { IsTrue (is_table self.now) }
        ensures count { length self.now ≡ N }
    {
        match &self.held {
            Held::Own { places, starts, .. } => span_of(
                places.as_slice(),
                starts.as_slice(),
                letter,
            ),
            Held::Constant { places, starts, .. } => span_of(places, starts, letter),
        }
    }

    // The row at a place.
    pub(crate) fn entry(&self, place: u32) -> Option<Entry<'_>>
        ensures { MatchOption result (length self.now ≤ place) (λ entry. IsEntry self.now place entry) }
    {
        self.held.entry(place)
    }

    // The length of the spelling at a place; 0 past the end.
    pub(crate) fn length_at(&self, place: u32) -> usize
        ensures { result ≡ length_at self.now place }
    {
        match self.entry(place) {
            Some(entry) => entry.spelling.len(),
            None => 0,
        }
    }
}
