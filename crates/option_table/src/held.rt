//! The two places in which a table may have its rows and their index.

ghost use Rattle.std.specs.Prelude.{◌≡◌, ◌≤◌, ◌<◌, length, MatchOption};
ghost use Rattle.option_table.specs.Rows.{row_at};
ghost use Rattle.option_table.specs.Held.{held_rows, entry_row, IsEntry};

use crate::index::LETTERS;
use crate::row::{ConstantRow, Effect, Form, OptionRow};

// The rows of a table, their places sorted, and for each second byte the start of its span.
#[derive(Debug, Drop)]
pub(crate) enum Held<const N: usize> {
    // Made at run time.
    Own {
        rows: [OptionRow; N],
        places: [u32; N],
        starts: [u32; LETTERS],
    },
    // A constant of the program.
    Constant {
        rows: &'static [ConstantRow],
        places: &'static [u32],
        starts: &'static [u32],
    },
}

// A row, as it is read.
#[derive(Clone, Copy)]
pub(crate) struct Entry<'a> {
    pub spelling: &'a [u8],
    pub form: Form,
    pub effect: Effect,
}

impl<const N: usize> Held<N> {
    // The row at a place.
    pub fn entry(&self, place: u32) -> Option<Entry<'_>>
        ensures { MatchOption result (length (held_rows self.now) ≤ place) (λ entry. IsEntry (held_rows self.now) place entry) }
    {
        match self {
            Held::Own { rows, .. } => match rows.get(place as usize) {
                Some(row) => Some(Entry {
                    spelling: row.spelling.as_slice(),
                    form: row.form,
                    effect: row.effect,
                }),
                None => None,
            },
            Held::Constant { rows, .. } => match rows.get(place as usize) {
                Some(row) => Some(Entry {
                    spelling: row.spelling.as_bytes(),
                    form: row.form,
                    effect: row.effect,
                }),
                None => None,
            },
        }
    }
}
