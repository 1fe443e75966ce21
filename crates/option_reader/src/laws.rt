//! The law of one reading.

ghost use Rattle.std.specs.Prelude.{◌≡◌, ℕ, List, Result};
ghost use Rattle.option_reader.specs.Items.{Item};
ghost use Rattle.option_reader.specs.Readings.{CanTell, OptionsRead};

use crate::table::OptionTable;

/// What words say as options of a command is determined: the options, or the place of the first word that doesn't fit, and not
/// both. It does nothing.
pub fn one_reading<T: OptionTable>(table: &T)
    ensures once { (words : List (List ℕ)) (one other : Result (List Item) ℕ)
        → OptionsRead (T.table table.now) words one → OptionsRead (T.table table.now) words other → one ≡ other }

    // If each word either fits as a value or doesn't, all words have a reading.
    ensures some { CanTell (T.table table.now) → (words : List (List ℕ))
        → (read : Result (List Item) ℕ) × OptionsRead (T.table table.now) words read }
{}
