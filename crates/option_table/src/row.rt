//! A row of a table of options.

ghost use Rattle.std.specs.Prelude.{◌≡◌, ◌≤◌, length};

use crate::spelling::{SPELLING_MAX, Spelling};

/// How an option takes its operand.
#[derive(Clone, Copy, Debug, PartialEq, Eq)]
pub enum Form {
    /// It takes none: a word fits that equals the spelling.
    None,
    /// A word fits that equals the spelling, and the next word is the operand.
    Next,
    /// A word fits that begins with the spelling, and its rest, which may be empty, is the operand.
    Joined,
    /// A word fits that equals the spelling, and the next word is the operand; or that begins with
    /// the spelling and has more bytes, which are the operand.
    Either,
}

/// What an option means for a command that may be sent to another machine.
#[derive(Clone, Copy, Debug, PartialEq, Eq)]
pub enum Effect {
    /// Sent, and used in preprocessing.
    Keep,
    /// Used in preprocessing and not sent, its operand included.
    Strip,
    /// `-c` or `-S`.
    Action,
    /// The operand names the output.
    Output,
    /// The command stays on this machine, for the reason with this number of `reasons`.
    Local(u8),
    /// The command stays on this machine if the word asks for a listing or for dependencies;
    /// otherwise the word is kept.
    Listing,
}

/// A row of a table: an option's spelling, how it takes its operand, and what it means.
#[derive(Debug, Drop)]
pub struct OptionRow {
    pub spelling: Spelling,
    pub form: Form,
    pub effect: Effect,
}

impl OptionRow {
    ghost use Rattle.option_table.specs.Rows.{row};

    /// The row of these parts.
    pub fn new(spelling: &str, form: Form, effect: Effect) -> OptionRow
        requires { length spelling.now ≤ SPELLING_MAX }
        ensures { result ≡ row spelling.now form effect }
    {
        OptionRow {
            spelling: Spelling::new(spelling.as_bytes()),
            form,
            effect,
        }
    }

    /// An equal row.
    pub fn copy(&self) -> OptionRow
        ensures { result ≡ self.now }
    {
        OptionRow {
            spelling: self.spelling.copy(),
            form: self.form,
            effect: self.effect,
        }
    }
}

// A row of a constant table.
#[derive(Clone, Copy, Debug)]
pub(crate) struct ConstantRow {
    pub spelling: &'static str,
    pub form: Form,
    pub effect: Effect,
}

impl ConstantRow {
    ghost use Rattle.option_table.specs.Held.{constant_row};

    // The row.
    pub fn row(&self) -> OptionRow
        requires { length self.now.spelling.now ≤ SPELLING_MAX }
        ensures { result ≡ constant_row self.now }
    {
        OptionRow::new(self.spelling, self.form, self.effect)
    }
}

// The rows of a constant table, one a line: its spelling, its form, and its effect.
macro_rules! rows {
    ($($spelling:literal $form:ident $effect:ident $(($why:path))?;)*) => {
        [$(ConstantRow {
            spelling: $spelling,
            form: Form::$form,
            effect: Effect::$effect $(($why))?,
        }),*]
    };
}

pub(crate) use rows;
