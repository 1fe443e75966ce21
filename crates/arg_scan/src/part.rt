//! What each word of a command is used as.

ghost use Rattle.std.specs.Prelude.{◌≡◌};
ghost use Rattle.option_table.specs.Gcc.{gcc_rows};
ghost use Rattle.option_table.specs.Rows.{found};
ghost use Rattle.arg_scan.specs.Roles.{role_of, option_role, operand_of, owed, part_of};

use crate::names::{Ending, ending_of, last_name};
use farm_types::Bytes;
use option_table::{Effect, Form, GCC_ROWS, OptionTable};

/// The place of the operand of an option.
#[derive(Clone, Copy, Debug, PartialEq, Eq)]
pub enum Operand {
    /// The option takes none.
    Absent,
    /// In the option's own word, from this byte on.
    Attached(usize),
    /// It is the next word.
    Next,
}

/// What a word is in a place where an option may be.
#[derive(Clone, Copy, Debug, PartialEq, Eq)]
pub enum Role {
    /// Exactly `-`, the standard input.
    Dash,
    /// Any other word that begins with `-`. An option that is not in the table is kept.
    Flag { effect: Effect, operand: Operand },
    /// A word that begins with `@`: a file with more words.
    Response,
    /// The name of a source.
    Source(Ending),
    /// Any other word, the empty one too.
    Other,
}

/// What a word of a command is used as.
#[derive(Clone, Copy, Debug, PartialEq, Eq)]
pub enum Part {
    /// The first word, which names the compiler.
    Compiler,
    /// The operand of the option before it, whose effect this is.
    Operand(Effect),
    /// A word in a place where an option may be.
    Word(Role),
}

impl Part {
    /// The effect of the option whose operand the next word is.
    pub fn owed(self) -> Option<Effect>
        ensures { result ≡ owed self }
    {
        match self {
            Part::Word(
                Role::Flag {
                    effect,
                    operand: Operand::Next,
                },
            ) => Some(effect),
            _ => None,
        }
    }
}

/// What a word is used as, by its place and the option whose operand it is.
pub fn part_of(
    table: &OptionTable<GCC_ROWS>,
    owner: Option<Effect>,
    at: usize,
    word: &Bytes,
) -> Part
    requires { table.now ≡ gcc_rows }
    ensures { result ≡ part_of owner at word.now }
{
    if at == 0 {
        return Part::Compiler;
    }
    match owner {
        Some(effect) => Part::Operand(effect),
        None => Part::Word(role_of(table, word)),
    }
}

// What a word is in a place where an option may be.
#[tactic(auto, unfolding(crate::specs::Roles::role_of))]
fn role_of(table: &OptionTable<GCC_ROWS>, word: &Bytes) -> Role
    requires { table.now ≡ gcc_rows }
    ensures { result ≡ role_of word.now }
{
    let text = word.as_slice();
    if text == b"-".as_slice() {
        Role::Dash
    } else if text.starts_with(b"-") {
        option_role(table, word)
    } else if text.starts_with(b"@") {
        Role::Response
    } else {
        match ending_of(last_name(text)) {
            Some(ending) => Role::Source(ending),
            None => Role::Other,
        }
    }
}

fn option_role(table: &OptionTable<GCC_ROWS>, word: &Bytes) -> Role
    requires { table.now ≡ gcc_rows }
    ensures { result ≡ option_role (found gcc_rows word.now) word.now }
{
    match table.find(word) {
        None => Role::Flag {
            effect: Effect::Keep,
            operand: Operand::Absent,
        },
        Some(found) => {
            let row = table.row(found.row);
            Role::Flag {
                effect: row.effect,
                operand: operand_of(row.form, found.joined, word),
            }
        }
    }
}

fn operand_of(form: Form, joined: usize, word: &Bytes) -> Operand
    ensures { result ≡ operand_of form joined word.now }
{
    match form {
        Form::None => Operand::Absent,
        Form::Next => Operand::Next,
        Form::Joined => Operand::Attached(joined),
        Form::Either if joined == word.len() => Operand::Next,
        Form::Either => Operand::Attached(joined),
    }
}
