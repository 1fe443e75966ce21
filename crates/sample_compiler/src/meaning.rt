//! What each word of the compiler is used as.

ghost use Rattle.std.specs.Prelude.{◌≡◌, ◌<◌, ◌≤◌, ◌∷◌, length, IfOk};
ghost use Rattle.option_table.specs.Scc.{scc_rows};
ghost use Rattle.sample_compiler.specs.Meanings as meanings;

use crate::defines::Define;
use arg_scan::Action;
use farm_types::Bytes;
use option_table::OptionTable;
use std::alloc::{AllocError, Global};

/// What is asked for.
#[derive(Clone, Copy, Debug, PartialEq, Eq)]
pub enum Command {
    /// `-E`: the preprocessed text.
    Expand,
    /// `-c` or `-S`: an object.
    Build(Action),
}

/// An option that has an operand.
#[derive(Clone, Copy, Debug, PartialEq, Eq)]
pub enum Sign {
    /// `-I`
    Folder,
    /// `-D`
    Define,
    /// `-o`
    Output,
}

/// What a word, with the operand after it if it has one, is used as.
#[derive(Debug, Drop)]
pub enum Meaning {
    Command(Command),
    /// A folder in which included files are looked up.
    Folder(Bytes),
    Define(Define),
    /// The name of the object.
    Output(Bytes),
    Input(Bytes),
    /// An option that isn't known.
    Ignored,
    /// An option whose operand is missing.
    Lacking,
}

/// What a word is by itself.
#[derive(Debug, Drop)]
pub enum Reading {
    Whole(Meaning),
    /// An option whose operand is the next word.
    Awaits(Sign),
}

// How many bytes are before the first `=`.
fn name_len(text: &[u8]) -> usize
    ensures reach { result ≡ meanings.name_len text.now }
    ensures within { result ≤ length text.now }
{
    for (at, byte) in text.iter().enumerate() {
        if *byte == b'=' {
            return at;
        }
    }
    text.len()
}

// The name that an operand of `-D` defines.
fn definition_of(alloc: Global, text: &[u8]) -> Result<Define, AllocError>
    ensures { IfOk result (λ define. define ≡ meanings.flag_definition text.now) }
{
    let len = name_len(text);
    let name = Bytes::from_slice(alloc, &text[..len])?;
    let value = match &text[len..] {
        [] => b"1".as_slice(),
        [_, value @ ..] => value,
    };
    let value = Bytes::from_slice(alloc, value)?;
    Ok(Define { name, value })
}

// An option with its operand.
fn with_operand(alloc: Global, sign: Sign, operand: &[u8]) -> Result<Meaning, AllocError>
    ensures { IfOk result (λ meaning. meaning ≡ meanings.with_operand sign operand.now) }
{
    match sign {
        Sign::Folder => {
            let folder = Bytes::from_slice(alloc, operand)?;
            Ok(Meaning::Folder(folder))
        }
        Sign::Define => {
            let define = definition_of(alloc, operand)?;
            Ok(Meaning::Define(define))
        }
        Sign::Output => {
            let output = Bytes::from_slice(alloc, operand)?;
            Ok(Meaning::Output(output))
        }
    }
}

// An option that has an operand: after the spelling, or else the next word.
fn option_of(alloc: Global, sign: Sign, from: usize, word: &Bytes) -> Result<Reading, AllocError>
    ensures { IfOk result (λ reading. reading ≡ meanings.option_of sign from word.now) }
{
    let text = word.as_slice();
    if from < text.len() {
        let meaning = with_operand(alloc, sign, &text[from..])?;
        return Ok(Reading::Whole(meaning));
    }
    Ok(Reading::Awaits(sign))
}

fn command_of(command: Command) -> Reading
    ensures { result ≡ Reading.Whole (Meaning.Command command) }
{
    Reading::Whole(Meaning::Command(command))
}

// An option of the table, by its row.
fn row_reading(alloc: Global, row: u32, from: usize, word: &Bytes) -> Result<Reading, AllocError>
    ensures { IfOk result (λ reading. reading ≡ meanings.row_reading row from word.now) }
{
    match row {
        0 => option_of(alloc, Sign::Folder, from, word),
        1 => option_of(alloc, Sign::Define, from, word),
        2 => option_of(alloc, Sign::Output, from, word),
        3 => Ok(command_of(Command::Expand)),
        4 => Ok(command_of(Command::Build(Action::Compile))),
        _ => Ok(command_of(Command::Build(Action::Assemble))),
    }
}

// A word that is no option of the table.
fn other_reading(word: &Bytes) -> Result<Reading, AllocError>
    ensures { IfOk result (λ reading. reading ≡ meanings.other_reading word.now) }
{
    if word.as_slice().starts_with(b"-") {
        return Ok(Reading::Whole(Meaning::Ignored));
    }
    let name = word.copy()?;
    Ok(Reading::Whole(Meaning::Input(name)))
}

// What a word is by itself.
#[tactic(auto, unfolding(crate::specs::Meanings::reading_of))]
fn reading_of(alloc: Global, table: &OptionTable<6>, word: &Bytes) -> Result<Reading, AllocError>
    requires { table.now ≡ scc_rows }
    ensures { IfOk result (λ reading. reading ≡ meanings.reading_of word.now) }
{
    match table.find(word) {
        Some(found) => row_reading(alloc, found.row, found.joined, word),
        None => other_reading(word),
    }
}

/// What the first of some words is used as, and the words that are left.
#[derive(Debug, Drop)]
pub struct FirstMeaning<'a> {
    pub meaning: Meaning,
    pub left: &'a [Bytes],
}

/// Takes the first word, with its operand if it has one.
pub fn first_meaning<'a>(
    alloc: Global,
    table: &OptionTable<6>,
    word: &Bytes,
    behind: &'a [Bytes],
) -> Result<FirstMeaning<'a>, AllocError>
    requires { table.now ≡ scc_rows }
    ensures meaning { IfOk result (λ first. meanings.meanings (word.now ∷ behind.now) ≡ first.meaning ∷ meanings.meanings first.left.now) }
    ensures shorter { IfOk result (λ first. length first.left.now ≤ length behind.now) }
{
    match reading_of(alloc, table, word)? {
        Reading::Whole(meaning) => Ok(FirstMeaning {
            meaning,
            left: behind,
        }),
        Reading::Awaits(sign) => match behind {
            [operand, left @ ..] => {
                let meaning = with_operand(alloc, sign, operand.as_slice())?;
                Ok(FirstMeaning { meaning, left })
            }
            [] => Ok(FirstMeaning {
                meaning: Meaning::Lacking,
                left: behind,
            }),
        },
    }
}
