//! The program that a source means.

ghost use Rattle.std.specs.Prelude.{ℕ, ◌≡◌, ◌+◌, ◌<◌, ◌^◌, length, List, true, IfOk, IfErr};
ghost use Rattle.std.specs.List.{take_while};
ghost use Rattle.farm_types.specs.Bytes.{is_blank_or_line_feed};
ghost use Rattle.sample_lang.specs.Tokens as tokens;
ghost use Rattle.sample_lang.specs.Tokens.{behind};
ghost use Rattle.sample_lang.specs.Sources.{SourceOf, SourceFault, FaultStands};
ghost use Rattle.sample_lang.specs.Answers.{ComesOn, IsReadError, IsParsed, GivesProgram, GivesFault};
ghost use Rattle.sample_lang.specs.Steps as steps;
ghost use Rattle.sample_lang.specs.declared.program.Item.{Item};

use crate::fault::{Fault, Refusal};
use crate::message::message;
use crate::program::SampleFile;
use crate::spans::blank_len;
use crate::stage::Stage;
use crate::step::step;
use crate::token::Token;
use crate::words::first_token;
use farm_types::Bytes;
use std::alloc::{AllocError, Global};

/// What a source is.
#[derive(Debug, Drop)]
pub enum Parsed {
    /// It is a program.
    Program(SampleFile),
    /// It has this fault on this line, counted from 1.
    Fault { line: u64, message: Bytes },
    /// Memory ran out.
    Memory,
}

/// Why a source wasn't read.
#[derive(Debug, Drop)]
pub enum ReadError {
    Fault { line: u64, fault: Fault },
    Memory,
}

impl From<AllocError> for ReadError {
    ghost use Rattle.sample_lang.specs.declared.source.ReadError.TheVariants.{Memory};

    ghost from_gives = { λ _ e. e ≡ Memory };

    fn from(_error: AllocError) -> ReadError {
        ReadError::Memory
    }
}

/// What is left of a text, and the line that it begins on.
#[derive(Clone, Copy, Debug)]
pub struct Left<'a> {
    pub line: u64,
    pub text: &'a [u8],
}

// How many line feeds some bytes have.
fn line_feeds(bytes: &[u8]) -> u64
    ensures { result ≡ tokens.lines bytes.now }
{
    let mut count = 0;
    for byte in bytes {
        if *byte == b'\n' {
            count += 1;
        }
    }
    count
}

// Passes over the leading blanks.
fn skip_blanks(left: Left<'_>) -> Left<'_>
    requires { left.line + length left.text.now < 2 ^ 64 }
    ensures line { result.line ≡ left.entry.line + tokens.lines (take_while is_blank_or_line_feed left.entry.text.now) }
    ensures text { result.text.now ≡ behind is_blank_or_line_feed left.entry.text.now }
{
    let len = blank_len(left.text);
    Left {
        line: left.line + line_feeds(&left.text[..len]),
        text: &left.text[len..],
    }
}

// Takes a token on a line.
fn take_token(
    alloc: Global,
    items: &mut SampleFile,
    stage: Stage,
    token: Token,
    line: u64,
) -> Result<Stage, ReadError>
    ensures { ComesOn line (steps.step true items.old stage token) items.new result }
{
    match step(alloc, items, stage, token) {
        Ok(next) => Ok(next),
        Err(Refusal::Fault(fault)) => Err(ReadError::Fault { line, fault }),
        Err(Refusal::Memory) => Err(ReadError::Memory),
    }
}

// Reads the tokens of a text, one after another.
fn read_source(alloc: Global, text: &[u8]) -> Result<SampleFile, ReadError>
    ensures source { IfOk result (λ items. SourceOf text.now items) }
    ensures fault { IfErr result (λ e. IsReadError (SourceFault text.now) e) }
{
    let mut items = SampleFile::new(alloc);
    let mut stage = Stage::Between;
    let mut left = skip_blanks(Left { line: 1, text });
    'reading: while !left.text.is_empty() {
        let found = first_token(alloc, left.text)?;
        stage = take_token(alloc, &mut items, stage, found.token, left.line)?;
        left = skip_blanks(Left {
            line: left.line,
            text: &left.text[found.len..],
        });
    }
    match stage {
        Stage::Between => Ok(items),
        _ => Err(ReadError::Fault {
            line: left.line,
            fault: Fault::Syntax,
        }),
    }
}

/// Reads a source of the sample language, by the rules of docs/sample-language.md. A fault is that of
/// the first token that has one; its line counts from 1. Instead of any result, memory may run out.
pub fn parse(alloc: Global, text: &Bytes) -> Parsed
    ensures right { IsParsed (SourceOf text.now) (FaultStands text.now) result }

    // Nothing else is returned, unless memory ran out.
    ensures only_program { (items : List Item) → SourceOf text.now items → GivesProgram items result }
    ensures only_fault { (line : ℕ) (message : List ℕ)
        → FaultStands text.now line message → GivesFault line message result }
{
    match read_source(alloc, text.as_slice()) {
        Ok(items) => Parsed::Program(items),
        Err(ReadError::Fault { line, fault }) => match message(alloc, &fault) {
            Ok(message) => Parsed::Fault { line, message },
            Err(_) => Parsed::Memory,
        },
        Err(ReadError::Memory) => Parsed::Memory,
    }
}
