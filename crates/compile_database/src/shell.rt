//! The words of a command as a shell splits it.

ghost use Rattle.std.specs.Prelude.{◌≡◌, ℕ, List, [], ◌∷◌, ◌++◌, IfOk, OnOk, None, Some};
ghost use Rattle.farm_types.specs.Bytes as bytes;
ghost use Rattle.compile_database.specs.Shell.{ended, grown, opened, shell_words};
ghost use Rattle.compile_database.specs.Shell as shell;
ghost use Rattle.compile_database.specs.Rests.{rest_words};

use farm_types::{Bytes, Words};
use std::alloc::{AllocError, Global};

/// The place of a byte in a command, by the quotes around it.
#[derive(Clone, Copy, Debug, PartialEq, Eq, Drop)]
pub(crate) enum Mode {
    Outside,
    /// Outside quotes, after a backslash.
    Escaped,
    Single,
    Double,
    /// Between double quotes, after a backslash.
    DoubleEscaped,
}

// The words that have ended, the one that is open, and the place of the next byte.
#[derive(Debug, Drop)]
pub(crate) struct Splitter {
    pub words: Words,
    pub word: Option<Bytes>,
    pub mode: Mode,
}

fn is_blank_or_line_feed(byte: u8) -> bool
    ensures { result ≡ bytes.is_blank_or_line_feed byte }
{
    byte == b' ' || byte == b'\t' || byte == b'\n'
}

fn is_escapable(byte: u8) -> bool
    ensures { result ≡ shell.is_escapable byte }
{
    byte == b'$' || byte == b'`' || byte == b'"' || byte == b'\\'
}

impl Splitter {
    fn new(alloc: Global) -> Splitter
        ensures { result ≡ record { words = []; word = None; mode = Mode.Outside } }
    {
        Splitter {
            words: Words::new(alloc),
            word: None,
            mode: Mode::Outside,
        }
    }

    // Opens a word if none is open.
    fn open_word(&mut self, alloc: Global)
        ensures { self.new ≡ record self.old { word = Some (opened self.old.word) } }
    {
        if self.word.is_none() {
            self.word = Some(Bytes::new(alloc));
        }
    }

    // A byte of a word, which opens one if none is open.
    fn add(&mut self, alloc: Global, byte: u8) -> Result<(), AllocError>
        ensures { OnOk result (self.new ≡ record self.old { word = grown self.old.word byte }) }
    {
        let mut word = match self.word.take() {
            Some(word) => word,
            None => Bytes::new(alloc),
        };
        word.try_push(byte)?;
        self.word = Some(word);
        Ok(())
    }

    fn end_word(&mut self) -> Result<(), AllocError>
        ensures { OnOk result (self.new ≡ record self.old { words = ended self.old.words self.old.word; word = None }) }
    {
        match self.word.take() {
            Some(word) => self.words.try_push(word),
            None => Ok(()),
        }
    }

    fn take_outside(&mut self, alloc: Global, byte: u8) -> Result<(), AllocError>
        requires { self.old.mode ≡ Mode.Outside }
        ensures { OnOk result ((rest : List ℕ) → rest_words self.old (byte ∷ rest) ≡ rest_words self.new rest) }
    {
        if is_blank_or_line_feed(byte) {
            return self.end_word();
        }
        match byte {
            b'\'' => {
                self.open_word(alloc);
                self.mode = Mode::Single;
            }
            b'"' => {
                self.open_word(alloc);
                self.mode = Mode::Double;
            }
            b'\\' => self.mode = Mode::Escaped,
            _ => self.add(alloc, byte)?,
        }
        Ok(())
    }

    fn take_escaped(&mut self, alloc: Global, byte: u8) -> Result<(), AllocError>
        requires { self.old.mode ≡ Mode.Escaped }
        ensures { OnOk result ((rest : List ℕ) → rest_words self.old (byte ∷ rest) ≡ rest_words self.new rest) }
    {
        if byte != b'\n' {
            self.add(alloc, byte)?;
        }
        self.mode = Mode::Outside;
        Ok(())
    }

    fn take_single(&mut self, alloc: Global, byte: u8) -> Result<(), AllocError>
        requires { self.old.mode ≡ Mode.Single }
        ensures { OnOk result ((rest : List ℕ) → rest_words self.old (byte ∷ rest) ≡ rest_words self.new rest) }
    {
        if byte == b'\'' {
            self.mode = Mode::Outside;
            return Ok(());
        }
        self.add(alloc, byte)
    }

    fn take_double(&mut self, alloc: Global, byte: u8) -> Result<(), AllocError>
        requires { self.old.mode ≡ Mode.Double }
        ensures { OnOk result ((rest : List ℕ) → rest_words self.old (byte ∷ rest) ≡ rest_words self.new rest) }
    {
        match byte {
            b'"' => self.mode = Mode::Outside,
            b'\\' => self.mode = Mode::DoubleEscaped,
            _ => self.add(alloc, byte)?,
        }
        Ok(())
    }

    fn take_double_escaped(&mut self, alloc: Global, byte: u8) -> Result<(), AllocError>
        requires { self.old.mode ≡ Mode.DoubleEscaped }
        ensures { OnOk result ((rest : List ℕ) → rest_words self.old (byte ∷ rest) ≡ rest_words self.new rest) }
    {
        self.mode = Mode::Double;
        if byte == b'\n' {
            return Ok(());
        }
        if !is_escapable(byte) {
            self.add(alloc, b'\\')?;
        }
        self.add(alloc, byte)
    }

    // Takes one byte more.
    fn take(&mut self, alloc: Global, byte: u8) -> Result<(), AllocError>
        ensures { OnOk result ((rest : List ℕ) → rest_words self.old (byte ∷ rest) ≡ rest_words self.new rest) }
    {
        match self.mode {
            Mode::Outside => self.take_outside(alloc, byte),
            Mode::Escaped => self.take_escaped(alloc, byte),
            Mode::Single => self.take_single(alloc, byte),
            Mode::Double => self.take_double(alloc, byte),
            Mode::DoubleEscaped => self.take_double_escaped(alloc, byte),
        }
    }

    // The words, if no quote is open and no backslash was last.
    fn finish(mut self) -> Result<Option<Words>, AllocError>
        ensures { IfOk result (λ words. words ≡ rest_words self []) }
    {
        if self.mode != Mode::Outside {
            return Ok(None);
        }
        self.end_word()?;
        Ok(Some(self.words))
    }
}

/// The words of a command, split as a shell does: by blanks, with single quotes, double quotes and backslashes. None if a
/// quote isn't closed, or a backslash is last.
pub(crate) fn split_command(alloc: Global, text: &[u8]) -> Result<Option<Words>, AllocError>
    ensures { IfOk result (λ words. words ≡ shell_words text.now) }
{
    let mut splitter = Splitter::new(alloc);
    'each: for byte in text {
        splitter.take(alloc, *byte)?;
    }
    splitter.finish()
}
