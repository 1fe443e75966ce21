//! The words of a command that a station runs.

ghost use Rattle.std.specs.Prelude.{◌≡◌, IfOk};

use crate::bytes::Bytes;
use crate::copying::TryCopy;
use crate::items::Items;
use std::alloc::AllocError;

/// The ending of the name of a preprocessed source.
#[derive(Clone, Copy, Debug, PartialEq, Eq)]
pub enum Ext {
    /// `.i`, preprocessed C.
    I,
    /// `.ii`, preprocessed C++.
    Ii,
}

/// A word of a command that a station runs.
#[derive(Debug, Drop)]
pub enum Word {
    /// The word as it is.
    Text(Bytes),
    /// A file name of the station's own with this ending, which holds the input.
    Input(Ext),
    /// A file name of the station's own, whose content afterwards is the object.
    Output,
}

/// The words of a command that a station runs.
pub type PlacedWords = Items<Word>;

impl Word {
    /// An equal word.
    pub fn copy(&self) -> Result<Word, AllocError>
        ensures { IfOk result (λ made. made ≡ self.now) }
    {
        match self {
            Word::Text(text) => {
                let text = text.copy()?;
                Ok(Word::Text(text))
            }
            Word::Input(ext) => Ok(Word::Input(*ext)),
            Word::Output => Ok(Word::Output),
        }
    }
}

impl TryCopy for Word {
    fn try_copy(&self) -> Result<Word, AllocError> {
        self.copy()
    }
}
