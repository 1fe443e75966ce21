//! A request for one compile.

ghost use Rattle.std.specs.Prelude.{IsTrue, ◌↔◌};
ghost use Rattle.farm_types.specs.Fits.{RequestFits, WordsFit};

use crate::bytes::Bytes;
use crate::items::Items;
use crate::limits::{SOURCE_MAX, WORD_MAX, WORDS_BYTES_MAX, WORDS_MAX};

/// The words of a command.
pub type Words = Items<Bytes>;

/// The words of a command, and the source that it is to compile.
#[derive(Debug, Drop)]
pub struct Request {
    pub words: Words,
    pub source: Bytes,
}

impl Request {
    /// Whether the request is within the limits: 1 to `WORDS_MAX` words of at most `WORD_MAX` bytes
    /// each and `WORDS_BYTES_MAX` together, and a source of at most `SOURCE_MAX`. It takes no memory.
    pub fn fits(&self) -> bool
        ensures { IsTrue result ↔ RequestFits self.now.words self.now.source }
    {
        let count = self.words.len();
        1 <= count
            && count <= WORDS_MAX
            && self.source.len() <= SOURCE_MAX
            && words_fit(self.words.as_slice())
    }
}

// Whether each word and all words together are within their limits.
fn words_fit(words: &[Bytes]) -> bool
    ensures { IsTrue result ↔ WordsFit words.now }
{
    let mut room = WORDS_BYTES_MAX;
    for word in words {
        let len = word.len();
        if WORD_MAX < len || room < len {
            return false;
        }
        room -= len;
    }
    true
}
