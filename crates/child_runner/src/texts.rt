ghost use Rattle.std.specs.Prelude.{◌≡◌, IfOk};
ghost use Rattle.child_runner.specs.Runs;

use farm_types::{Bytes, PlacedWords, Word};
use std::alloc::{AllocError, Global};

/// Each word unchanged.
pub(crate) fn texts(alloc: Global, words: &[Bytes]) -> Result<PlacedWords, AllocError>
    ensures { IfOk result (λ made. made ≡ Runs.texts words.now) }
{
    let mut made = PlacedWords::new(alloc);
    for word in words {
        made.try_push(Word::Text(word.copy()?))?;
    }
    Ok(made)
}
