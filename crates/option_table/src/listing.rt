//! The assembler's words that ask for a listing or for dependencies.

ghost use Rattle.std.specs.Prelude.{◌≡◌};
ghost use Rattle.option_table.specs.Listing.{holds, is_listing};

use farm_types::Bytes;
use memchr::memmem;

/// Whether a word that hands options to the assembler asks for a listing, or for dependencies: it
/// holds `,-a` or `--MD`.
pub fn is_listing(word: &Bytes) -> bool
    ensures { result ≡ is_listing word.now }
{
    let word = word.as_slice();
    holds(word, b",-a") || holds(word, b"--MD")
}

fn holds(word: &[u8], piece: &[u8]) -> bool
    ensures { result ≡ holds piece.now word.now }
{
    memmem::find(word, piece).is_some()
}
