//! The folder that gcc writes into an object for link-time optimisation.

ghost use Rattle.std.specs.Prelude.{◌≡◌};
ghost use Rattle.whole_command.specs.Gcc.{asks_link_time, is_gcc, is_link_time, needs_marks, says_marks, settles_marks};

use crate::clang::asks_debug;
use farm_types::Bytes;

/// Whether a command wants `-fworking-directory`, by which the preprocessed text names the folder: its driver is gcc, and it has `-flto` and says nothing of it.
///
/// Without that word gcc writes the folder that it runs in, which is a new one for each run on a host. With `-g` it is on by itself, and gcc would record the
/// word in the object.
pub fn needs_marks(driver: &[u8], words: &[Bytes]) -> bool
    ensures { result ≡ needs_marks driver.now words.now }
{
    is_gcc(driver) && asks_link_time(words) && !asks_debug(words) && !settles_marks(words)
}

fn asks_link_time(words: &[Bytes]) -> bool
    ensures { result ≡ asks_link_time words.now }
{
    words.iter().any(|word| is_link_time(word.as_slice()))
}

fn settles_marks(words: &[Bytes]) -> bool
    ensures { result ≡ settles_marks words.now }
{
    words.iter().any(|word| says_marks(word.as_slice()))
}

// Whether a driver's name has that of gcc or g++ in it.
pub(crate) fn is_gcc(name: &[u8]) -> bool
    ensures { result ≡ is_gcc name.now }
{
    match name {
        [] => false,
        [_, rest @ ..] => name.starts_with(b"gcc") || name.starts_with(b"g++") || is_gcc(rest),
    }
}

fn is_link_time(word: &[u8]) -> bool
    ensures { result ≡ is_link_time word.now }
{
    word.starts_with(b"-flto")
}

fn says_marks(word: &[u8]) -> bool
    ensures { result ≡ says_marks word.now }
{
    word.starts_with(b"-fworking-directory") || word.starts_with(b"-fno-working-directory")
}
