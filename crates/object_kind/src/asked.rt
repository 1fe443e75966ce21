//! What a command asks for.

ghost use Rattle.std.specs.Prelude.{◌≡◌};
ghost use Rattle.object_kind.specs.Asked.{is_text_word, is_bitcode_word, asks_text, asks_bitcode, is_object, runs_driver, is_asked_kind, is_filled};

use crate::driver::is_driver;
use crate::formats::{is_bitcode, is_coff, is_elf, is_mach, is_text, is_wasm};
use farm_types::Word;

/// Whether the word asks for text.
fn is_text_word(word: &Word) -> bool
    ensures { result ≡ is_text_word word.now }
{
    match word {
        Word::Text(bytes) => bytes.as_slice() == b"-S".as_slice(),
        Word::Input(_) | Word::Output => false,
    }
}

/// Whether the word asks for LLVM's bitcode.
fn is_bitcode_word(word: &Word) -> bool
    ensures { result ≡ is_bitcode_word word.now }
{
    match word {
        Word::Text(bytes) => bytes.as_slice() == b"-emit-llvm".as_slice()
            || bytes.as_slice().starts_with(b"-flto"),
        Word::Input(_) | Word::Output => false,
    }
}

fn asks_text(words: &[Word]) -> bool
    ensures { result ≡ asks_text words.now }
{
    words.iter().any(|word| is_text_word(word))
}

fn asks_bitcode(words: &[Word]) -> bool
    ensures { result ≡ asks_bitcode words.now }
{
    words.iter().any(|word| is_bitcode_word(word))
}

/// Whether the bytes are an object of a format that the words ask for.
fn is_object(words: &[Word], object: &[u8]) -> bool
    ensures { result ≡ is_object words.now object.now }
{
    is_elf(object)
        || is_mach(object)
        || is_coff(object)
        || is_wasm(object)
        || (is_bitcode(object) && asks_bitcode(words))
}

/// Whether the first word names a driver of gcc or clang.
fn runs_driver(words: &[Word]) -> bool
    ensures { result ≡ runs_driver words.now }
{
    match words {
        [Word::Text(program), ..] => is_driver(program.as_slice()),
        _ => false,
    }
}

/// Whether the bytes are what the words ask for. The first word names the program. A driver of gcc or clang gives text with `-S`: at least one byte,
/// and no zero. Else it gives an object: relocatable ELF, Mach-O, COFF or WebAssembly, or LLVM's bitcode with `-flto` or `-emit-llvm`.
/// A driver is `gcc`, `cc`, `g++`, `c++`, `clang` or `clang++`, also with a target before and a version after it. Of others nothing is asked.
pub fn is_asked_kind(words: &[Word], object: &[u8]) -> bool
    ensures { result ≡ is_asked_kind words.now object.now }
{
    if !runs_driver(words) {
        true
    } else if asks_text(words) {
        is_text(object)
    } else {
        is_object(words, object)
    }
}

/// Whether the bytes are more than nothing, if the first word names a driver of gcc or clang: what it leaves is never empty. Of any other program
/// nothing is asked.
pub fn is_filled(words: &[Word], object: &[u8]) -> bool
    ensures { result ≡ is_filled words.now object.now }
{
    !runs_driver(words) || !object.is_empty()
}
