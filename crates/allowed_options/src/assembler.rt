//! The spellings of words for the assembler.

ghost use Rattle.std.specs.Prelude.{◌≡◌};
ghost use Rattle.allowed_options.specs.Served.{is_piece_word, has_piece_front};

use crate::lists::{begins, is_one};

/// The words for the assembler that are let through as they are, after `-Wa,` or a later comma.
const PIECE_WORDS: [&str; 10] = ["-L", "-W", "-K", "-J", "-R", "-Z", "-n", "-q", "-EL", "-EB"];

/// What another word for the assembler begins with.
const PIECE_FRONTS: [&str; 25] = [
    "-m",
    "-g",
    "--32",
    "--64",
    "--x32",
    "--divide",
    "--execstack",
    "--noexecstack",
    "--warn",
    "--no-warn",
    "--fatal-warnings",
    "--gdwarf",
    "--gen-debug",
    "--gstabs",
    "--compress-debug-sections",
    "--nocompress-debug-sections",
    "--keep-locals",
    "--strip-local-absolute",
    "--size-check=",
    "--elf-stt-common=",
    "--generate-missing-build-notes=",
    "--hash-size=",
    "--reduce-memory-overheads",
    "--no-pad-sections",
    "--defsym=",
];

/// Whether the word is one of `PIECE_WORDS`.
pub fn is_piece_word(word: &[u8]) -> bool
    ensures { result ≡ is_piece_word word.now }
{
    let spellings: [&str; 10] = PIECE_WORDS;
    is_one(spellings.as_slice(), word)
}

/// Whether the word begins with one of `PIECE_FRONTS`.
pub fn has_piece_front(word: &[u8]) -> bool
    ensures { result ≡ has_piece_front word.now }
{
    let spellings: [&str; 25] = PIECE_FRONTS;
    begins(spellings.as_slice(), word)
}
