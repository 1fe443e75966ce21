//! What only the source's own text gives a compiler, and its preprocessed text doesn't.

ghost use Rattle.std.specs.Prelude.{◌≡◌, ◌≤◌, length, not};
ghost use Rattle.std.specs.List.{position_or_len};
ghost use Rattle.whole_command.specs.SourceText.{after_gap, asks_verbose, begins_pragma, changes_options, has_marks, has_option_pragma, is_gap, is_map, is_place, is_verbose, maps_names, names_place, needs_source, quotes_source};

use crate::clang::is_clang;
use arg_scan::Action;
use farm_types::{Bytes, Ext};
use memchr::memmem;

/// Whether a command wants this source's own text, by what the driver is and what its preprocessed text is called.
///
/// Before 13 gcc's preprocessor of C doesn't heed `#pragma GCC target` and `optimize`, so a macro as `__AVX2__` would be another. clang maps names of
/// files only in preprocessing, but gives them by `__builtin_FILE` in the compile.
pub fn needs_source(driver: &[u8], ext: Ext, words: &[Bytes], text: &[u8]) -> bool
    ensures { result ≡ needs_source driver.now ext words.now text.now }
{
    if is_clang(driver) {
        return maps_names(words) && names_place(text);
    }
    match ext {
        Ext::I => has_option_pragma(text),
        Ext::Ii => false,
    }
}

/// Whether a preprocessed source begins with the line mark of its own first line, by which a compiler knows its name.
pub fn has_marks(text: &[u8]) -> bool
    ensures { result ≡ has_marks text.now }
{
    text.starts_with(b"# 0 \"") || text.starts_with(b"# 1 \"")
}

/// Whether a command writes assembly that quotes its source.
pub fn quotes_source(action: Action, words: &[Bytes]) -> bool
    ensures { result ≡ quotes_source action words.now }
{
    match action {
        Action::Compile => false,
        Action::Assemble => asks_verbose(words),
    }
}

fn asks_verbose(words: &[Bytes]) -> bool
    ensures { result ≡ asks_verbose words.now }
{
    words.iter().any(|word| is_verbose(word.as_slice()))
}

fn is_verbose(word: &[u8]) -> bool
    ensures { result ≡ is_verbose word.now }
{
    word == b"-fverbose-asm".as_slice()
}

fn maps_names(words: &[Bytes]) -> bool
    ensures { result ≡ maps_names words.now }
{
    words.iter().any(|word| is_map(word.as_slice()))
}

fn is_map(word: &[u8]) -> bool
    ensures { result ≡ is_map word.now }
{
    word.starts_with(b"-fmacro-prefix-map=") || word.starts_with(b"-ffile-prefix-map=")
}

// Whether a text may ask for the name of the file that a place of it is in.
fn names_place(text: &[u8]) -> bool
    ensures { result ≡ names_place text.now }
{
    is_place(text, b"__builtin_FILE") || is_place(text, b"source_location")
}

fn is_place(text: &[u8], name: &[u8]) -> bool
    ensures { result ≡ is_place text.now name.now }
{
    memmem::find(text, name).is_some()
}

// Whether a text may have a pragma by which gcc changes its options: with `#` or `_Pragma`.
fn has_option_pragma(text: &[u8]) -> bool
    ensures { result ≡ has_option_pragma text.now }
{
    let mut rest = text;
    'seeking: while let [_, after @ ..] = rest {
        if begins_pragma(rest) {
            return true;
        }
        rest = after;
    }
    false
}

fn begins_pragma(text: &[u8]) -> bool
    ensures { result ≡ begins_pragma text.now }
{
    text.starts_with(b"ragma") && changes_options(text)
}

// Whether it goes on so after the first five bytes.
fn changes_options(pragma: &[u8]) -> bool
    ensures { result ≡ changes_options pragma.now }
{
    let asked = after_gap(&pragma[5.min(pragma.len())..]);
    let name = after_gap(&asked[3.min(asked.len())..]);
    asked.starts_with(b"GCC") && (name.starts_with(b"target") || name.starts_with(b"optimize"))
}

// The text after blanks, brackets and quotes.
fn after_gap(text: &[u8]) -> &[u8]
    ensures { result.now ≡ after_gap text.now }
{
    &text[gap_of(text)..]
}

// How many of these begin a text.
fn gap_of(text: &[u8]) -> usize
    ensures length { result ≡ position_or_len (λ byte. not (is_gap byte)) text.now }
    ensures within { result ≤ length text.now }
{
    let mut at = 0;
    let mut rest = text;
    'passing: while let [first, after @ ..] = rest {
        if !is_gap(*first) {
            return at;
        }
        at += 1;
        rest = after;
    }
    at
}

fn is_gap(byte: u8) -> bool
    ensures { result ≡ is_gap byte }
{
    matches!(byte, b' ' | b'\t' | b'(' | b'"')
}
