//! Shapes of words.

ghost use Rattle.std.specs.Prelude.{◌≡◌};
ghost use Rattle.allowed_options.specs.Served.{before, is_plain_byte, is_plain, is_path_byte, is_path};

use access_list::place_of;

/// A letter, a digit, or one of `#+,-.:=_`.
fn is_plain_byte(byte: u8) -> bool
    ensures { result ≡ is_plain_byte byte }
{
    matches!(byte, b'a'..=b'z' | b'A'..=b'Z' | b'0'..=b'9' | b'#' | b'+' | b',' | b'-' | b'.' | b':' | b'=' | b'_')
}

/// Whether the word has only plain bytes.
pub fn is_plain(word: &[u8]) -> bool
    ensures { result ≡ is_plain word.now }
{
    word.iter().all(|&byte| is_plain_byte(byte))
}

/// Neither `@` nor `|`.
fn is_path_byte(byte: u8) -> bool
    ensures { result ≡ is_path_byte byte }
{
    !(byte == b'@' || byte == b'|')
}

/// Whether the word is free of `@` and `|`.
pub fn is_path(word: &[u8]) -> bool
    ensures { result ≡ is_path word.now }
{
    word.iter().all(|&byte| is_path_byte(byte))
}

/// What is before the first of these bytes, or all.
pub fn before(byte: u8, word: &[u8]) -> &[u8]
    ensures { result.now ≡ before byte word.now }
{
    &word[..place_of(byte, word)]
}
