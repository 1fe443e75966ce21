//! What a command of clang wants for a compile on a host.

ghost use Rattle.std.specs.Prelude.{◌≡◌};
ghost use Rattle.std.specs.List.{list_any, starts_with};
ghost use Rattle.whole_command.specs.Clang.{asks_debug, asks_record, drops_debug, is_clang, is_debug, is_folder, is_macro_map, is_no_debug, is_recording, maps_macros, names_folder, needs_folder, needs_quiet, records_words};

use farm_types::Bytes;

/// Whether a command wants a word that names its folder: its driver is clang, and it asks for debug information and names no folder for it.
///
/// Without that word clang writes the folder that it runs in, which is a new one for each run on a host.
pub fn needs_folder(driver: &[u8], words: &[Bytes]) -> bool
    ensures { result ≡ needs_folder driver.now words.now }
{
    is_clang(driver) && asks_debug(words) && !names_folder(words)
}

/// Whether a command wants `-Qunused-arguments`: its driver is clang, and it has `-fmacro-prefix-map=`, about which clang warns in preprocessed text.
pub fn needs_quiet(driver: &[u8], words: &[Bytes]) -> bool
    ensures { result ≡ needs_quiet driver.now words.now }
{
    is_clang(driver) && maps_macros(words)
}

/// Whether the object records the words of a command: its driver is clang, and a word asks for it.
pub fn records_words(driver: &[u8], words: &[Bytes]) -> bool
    ensures { result ≡ records_words driver.now words.now }
{
    is_clang(driver) && asks_record(words)
}

// Whether a driver's name has that of clang in it.
pub(crate) fn is_clang(name: &[u8]) -> bool
    ensures { result ≡ is_clang name.now }
{
    match name {
        [] => false,
        [_, rest @ ..] => name.starts_with(b"clang") || is_clang(rest),
    }
}

// Whether a word asks for debug information, and no later one for none.
pub(crate) fn asks_debug(words: &[Bytes]) -> bool
    ensures { result ≡ asks_debug words.now }
{
    match words {
        [] => false,
        [word, rest @ ..] => asks_debug(rest) || is_debug(word.as_slice()) && !drops_debug(rest),
    }
}

fn drops_debug(words: &[Bytes]) -> bool
    ensures { result ≡ drops_debug words.now }
{
    words.iter().any(|word| is_no_debug(word.as_slice()))
}

fn names_folder(words: &[Bytes]) -> bool
    ensures { result ≡ names_folder words.now }
{
    words.iter().any(|word| is_folder(word.as_slice()))
}

fn maps_macros(words: &[Bytes]) -> bool
    ensures { result ≡ maps_macros words.now }
{
    words.iter().any(|word| is_macro_map(word.as_slice()))
}

fn asks_record(words: &[Bytes]) -> bool
    ensures { result ≡ asks_record words.now }
{
    words.iter().any(|word| is_recording(word.as_slice()))
}

fn is_debug(word: &[u8]) -> bool
    ensures { result ≡ is_debug word.now }
{
    word.starts_with(b"-g") && !is_no_debug(word)
}

fn is_no_debug(word: &[u8]) -> bool
    ensures { result ≡ is_no_debug word.now }
{
    word == b"-g0".as_slice() || word == b"-ggdb0".as_slice()
}

fn is_folder(word: &[u8]) -> bool
    ensures { result ≡ is_folder word.now }
{
    word.starts_with(b"-fdebug-compilation-dir") || word.starts_with(b"-ffile-compilation-dir")
}

fn is_macro_map(word: &[u8]) -> bool
    ensures { result ≡ is_macro_map word.now }
{
    word.starts_with(b"-fmacro-prefix-map=")
}

fn is_recording(word: &[u8]) -> bool
    ensures { result ≡ is_recording word.now }
{
    word == b"-grecord-gcc-switches".as_slice() || word == b"-grecord-command-line".as_slice()
}
