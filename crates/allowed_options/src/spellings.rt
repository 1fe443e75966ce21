//! The spellings of words that are let through.

ghost use Rattle.std.specs.Prelude.{◌≡◌};
ghost use Rattle.allowed_options.specs.Served.{is_option_word, is_level, is_link_word, is_long_word, is_specs_word, has_name_front, has_path_front};

use crate::lists::{begins, is_one};

/// The words that are let through as they are.
const OPTION_WORDS: [&str; 33] = [
    "-c",
    "-S",
    "-o",
    "-pipe",
    "-pthread",
    "-ansi",
    "-pedantic",
    "-pedantic-errors",
    "-w",
    "-v",
    "-p",
    "-pg",
    "-no-canonical-prefixes",
    "-integrated-as",
    "-no-integrated-as",
    "-emit-llvm",
    "-C",
    "-CC",
    "-P",
    "-H",
    "-Q",
    "-Qn",
    "-Qy",
    "-Qunused-arguments",
    "-trigraphs",
    "-traditional",
    "-traditional-cpp",
    "-remap",
    "-time",
    "-pass-exit-codes",
    "-EL",
    "-EB",
    "-fxray-instrument",
];

/// The levels of optimisation.
const LEVELS: [&str; 15] = [
    "-O", "-O0", "-O1", "-O2", "-O3", "-O4", "-O5", "-O6", "-O7", "-O8", "-O9", "-Os", "-Og",
    "-Oz", "-Ofast",
];

/// The words for the linker that are let through, though nothing is linked.
const LINK_WORDS: [&str; 24] = [
    "-s",
    "-static",
    "-shared",
    "-rdynamic",
    "-pie",
    "-no-pie",
    "-nopie",
    "-static-pie",
    "-static-libgcc",
    "-static-libstdc++",
    "-nostdlib",
    "-nostdlib++",
    "-nodefaultlibs",
    "-nostartfiles",
    "-nolibc",
    "-symbolic",
    "-shared-libgcc",
    "-shared-libasan",
    "-shared-libsan",
    "-static-libasan",
    "-static-liblsan",
    "-static-libsan",
    "-static-libtsan",
    "-static-libubsan",
];

/// The words with two dashes that are let through as they are.
const LONG_WORDS: [&str; 14] = [
    "--pedantic",
    "--pedantic-errors",
    "--ansi",
    "--pipe",
    "--verbose",
    "--static",
    "--shared",
    "--signed-char",
    "--unsigned-char",
    "--all-warnings",
    "--extra-warnings",
    "--no-warnings",
    "--driver-mode=gcc",
    "--driver-mode=g++",
];

/// The files of specs that are let through: gcc looks for such a name in its own folders, and then in the folder of the run, which has no such file.
const SPECS_WORDS: [&str; 6] = [
    "--specs=nano.specs",
    "-specs=nano.specs",
    "--specs=nosys.specs",
    "-specs=nosys.specs",
    "--specs=rdimon.specs",
    "-specs=rdimon.specs",
];

/// What a word begins with whose name and value are plain bytes.
const NAME_FRONTS: [&str; 15] = [
    "-f",
    "-m",
    "-W",
    "-g",
    "-G",
    "-std=",
    "-stdlib=",
    "-rtlib=",
    "-unwindlib=",
    "--param=",
    "--target=",
    "--std=",
    "--stdlib=",
    "--rtlib=",
    "--unwindlib=",
];

/// What a word begins with whose value is only written into the object or compared with names.
const PATH_FRONTS: [&str; 11] = [
    "-fdebug-prefix-map=",
    "-ffile-prefix-map=",
    "-fmacro-prefix-map=",
    "-fcoverage-prefix-map=",
    "-fdebug-compilation-dir=",
    "-ffile-compilation-dir=",
    "-fcoverage-compilation-dir=",
    "-frandom-seed=",
    "-Rpass=",
    "-Rpass-missed=",
    "-Rpass-analysis=",
];

/// Whether the word is one of `OPTION_WORDS`.
pub fn is_option_word(word: &[u8]) -> bool
    ensures { result ≡ is_option_word word.now }
{
    let spellings: [&str; 33] = OPTION_WORDS;
    is_one(spellings.as_slice(), word)
}

/// Whether the word is one of `LEVELS`.
pub fn is_level(word: &[u8]) -> bool
    ensures { result ≡ is_level word.now }
{
    let spellings: [&str; 15] = LEVELS;
    is_one(spellings.as_slice(), word)
}

/// Whether the word is one of `LINK_WORDS`.
pub fn is_link_word(word: &[u8]) -> bool
    ensures { result ≡ is_link_word word.now }
{
    let spellings: [&str; 24] = LINK_WORDS;
    is_one(spellings.as_slice(), word)
}

/// Whether the word is one of `LONG_WORDS`.
pub fn is_long_word(word: &[u8]) -> bool
    ensures { result ≡ is_long_word word.now }
{
    let spellings: [&str; 14] = LONG_WORDS;
    is_one(spellings.as_slice(), word)
}

/// Whether the word is one of `SPECS_WORDS`.
pub fn is_specs_word(word: &[u8]) -> bool
    ensures { result ≡ is_specs_word word.now }
{
    let spellings: [&str; 6] = SPECS_WORDS;
    is_one(spellings.as_slice(), word)
}

/// Whether the word begins with one of `NAME_FRONTS`.
pub fn has_name_front(word: &[u8]) -> bool
    ensures { result ≡ has_name_front word.now }
{
    let spellings: [&str; 15] = NAME_FRONTS;
    begins(spellings.as_slice(), word)
}

/// Whether the word begins with one of `PATH_FRONTS`.
pub fn has_path_front(word: &[u8]) -> bool
    ensures { result ≡ has_path_front word.now }
{
    let spellings: [&str; 11] = PATH_FRONTS;
    begins(spellings.as_slice(), word)
}
