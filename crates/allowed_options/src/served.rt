//! The rule, word by word.

ghost use Rattle.std.specs.Prelude.{◌≡◌, ◌<◌, length, map, string_bytes, IfSome};
ghost use Rattle.allowed_options.specs.Served.{undashed, is_flag_name, is_report, is_flag_served, is_option_served, is_operand_served, is_word_served, owed, operand_of, first_unserved, unserved_below};

use crate::back_end::{is_back_end_name, is_sanitizer_name, is_target_name};
use crate::folders::{is_in_tools, names_tools};
use crate::operand::Operand;
use crate::pieces::are_pieces_known;
use crate::reaching::reaches_out;
use crate::spellings::{
    has_name_front, has_path_front, is_level, is_link_word, is_long_word, is_option_word,
    is_specs_word,
};
use crate::words::{before, is_path, is_plain};
use farm_types::Word;

/// The place of the first word that isn't let through, from 0; None if each is. The word at 0 is the program, and always let through.
///
/// `tools` are the folders in which a compiler's own parts may be (`is_tool_folder`). What is let through names no other folder or file,
/// but for paths that are only written into the object. By the manuals of gcc and clang it has them load no plugin, read no words, write
/// no second file, and run no program but their own parts. docs/daemon.md has the rule and its tables.
pub fn first_unserved(words: &[Word], tools: &[String]) -> Option<usize>
    ensures { result ≡ first_unserved words.now (map string_bytes tools.now) }
{
    let [_, words @ ..] = words else {
        return None;
    };
    match first_of(words, tools) {
        Some(at) => Some(at + 1),
        None => None,
    }
}

/// The place of the first word that isn't let through, after the program.
fn first_of(words: &[Word], tools: &[String]) -> Option<usize>
    ensures first { result ≡ unserved_below (map string_bytes tools.now) words.now (length words.now) }
    ensures within { IfSome result (λ at. at < length words.now) }
{
    let mut operand = None;
    for (at, word) in words.iter().enumerate() {
        if !is_word_served(operand, word, tools) {
            return Some(at);
        }
        operand = owed(operand, word);
    }
    None
}

/// Whether a word of this use is let through.
fn is_word_served(operand: Option<Operand>, word: &Word, tools: &[String]) -> bool
    ensures { result ≡ is_word_served (map string_bytes tools.now) operand word.now }
{
    match (operand, word) {
        (None, Word::Text(bytes)) => operand_of(bytes.as_slice()).is_some()
            || is_option_served(bytes.as_slice(), tools),
        (None, Word::Input(_) | Word::Output) => true,
        (Some(operand), Word::Text(bytes)) => is_operand_served(operand, bytes.as_slice(), tools),
        (Some(_), Word::Input(_) | Word::Output) => false,
    }
}

/// The operand that the next word is.
fn owed(operand: Option<Operand>, word: &Word) -> Option<Operand>
    ensures { result ≡ owed operand word.now }
{
    match (operand, word) {
        (None, Word::Text(bytes)) => operand_of(bytes.as_slice()),
        _ => None,
    }
}

/// The operand that an option takes from the next word.
fn operand_of(word: &[u8]) -> Option<Operand>
    ensures { result ≡ operand_of word.now }
{
    if word == b"-B".as_slice() || word == b"-resource-dir".as_slice() {
        Some(Operand::Folder)
    } else if word == b"-mllvm".as_slice() {
        Some(Operand::Flag)
    } else if word == b"--param".as_slice()
        || word == b"-target".as_slice()
        || word == b"-G".as_slice()
    {
        Some(Operand::Setting)
    } else {
        None
    }
}

/// Whether the word has gcc report optimisations on standard error.
fn is_report(word: &[u8]) -> bool
    ensures { result ≡ is_report word.now }
{
    word.starts_with(b"-fopt-info") && is_plain(word) && !word.contains(&b'=')
}

fn is_option_served(word: &[u8], tools: &[String]) -> bool
    ensures { result ≡ is_option_served (map string_bytes tools.now) word.now }
{
    if word.starts_with(b"-Wa,") {
        is_plain(word) && are_pieces_known(word)
    } else if word.starts_with(b"-fopt-info") {
        is_report(word)
    } else if is_option_word(word)
        || is_level(word)
        || is_link_word(word)
        || is_long_word(word)
        || is_specs_word(word)
    {
        true
    } else if names_tools(tools, word) {
        true
    } else if has_path_front(word) {
        is_path(word)
    } else {
        has_name_front(word) && is_plain(word) && !reaches_out(word)
    }
}

/// An option of LLVM without its dashes.
fn undashed(word: &[u8]) -> &[u8]
    ensures { result.now ≡ undashed word.now }
{
    if word.starts_with(b"--") {
        &word[2..]
    } else {
        match word {
            [] => word,
            [_, rest @ ..] => rest,
        }
    }
}

/// Whether builds send an option of LLVM of this name.
fn is_flag_name(name: &[u8]) -> bool
    ensures { result ≡ is_flag_name name.now }
{
    is_back_end_name(name) || is_sanitizer_name(name) || is_target_name(name)
}

/// Whether the word is an option of LLVM that builds send.
fn is_flag_served(word: &[u8]) -> bool
    ensures { result ≡ is_flag_served word.now }
{
    word.starts_with(b"-") && is_plain(word) && is_flag_name(before(b'=', undashed(word)))
}

fn is_operand_served(operand: Operand, word: &[u8], tools: &[String]) -> bool
    ensures { result ≡ is_operand_served (map string_bytes tools.now) operand word.now }
{
    match operand {
        Operand::Folder => is_in_tools(tools, word),
        Operand::Flag => is_flag_served(word),
        Operand::Setting => !word.starts_with(b"-") && is_plain(word),
    }
}
