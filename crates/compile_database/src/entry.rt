//! What an entry of a compile database says.

ghost use Rattle.std.specs.Prelude.{◌≡◌, Some, Ok, Err, map, codes, IfOk, IfErr};
ghost use Rattle.std.specs.Option.{option_copied};
ghost use Rattle.serde_json.specs.View.{view};
ghost use Rattle.serde_json.specs.Find.{as_array};
ghost use Rattle.compile_database.specs.Entries as entries;
ghost use Rattle.compile_database.specs.Entries.{texts_of, words_of_array, words_of_text, said_words, words_of};
ghost use Rattle.compile_database.specs.Unread.{IsUnread};

use crate::shell::split_command;
use arg_scan::{Verdict, classify};
use dependency_options::dependency_words;
use farm_types::{Bytes, Words};
use serde_json::Value;
use std::alloc::{AllocError, Global};

/// Why an entry has no words.
#[derive(Clone, Copy, Debug, PartialEq, Eq, Drop)]
pub(crate) enum NoWords {
    /// Neither `arguments` nor `command` is there in its form.
    NoForm,
    /// The text of `command` ends in a quote, or after a backslash.
    OpenQuote,
}

/// Why the words of an entry weren't read.
#[derive(Clone, Copy, Debug, PartialEq, Eq, Drop)]
pub(crate) enum Unread {
    /// It has none.
    Reason(NoWords),
    /// Memory ran out.
    Memory,
}

impl From<AllocError> for Unread {
    ghost use Rattle.compile_database.specs.declared.entry.Unread.TheVariants.{Memory};

    ghost from_gives = { λ _ e. e ≡ Memory };

    fn from(_error: AllocError) -> Unread {
        Unread::Memory
    }
}

// The text of a member of an entry.
fn text_of<'a>(entry: &'a Value, name: &str) -> Option<&'a str>
    ensures { option_copied result ≡ entries.text_of name.now (view entry.now) }
{
    entry.get(name).and_then(Value::as_str)
}

/// The folder in which the command of an entry runs.
pub(crate) fn folder_of(entry: &Value) -> Option<&str>
    ensures { option_copied result ≡ entries.folder_of (view entry.now) }
{
    text_of(entry, "directory")
}

// The texts of a list, if it has texts only.
fn texts_of(alloc: Global, items: &[Value]) -> Result<Option<Words>, AllocError>
    ensures { IfOk result (λ texts. texts ≡ texts_of (map view items.now)) }
{
    let mut texts = Words::new(alloc);
    'each: for item in items {
        match item.as_str() {
            Some(text) => texts.try_push(Bytes::from_slice(alloc, text.as_bytes())?)?,
            None => return Ok(None),
        }
    }
    Ok(Some(texts))
}

// The words of `arguments`.
fn words_of_array(alloc: Global, arguments: &Value) -> Result<Words, Unread>
    ensures words { IfOk result (λ words. words_of_array (as_array (view arguments.now)) ≡ Ok words) }
    ensures unread { IfErr result (IsUnread (words_of_array (as_array (view arguments.now)))) }
{
    let items = match arguments.as_array() {
        Some(items) => items,
        None => return Err(Unread::Reason(NoWords::NoForm)),
    };
    match texts_of(alloc, items.as_slice())? {
        Some(words) => Ok(words),
        None => Err(Unread::Reason(NoWords::NoForm)),
    }
}

// The words of `command`.
fn words_of_text(alloc: Global, command: Option<&str>) -> Result<Words, Unread>
    ensures words { IfOk result (λ words. words_of_text (option_copied command.entry) ≡ Ok words) }
    ensures unread { IfErr result (IsUnread (words_of_text (option_copied command.entry))) }
{
    let text = match command {
        Some(text) => text,
        None => return Err(Unread::Reason(NoWords::NoForm)),
    };
    match split_command(alloc, text.as_bytes())? {
        Some(words) => Ok(words),
        None => Err(Unread::Reason(NoWords::OpenQuote)),
    }
}

// The words that an entry says: those of `arguments` if it is there, and else those of `command`.
fn said_words(alloc: Global, entry: &Value) -> Result<Words, Unread>
    ensures words { IfOk result (λ words. said_words (view entry.now) ≡ Ok words) }
    ensures unread { IfErr result (IsUnread (said_words (view entry.now))) }
{
    match entry.get("arguments") {
        Some(arguments) => words_of_array(alloc, arguments),
        None => words_of_text(alloc, text_of(entry, "command")),
    }
}

/// The words of the job of an entry: those that it says, and after them those of its dependency
/// file if the command may be sent.
pub(crate) fn words_of(alloc: Global, entry: &Value) -> Result<Words, Unread>
    ensures words { IfOk result (λ words. words_of (view entry.now) ≡ Ok words) }
    ensures unread { IfErr result (IsUnread (words_of (view entry.now))) }
{
    let words = said_words(alloc, entry)?;
    match classify(&words) {
        Verdict::Remote(plan) => Ok(dependency_words(alloc, &words, &plan)?),
        _ => Ok(words),
    }
}
