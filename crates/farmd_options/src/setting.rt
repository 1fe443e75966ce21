//! The values of options.

ghost use Rattle.std.specs.Prelude.{◌≡◌, ◌≤◌, ◌&&◌, ℕ, true, false, map, length, string_bytes, bytes_eq, codes, IfSome, IfNone};
ghost use Rattle.farmd_options.specs.declared.name.OptionName.TheVariants as names;
ghost use Rattle.farmd_options.specs.Names.{option_named};
ghost use Rattle.farmd_options.specs.Options as says;
ghost use Rattle.farmd_options.specs.Options.{AddsCompiler, AddsRule, AddsTools, IsCompiler, IsSole, IsSpelled, ValueFits, given_in, named_in};

use crate::name::{Kind, OptionName, parse_option};
use access_list::{parse_rule, place_of, read_address};
use allowed_options::is_tool_folder;
use farm_types::limits::{
    CACHE_MAX, COMPILERS_MAX, CONNECTIONS_MAX, PORT_MAX, RULES_MAX, WORKERS_MAX,
};
use farm_types::{read_decimal, read_plain_decimal};

/// The most folders of tools.
const TOOLS_MAX: usize = 16;
/// The most MiB of the book that all doors share.
const SHARED_CACHE_MAX: u32 = 65_536;
/// The most seconds of a compile that may be given.
const JOB_LIFETIME_MAX: u32 = 1_000_000;

/// The name of a compiler: what is before the first `=`.
pub(crate) fn name_in(value: &[u8]) -> &[u8]
    ensures { result.now ≡ says.name_in value.now }
{
    &value[..place_of(b'=', value)]
}

// Whether a value is a compiler's name and its program, with `=` between.
fn is_compiler(value: &[u8]) -> bool
    ensures yes { result ≡ true → IsCompiler value.now }
    ensures no { result ≡ false → IsCompiler value.now → ⊥ }
{
    let at = place_of(b'=', value);
    0 < at && at + 1 < value.len()
}

// Whether an option is a compiler of this name.
fn names(word: &str, value: &[u8], name: &[u8]) -> bool
    ensures { result ≡ (bytes_eq word.now (codes "--compiler") && bytes_eq (says.name_in value.now) name.now) }
{
    word == "--compiler" && name_in(value) == name
}

// Whether a compiler of this name is among the options.
fn is_named(before: &[String], name: &[u8]) -> bool
    ensures { result ≡ named_in (map string_bytes before.now) name.now }
{
    let mut rest = before;
    'seeking: while let [word, value, more @ ..] = rest {
        if names(word.as_str(), value.as_str().as_bytes(), name) {
            return true;
        }
        rest = more;
    }
    false
}

// How many of these options are of this kind.
pub(crate) fn count_in(kind: Kind, words: &[String]) -> usize
    ensures count { result ≡ says.count_in kind (map string_bytes words.now) }
    ensures few { result ≤ length words.now }
{
    let mut count = 0;
    let mut rest = words;
    'counting: while let [word, _, more @ ..] = rest {
        rest = more;
        if kind.has(parse_option(word.as_str())) {
            count += 1;
        }
    }
    count
}

// Whether a value is one compiler more.
fn adds_compiler(before: &[String], value: &[u8]) -> bool
    ensures yes { result ≡ true → AddsCompiler (map string_bytes before.now) value.now }
    ensures no { result ≡ false → AddsCompiler (map string_bytes before.now) value.now → ⊥ }
{
    if COMPILERS_MAX <= count_in(Kind::Compiler, before) || !is_compiler(value) {
        return false;
    }
    !is_named(before, name_in(value))
}

// Whether a value is one rule more.
fn adds_rule(before: &[String], allow: bool, value: &[u8]) -> bool
    ensures yes { result ≡ true → AddsRule allow (map string_bytes before.now) value.now }
    ensures no { result ≡ false → AddsRule allow (map string_bytes before.now) value.now → ⊥ }
{
    if RULES_MAX <= count_in(Kind::Rule, before) {
        return false;
    }
    parse_rule(allow, value).is_ok()
}

// Whether a value is one folder of tools more.
fn adds_tools(before: &[String], value: &[u8]) -> bool
    ensures yes { result ≡ true → AddsTools (map string_bytes before.now) value.now }
    ensures no { result ≡ false → AddsTools (map string_bytes before.now) value.now → ⊥ }
{
    count_in(Kind::Tools, before) < TOOLS_MAX && is_tool_folder(value)
}

/// The port that a value spells.
pub(crate) fn read_port(value: &[u8]) -> Option<u16>
    ensures found { IfSome result (IsSpelled names.Port value.now) }
    ensures none { IfNone result ((n : ℕ) → IsSpelled names.Port value.now n → ⊥) }
{
    match read_plain_decimal(value, 5, 1, PORT_MAX) {
        Some(port) => Some(port as u16),
        None => None,
    }
}

/// The address that a value spells.
pub(crate) fn read_listen(value: &[u8]) -> Option<u32>
    ensures found { IfSome result (IsSpelled names.Listen value.now) }
    ensures none { IfNone result ((n : ℕ) → IsSpelled names.Listen value.now n → ⊥) }
{
    read_address(value)
}

// Whether a value spells an address.
fn is_listen(value: &[u8]) -> bool
    ensures yes { result ≡ true → (n : ℕ) × IsSpelled names.Listen value.now n }
    ensures no { result ≡ false → (n : ℕ) × IsSpelled names.Listen value.now n → ⊥ }
{
    read_listen(value).is_some()
}

/// The number of doors that a value spells.
pub(crate) fn read_jobs(value: &[u8]) -> Option<u8>
    ensures found { IfSome result (IsSpelled names.Jobs value.now) }
    ensures none { IfNone result ((n : ℕ) → IsSpelled names.Jobs value.now n → ⊥) }
{
    match read_plain_decimal(value, 2, 1, WORKERS_MAX as u32) {
        Some(jobs) => Some(jobs as u8),
        None => None,
    }
}

/// The number of connections that a value spells.
pub(crate) fn read_serve(value: &[u8]) -> Option<u32>
    ensures found { IfSome result (IsSpelled names.Serve value.now) }
    ensures none { IfNone result ((n : ℕ) → IsSpelled names.Serve value.now n → ⊥) }
{
    read_plain_decimal(value, 6, 1, CONNECTIONS_MAX)
}

/// The number of MiB of each door's book that a value spells, with leading zeros or without.
pub(crate) fn read_cache(value: &[u8]) -> Option<u8>
    ensures found { IfSome result (IsSpelled names.Cache value.now) }
    ensures none { IfNone result ((n : ℕ) → IsSpelled names.Cache value.now n → ⊥) }
{
    match read_decimal(value, 3, 1, CACHE_MAX) {
        Some(mebibytes) => Some(mebibytes as u8),
        None => None,
    }
}

/// The number of MiB of the book of all doors that a value spells, with leading zeros or without.
pub(crate) fn read_shared(value: &[u8]) -> Option<u32>
    ensures found { IfSome result (IsSpelled names.SharedCache value.now) }
    ensures none { IfNone result ((n : ℕ) → IsSpelled names.SharedCache value.now n → ⊥) }
{
    read_decimal(value, 5, 1, SHARED_CACHE_MAX)
}

// Whether an option of this name is among the options.
fn is_given(before: &[String], name: &str) -> bool
    ensures { result ≡ given_in (map string_bytes before.now) name.now }
{
    let mut rest = before;
    'seeking: while let [word, _, more @ ..] = rest {
        if word.as_str() == name {
            return true;
        }
        rest = more;
    }
    false
}

// Whether a value is the number of MiB of each door's book. There is no book that all share.
fn is_cache(before: &[String], value: &[u8]) -> bool
    ensures yes { result ≡ true → IsSole names.Cache (codes "--shared-cache") (map string_bytes before.now) value.now }
    ensures no { result ≡ false → IsSole names.Cache (codes "--shared-cache") (map string_bytes before.now) value.now → ⊥ }
{
    !is_given(before, "--shared-cache") && read_cache(value).is_some()
}

// Whether a value is the number of MiB of the book that all doors share. No door has one of its own.
fn is_shared(before: &[String], value: &[u8]) -> bool
    ensures yes { result ≡ true → IsSole names.SharedCache (codes "--cache") (map string_bytes before.now) value.now }
    ensures no { result ≡ false → IsSole names.SharedCache (codes "--cache") (map string_bytes before.now) value.now → ⊥ }
{
    !is_given(before, "--cache") && read_shared(value).is_some()
}

/// The number of seconds that a value spells.
pub(crate) fn read_job_lifetime(value: &[u8]) -> Option<u32>
    ensures found { IfSome result (IsSpelled names.JobLifetime value.now) }
    ensures none { IfNone result ((n : ℕ) → IsSpelled names.JobLifetime value.now n → ⊥) }
{
    read_plain_decimal(value, 7, 0, JOB_LIFETIME_MAX)
}

/// Whether a word may be the value of an option after these words.
pub(crate) fn is_value(option: Option<OptionName>, before: &[String], value: &[u8]) -> bool
    ensures yes { result ≡ true → ValueFits option (map string_bytes before.now) value.now }
    ensures no { result ≡ false → ValueFits option (map string_bytes before.now) value.now → ⊥ }
{
    match option {
        Some(OptionName::Compiler) => adds_compiler(before, value),
        Some(OptionName::Port) => read_port(value).is_some(),
        Some(OptionName::Listen) => is_listen(value),
        Some(OptionName::Jobs) => read_jobs(value).is_some(),
        Some(OptionName::Serve) => read_serve(value).is_some(),
        Some(OptionName::Cache) => is_cache(before, value),
        Some(OptionName::SharedCache) => is_shared(before, value),
        Some(OptionName::JobLifetime) => read_job_lifetime(value).is_some(),
        Some(OptionName::Tools) => adds_tools(before, value),
        Some(OptionName::Allow) => adds_rule(before, true, value),
        Some(OptionName::Deny) => adds_rule(before, false, value),
        None => false,
    }
}
