//! One word of a host list.

ghost use Rattle.std.specs.Prelude.{ℕ, ◌≡◌, ◌≤◌, length, true, IfOk, IfErr};
ghost use Rattle.host_list.specs.HostWords as words;
ghost use Rattle.host_list.specs.HostWords.{HostWord, WordFault, SpellsSlots, SlotsFault, OptionFault, PlusFault, begins_with};
ghost use Rattle.host_list.specs.declared.meaning.Meaning.{Meaning};
ghost use Rattle.host_list.specs.declared.fault.HostFault.{HostFault};
ghost use Rattle.host_list.specs.Answers.{IsError, Gives, GivesFault};

use crate::fault::{FaultAt, HostError, HostFault};
use crate::host::read_host;
use crate::meaning::Meaning;
use crate::number::read_limit;
use memchr::memchr;
use std::alloc::Global;

/// The option that says how many jobs run on this machine at once.
pub const LOCAL_SLOTS: &[u8] = b"--localslots=";
/// The option that says how many preprocessors run on this machine at once.
pub const LOCAL_CPP: &[u8] = b"--localslots_cpp=";

/// The option that lets jobs begin at different entries.
const RANDOMIZE: &[u8] = b"--randomize";

/// The word that asks for hosts by zeroconf.
const ZEROCONF: &[u8] = b"+zeroconf";

fn holds(byte: u8, word: &[u8]) -> bool
    ensures { result ≡ words.has_byte byte word.now }
{
    memchr(byte, word).is_some()
}

// The number after an option's name.
fn read_slots(option: &[u8], word: &[u8]) -> Result<u8, FaultAt>
    requires { begins_with option.now word.now ≡ true }
    ensures found { IfOk result (λ n. SpellsSlots option.now word.now n) }
    ensures fault { IfErr result (λ e. SlotsFault option.now word.now e.at e.fault) }
    ensures place { IfErr result (λ e. e.at ≤ length word.now) }
{
    match read_limit(&word[option.len()..]) {
        Some(n) => Ok(n),
        None => Err(FaultAt {
            at: option.len(),
            fault: HostFault::BadLimit,
        }),
    }
}

// A word that begins with `--`.
fn read_option(word: &[u8]) -> Result<Meaning, FaultAt>
    ensures meaning { IfOk result (λ meaning. HostWord word.now meaning) }
    ensures fault { IfErr result (λ e. OptionFault word.now e.at e.fault) }
    ensures place { IfErr result (λ e. e.at ≤ length word.now) }
{
    if word.starts_with(LOCAL_SLOTS) {
        return Ok(Meaning::LocalSlots(read_slots(LOCAL_SLOTS, word)?));
    }
    if word.starts_with(LOCAL_CPP) {
        return Ok(Meaning::LocalCpp(read_slots(LOCAL_CPP, word)?));
    }
    if word == RANDOMIZE {
        return Ok(Meaning::Randomize);
    }
    Err(FaultAt {
        at: 0,
        fault: HostFault::UnknownOption,
    })
}

// The fault of a word that begins with `+`.
fn plus_fault(word: &[u8]) -> HostFault
    ensures { PlusFault word.now 0 result }
{
    if word == ZEROCONF {
        HostFault::Zeroconf
    } else {
        HostFault::BadName
    }
}

// Reads a word by the first rule that it falls under.
fn read_by_rule(alloc: Global, word: &[u8]) -> Result<Meaning, HostError>
    ensures meaning { IfOk result (λ meaning. HostWord word.now meaning) }
    ensures fault { IfErr result (λ e. IsError (WordFault word.now) e) }
    ensures place { IfErr result (λ e. IsError (λ at _. at ≤ length word.now) e) }
{
    if word.starts_with(b"--") {
        return Ok(read_option(word)?);
    }
    if word.starts_with(b"+") {
        return Err(HostError::Fault {
            at: 0,
            fault: plus_fault(word),
        });
    }
    if holds(b'@', word) {
        return Err(HostError::Fault {
            at: 0,
            fault: HostFault::Ssh,
        });
    }
    if holds(b',', word) {
        return Err(HostError::Fault {
            at: 0,
            fault: HostFault::HostOption,
        });
    }
    Ok(Meaning::Entry(read_host(alloc, word)?))
}

/// Reads one word of a host list, which has neither blanks nor comments, by the rules of
/// docs/hosts.md. The place of a fault counts bytes of the word from 0.
pub fn read_word(alloc: Global, word: &[u8]) -> Result<Meaning, HostError>
    ensures meaning { IfOk result (λ meaning. HostWord word.now meaning) }
    ensures fault { IfErr result (λ e. IsError (WordFault word.now) e) }
    ensures place { IfErr result (λ e. IsError (λ at _. at ≤ length word.now) e) }

    // Nothing else is returned, unless memory ran out.
    ensures only_meaning { (meaning : Meaning) → HostWord word.now meaning → Gives meaning result }
    ensures only_fault { (at : ℕ) (fault : HostFault)
        → WordFault word.now at fault → GivesFault at fault result }
{
    read_by_rule(alloc, word)
}
