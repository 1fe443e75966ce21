//! The list of hosts that a text means.

ghost use Rattle.std.specs.Prelude.{ℕ, ◌≡◌, ◌≤◌, ◌<◌, ◌+◌, ◌^◌, length, [], false, IfOk, IfErr, OnOk};
ghost use Rattle.farm_types.specs.Limits.{hosts_max};
ghost use Rattle.host_list.specs.HostWords.{HostWord, WordFault};
ghost use Rattle.host_list.specs.HostLists.{HostListOf, HostFaultStands, IsWrongWord, hosts_of, AreHosts};
ghost use Rattle.host_list.specs.Answers.{IsError, Gives, GivesFault};
ghost use Rattle.farm_types.specs.declared.hosts.Hosts.{Hosts};
ghost use Rattle.host_list.specs.declared.fault.HostFault.{HostFault};
ghost use Rattle.host_list.specs.Steps.{TakesWord, with_meaning};

use crate::fault::{HostError, HostFault};
use crate::meaning::Meaning;
use crate::text::next_word;
use crate::word::read_word;
use farm_types::limits::HOSTS_MAX;
use farm_types::{HostVec, Hosts};
use std::alloc::{AllocError, Global};

/// The number of local slots if none is given.
pub const LOCAL_SLOTS_DEFAULT: u8 = 4;
/// The number of local preprocessors if none is given.
pub const LOCAL_CPP_DEFAULT: u8 = 8;

// What a list is before its first word.
fn no_hosts(alloc: Global) -> Hosts
    ensures { result ≡ hosts_of [] }
{
    Hosts {
        list: HostVec::new(alloc),
        local_slots: LOCAL_SLOTS_DEFAULT,
        local_cpp: LOCAL_CPP_DEFAULT,
        randomize: false,
    }
}

fn add(hosts: &mut Hosts, meaning: Meaning) -> Result<(), AllocError>
    ensures { OnOk result (hosts.new ≡ with_meaning hosts.old meaning) }
{
    match meaning {
        Meaning::Entry(host) => hosts.list.try_push(host)?,
        Meaning::LocalSlots(n) => hosts.local_slots = n,
        Meaning::LocalCpp(n) => hosts.local_cpp = n,
        Meaning::Randomize => hosts.randomize = true,
    }
    Ok(())
}

// Reads a word that begins at a place of a text.
fn read_at(alloc: Global, at: usize, word: &[u8]) -> Result<Meaning, HostError>
    requires { at + length word.now < 2 ^ 64 }
    ensures meaning { IfOk result (λ meaning. HostWord word.now meaning) }
    ensures fault { IfErr result (λ e. IsError (λ place fault.
        (within : ℕ) × WordFault word.now within fault × (place ≡ at + within)) e) }
{
    match read_word(alloc, word) {
        Ok(meaning) => Ok(meaning),
        Err(HostError::Fault { at: within, fault }) => Err(HostError::Fault {
            at: at as u64 + within,
            fault,
        }),
        Err(HostError::Memory) => Err(HostError::Memory),
    }
}

// Reads a word that begins at a place of a text into a list.
fn take_word(alloc: Global, hosts: &mut Hosts, at: usize, word: &[u8]) -> Result<(), HostError>
    requires fits { at + length word.now < 2 ^ 64 }
    requires few { length hosts.old.list ≤ hosts_max }
    ensures taken { OnOk result (TakesWord word.now hosts.old hosts.new) }
    ensures fault { IfErr result
        (λ e. IsError (IsWrongWord (length hosts.old.list) (record { at = at; bytes = word.now })) e) }
{
    let meaning = read_at(alloc, at, word)?;
    if matches!(meaning, Meaning::Entry(_)) && hosts.list.len() == HOSTS_MAX {
        return Err(HostError::Fault {
            at: at as u64,
            fault: HostFault::TooMany,
        });
    }
    Ok(add(hosts, meaning)?)
}

// Reads the words of a text, one after another.
fn read_words(alloc: Global, text: &[u8]) -> Result<Hosts, HostError>
    ensures list { IfOk result (λ hosts. HostListOf text.now hosts) }
    ensures fault { IfErr result (λ e. IsError (HostFaultStands text.now) e) }
{
    let mut hosts = no_hosts(alloc);
    let mut from = 0;
    while let Some(word) = next_word(text, from) {
        take_word(alloc, &mut hosts, word.at, word.bytes)?;
        from = word.at + word.bytes.len();
    }
    Ok(hosts)
}

/// Reads the text of a host list: entries `NAME:PORT/LIMIT` and options, with blanks between them and
/// comments after `#`, by the rules of docs/hosts.md, which narrow those of distcc(1). The place of a
/// fault counts bytes of the text from 0. Instead of any result, memory may run out.
pub fn parse(alloc: Global, text: &[u8]) -> Result<Hosts, HostError>
    ensures list { IfOk result (λ hosts. HostListOf text.now hosts) }
    ensures fault { IfErr result (λ e. IsError (HostFaultStands text.now) e) }

    // Nothing else is returned, unless memory ran out.
    ensures only_list { (hosts : Hosts) → HostListOf text.now hosts → Gives hosts result }
    ensures only_fault { (at : ℕ) (fault : HostFault)
        → HostFaultStands text.now at fault → GivesFault at fault result }

    // What `print` writes of such a list is read as the same list again.
    ensures within { IfOk result (λ hosts. AreHosts hosts) }
{
    read_words(alloc, text)
}
