//! The text of a host list with one of its entries only.

ghost use Rattle.std.specs.Prelude.{ℕ, ◌≡◌, None, All, IfOk, IfSome, option_map, find};
ghost use Rattle.farm_types.specs.declared.hosts.Hosts.{Hosts};
ghost use Rattle.host_list.specs.declared.fault.HostFault.{HostFault};
ghost use Rattle.host_list.specs.HostLists.{AreHosts, HostFaultStands, HostListOf, IsHost};
ghost use Rattle.host_list.specs.Only.{OnlyText, is_same, named_in, only_of};

use crate::fault::HostError;
use crate::list::parse;
use crate::printing::print;
use farm_types::{Bytes, Host, HostVec, Hosts};
use std::alloc::{AllocError, Global};
use std::slice;

/// The text of a host list with only the entry that `entry` names, and with the list's options. None if the list has no such entry, if `entry` isn't the text
/// of one entry, or if either text has a fault.
pub fn only(alloc: Global, text: &[u8], entry: &[u8]) -> Result<Option<Bytes>, AllocError>
    ensures only { (hosts wanted : Hosts) → HostListOf text.now hosts → HostListOf entry.now wanted →
        IfOk result (OnlyText hosts (named_in hosts.list wanted.list)) }
    ensures faulty { (at : ℕ) (fault : HostFault) → HostFaultStands text.now at fault →
        IfOk result (λ made. made ≡ None) }
    ensures unnamed { (at : ℕ) (fault : HostFault) → HostFaultStands entry.now at fault →
        IfOk result (λ made. made ≡ None) }
{
    let Some(hosts) = listed(alloc, text)? else {
        return Ok(None);
    };
    let Some(wanted) = listed(alloc, entry)? else {
        return Ok(None);
    };
    text_of(alloc, &hosts, &wanted)
}

// The text of these hosts with the entry only that the other list names.
fn text_of(alloc: Global, hosts: &Hosts, wanted: &Hosts) -> Result<Option<Bytes>, AllocError>
    requires { AreHosts hosts.now }
    ensures { IfOk result (OnlyText hosts.now (named_in hosts.now.list wanted.now.list)) }
{
    match named_in(hosts.list.as_slice(), wanted.list.as_slice()) {
        Some(host) => Ok(Some(print(alloc, &only_of(alloc, hosts, host)?)?)),
        None => Ok(None),
    }
}

// The hosts of a text; None if it has a fault.
fn listed(alloc: Global, text: &[u8]) -> Result<Option<Hosts>, AllocError>
    ensures listed { (hosts : Hosts) → HostListOf text.now hosts → IfOk result (λ found. found ≡ Some hosts) }
    ensures faulty { (at : ℕ) (fault : HostFault) → HostFaultStands text.now at fault → IfOk result (λ found. found ≡ None) }
    ensures within { IfOk result (λ found. IfSome found AreHosts) }
{
    match parse(alloc, text) {
        Ok(hosts) => Ok(Some(hosts)),
        Err(HostError::Fault { .. }) => Ok(None),
        Err(HostError::Memory) => Err(AllocError),
    }
}

// The entry that a list of one entry names.
fn named_in<'a>(hosts: &'a [Host], wanted: &[Host]) -> Option<&'a Host>
    requires { All IsHost hosts.now }
    ensures found { option_map (λ host. host.now) result ≡ named_in hosts.now wanted.now }
    ensures within { IfSome result (λ host. IsHost host.now) }
{
    match wanted {
        [one] => find_same(hosts, one),
        _ => None,
    }
}

fn find_same<'a>(hosts: &'a [Host], wanted: &Host) -> Option<&'a Host>
    requires { All IsHost hosts.now }
    ensures found { option_map (λ host. host.now) result ≡ find (is_same wanted.now) hosts.now }
    ensures within { IfSome result (λ host. IsHost host.now) }
{
    match hosts {
        [] => None,
        [host, rest @ ..] => {
            if is_same(wanted, host) {
                Some(host)
            } else {
                find_same(rest, wanted)
            }
        }
    }
}

fn is_same(one: &Host, other: &Host) -> bool
    ensures { result ≡ is_same one.now other.now }
{
    one.name.text.as_slice() == other.name.text.as_slice()
        && one.port == other.port
        && one.limit == other.limit
        && one.local == other.local
}

// The same options, and this entry only.
fn only_of(alloc: Global, hosts: &Hosts, host: &Host) -> Result<Hosts, AllocError>
    requires hosts { AreHosts hosts.now }
    requires host { IsHost host.now }
    ensures hosts { IfOk result (λ made. made ≡ only_of host.now hosts.now) }
    ensures within { IfOk result (λ made. AreHosts made) }
{
    Ok(Hosts {
        list: HostVec::from_slice(alloc, slice::from_ref(host))?,
        local_slots: hosts.local_slots,
        local_cpp: hosts.local_cpp,
        randomize: hosts.randomize,
    })
}
