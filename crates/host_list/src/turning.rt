//! The text of a host list, turned.

ghost use Rattle.std.specs.Prelude.{ℕ, ◌≡◌, true, false, IfOk, length, ◌<◌, ◌≤◌, ◌^◌};
ghost use Rattle.farm_types.specs.Limits.{hosts_max};
ghost use Rattle.farm_types.specs.declared.hosts.Hosts.{Hosts};
ghost use Rattle.host_list.specs.declared.fault.HostFault.{HostFault};
ghost use Rattle.host_list.specs.HostLists.{AreHosts, HostFaultStands, HostListOf};
ghost use Rattle.host_list.specs.Turns.{first_of, turn, turned_by};

use crate::fault::HostError;
use crate::list::parse;
use crate::printing::print;
use farm_types::{Bytes, Host, HostVec, Hosts};
use std::alloc::{AllocError, Global};

/// The text of a host list that begins at another entry, if the list has `--randomize`: its entries are turned by a share of
/// the whole turn, in parts of 2^32. The options stay. Any other text stays as it is.
pub fn turned(alloc: Global, text: &[u8], share: u32) -> Result<Bytes, AllocError>
    ensures turned { (hosts : Hosts) → HostListOf text.now hosts → hosts.randomize ≡ true →
        IfOk result (λ made. HostListOf made (turned_by share hosts)) }
    ensures listed { (hosts : Hosts) → HostListOf text.now hosts → hosts.randomize ≡ false →
        IfOk result (λ made. made ≡ text.now) }
    ensures faulty { (at : ℕ) (fault : HostFault) → HostFaultStands text.now at fault →
        IfOk result (λ made. made ≡ text.now) }
{
    match parse(alloc, text) {
        Ok(hosts) => {
            if hosts.randomize {
                return print(alloc, &turned_hosts(alloc, &hosts, share)?);
            }
            Bytes::from_slice(alloc, text)
        }
        Err(HostError::Fault { .. }) => Bytes::from_slice(alloc, text),
        Err(HostError::Memory) => Err(AllocError),
    }
}

// The hosts, whose entries are turned.
fn turned_hosts(alloc: Global, hosts: &Hosts, share: u32) -> Result<Hosts, AllocError>
    requires { AreHosts hosts.now }
    ensures hosts { IfOk result (λ made. made ≡ turned_by share hosts.now) }
    ensures within { IfOk result (λ made. AreHosts made) }
{
    Ok(Hosts {
        list: turn(alloc, hosts.list.as_slice(), share)?,
        local_slots: hosts.local_slots,
        local_cpp: hosts.local_cpp,
        randomize: hosts.randomize,
    })
}

// The entries from the one that this share points to, and then those before it.
fn turn(alloc: Global, list: &[Host], share: u32) -> Result<HostVec, AllocError>
    requires { length list.now ≤ hosts_max }
    ensures { IfOk result (λ made. made ≡ turn (first_of share (length list.now)) list.now) }
{
    let (front, back) = list.split_at(first_of(share, list.len()));
    let mut turned = HostVec::from_slice(alloc, back)?;
    turned.try_extend(&HostVec::from_slice(alloc, front)?)?;
    Ok(turned)
}

// The place, among `count`, to which a share points.
fn first_of(share: u32, count: usize) -> usize
    requires { count ≤ hosts_max }
    ensures value { result ≡ first_of share count }
    ensures within { result ≤ count }
{
    (u64::from(share) * count as u64 / (1 << 32)) as usize
}
