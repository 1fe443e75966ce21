//! The text of a list of hosts.

ghost use Rattle.std.specs.Prelude.{ℕ, ◌≡◌, ◌++◌, IfOk, OnOk};
ghost use Rattle.std.specs.Fmt.{decimal};
ghost use Rattle.host_list.specs.HostLists.{host_line, slots_line, options_text, printed_hosts, AreHosts, HostListOf};

use crate::host::LOCALHOST;
use crate::word::{LOCAL_CPP, LOCAL_SLOTS};
use farm_types::{Bytes, Host, Hosts};
use std::alloc::{AllocError, Global};

fn put_number(alloc: Global, text: &mut Bytes, number: u32) -> Result<(), AllocError>
    ensures { OnOk result (text.new ≡ text.old ++ decimal number) }
{
    let digits = format!(in alloc; "{number}")?;
    text.try_extend(digits.as_bytes())
}

// The line of an entry.
fn put_host(alloc: Global, text: &mut Bytes, host: &Host) -> Result<(), AllocError>
    ensures { OnOk result (text.new ≡ text.old ++ host_line host.now) }
{
    if host.local {
        text.try_extend(LOCALHOST)?;
    } else {
        text.try_extend(host.name.text.as_slice())?;
        text.try_extend(b":")?;
        put_number(alloc, text, u32::from(host.port))?;
    }
    text.try_extend(b"/")?;
    put_number(alloc, text, u32::from(host.limit))?;
    text.try_extend(b"\n")
}

// The line of an option with a number.
fn put_slots(alloc: Global, text: &mut Bytes, option: &[u8], slots: u8) -> Result<(), AllocError>
    ensures { OnOk result (text.new ≡ text.old ++ slots_line option.now slots) }
{
    text.try_extend(option)?;
    put_number(alloc, text, u32::from(slots))?;
    text.try_extend(b"\n")
}

// The lines of the options.
fn put_options(alloc: Global, text: &mut Bytes, hosts: &Hosts) -> Result<(), AllocError>
    ensures { OnOk result (text.new ≡ text.old ++ options_text hosts.now) }
{
    put_slots(alloc, text, LOCAL_SLOTS, hosts.local_slots)?;
    put_slots(alloc, text, LOCAL_CPP, hosts.local_cpp)?;
    if hosts.randomize {
        text.try_extend(b"--randomize\n")?;
    }
    Ok(())
}

/// The text of a list of hosts: a line `NAME:PORT/LIMIT` for each entry, or `localhost/LIMIT` for a
/// local one, then one for each option. Of a list that `parse` gave, it is read as that list again.
pub fn print(alloc: Global, hosts: &Hosts) -> Result<Bytes, AllocError>
    ensures text { IfOk result (λ text. text ≡ printed_hosts hosts.now) }
    ensures again { AreHosts hosts.now → IfOk result (λ text. HostListOf text hosts.now) }
{
    let mut text = Bytes::new(alloc);
    for host in hosts.list.as_slice() {
        put_host(alloc, &mut text, host)?;
    }
    put_options(alloc, &mut text, hosts)?;
    Ok(text)
}
