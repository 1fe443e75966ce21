//! What the line of a job says of its end. Each function adds a text at the end of another.

ghost use Rattle.std.specs.Prelude.{◌≡◌, ◌++◌, OnOk};
ghost use Rattle.std.specs.Fmt.{decimal};
ghost use Rattle.report_text.specs.EndTexts.{status_text, host_text_at, cause_text, by_text, why_text, end_text};

use edge_traits::Cause;
use farm_machine::{By, End, Why5};
use farm_types::{Bytes, Hosts};
use std::alloc::{AllocError, Global};
use wire_tokens::{Name4, write_token};

pub fn add_number(alloc: Global, text: &mut Bytes, number: u64) -> Result<(), AllocError>
    ensures { OnOk result (text.new ≡ text.old ++ decimal number) }
{
    let digits = number.to_string(alloc)?;
    text.try_extend(digits.as_bytes())
}

fn add_status(text: &mut Bytes, status: u32) -> Result<(), AllocError>
    ensures { OnOk result (text.new ≡ text.old ++ status_text status) }
{
    let mut token = [0; 12];
    write_token(Name4(*b"STAT"), status, &mut token);
    text.try_extend(&token[4..])
}

fn add_host(alloc: Global, text: &mut Bytes, hosts: &Hosts, at: u32) -> Result<(), AllocError>
    ensures { OnOk result (text.new ≡ text.old ++ host_text_at hosts.now.list at) }
{
    match hosts.list.get(at as usize) {
        Some(host) => {
            text.try_extend(host.name.text.as_slice())?;
            text.try_extend(b":")?;
            add_number(alloc, text, u64::from(host.port))
        }
        None => Ok(()),
    }
}

fn add_cause(alloc: Global, text: &mut Bytes, cause: Cause) -> Result<(), AllocError>
    ensures { OnOk result (text.new ≡ text.old ++ cause_text cause) }
{
    match cause {
        Cause::Dial => text.try_extend(b"dial"),
        Cause::Send => text.try_extend(b"send"),
        Cause::Recv => text.try_extend(b"recv"),
        Cause::Truncated { have } => {
            text.try_extend(b"cut ")?;
            add_number(alloc, text, have)
        }
        Cause::BadReply { at, fault } => {
            text.try_extend(b"reply ")?;
            add_number(alloc, text, u64::from(fault.number()))?;
            text.try_extend(b" at ")?;
            add_number(alloc, text, at)
        }
        Cause::Stopped => text.try_extend(b"stopped"),
    }
}

fn add_by(alloc: Global, text: &mut Bytes, hosts: &Hosts, by: By) -> Result<(), AllocError>
    ensures { OnOk result (text.new ≡ text.old ++ by_text hosts.now.list by) }
{
    match by {
        By::Cpp => text.try_extend(b"cpp"),
        By::Remote(at) => {
            text.try_extend(b"remote ")?;
            add_host(alloc, text, hosts, at)
        }
        By::Here => text.try_extend(b"here"),
        By::InPlace => text.try_extend(b"local"),
    }
}

fn add_why(alloc: Global, text: &mut Bytes, hosts: &Hosts, why: Why5) -> Result<(), AllocError>
    ensures { OnOk result (text.new ≡ text.old ++ why_text hosts.now.list why) }
{
    match why {
        Why5::Station => text.try_extend(b"child"),
        Why5::Put => text.try_extend(b"put"),
        Why5::Broke { host, cause } => {
            add_host(alloc, text, hosts, host)?;
            text.try_extend(b" ")?;
            add_cause(alloc, text, cause)
        }
        Why5::NoHost => text.try_extend(b"no host"),
        Why5::Memory => text.try_extend(b"memory"),
        Why5::Fetch => text.try_extend(b"read"),
    }
}

pub fn add_end(alloc: Global, text: &mut Bytes, hosts: &Hosts, end: &End) -> Result<(), AllocError>
    ensures { OnOk result (text.new ≡ text.old ++ end_text hosts.now.list end.now) }
{
    match end {
        End::Done { status, by, .. } => {
            add_by(alloc, text, hosts, *by)?;
            text.try_extend(b" stat ")?;
            add_status(text, *status)
        }
        End::Failed(why) => {
            text.try_extend(b"failed ")?;
            add_why(alloc, text, hosts, *why)
        }
    }
}
