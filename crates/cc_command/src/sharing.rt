//! The slot that a compile command is lent by the desk of a shared run.

use desk_real::{Granted, Seat, SharedRun, ask};
use desk_words::{Asked, Told};
use edge_real::variable;
use farm_options::lookup;
use farm_settings::HOSTS;
use host_list::only;
use std::alloc::AllocError;
use std::env::Env;
use std::io::{Eprint, Write};
use std::net::Net;

/// Where a command is done by the slot that it was lent.
#[derive(Clone, Copy, PartialEq, Eq)]
pub enum Lent {
    /// Here, though it asked for a host.
    Here,
    /// Here, by an entry of the host list that is this machine.
    Local,
    /// By a host.
    Host,
}

/// A slot that was lent, until it is left.
#[derive(Drop)]
pub struct SharedSlot<S> {
    seat: Seat<S>,
    pub lent: Lent,
}

impl<S: Write + Drop> SharedSlot<S> {
    /// Gives it back, and says whether the exchange with its host broke.
    pub fn leave(self, has_broken: bool) {
        self.seat
            .leave(if has_broken { Told::Broke } else { Told::Done });
    }
}

/// Waits for a slot of this run: a local one if the command is done here anyway. Then the variables have the entry only that was lent, or none. None if the
/// command goes on without the desk, which is printed.
pub fn share_slot<R: Net + Env + Eprint + AllocGlobal>(
    rt: &R,
    run: &SharedRun<'_>,
    is_here: bool,
    variables: &mut Vec<(String, String)>,
) -> Result<Option<SharedSlot<R::Stream>>, AllocError> {
    let alloc = rt.alloc();
    let asked = match (run.is_within, is_here) {
        (true, _) => Asked::Within,
        (false, true) => Asked::Local,
        (false, false) => Asked::Hosts,
    };
    let Some((granted, seat)) = ask(rt, alloc, run, asked)? else {
        tell_missing(rt)?;
        return Ok(None);
    };
    match granted {
        Granted::Alone => Ok(None),
        Granted::Here => {
            set_hosts(variables, String::new(alloc));
            let lent = Lent::Here;
            Ok(Some(SharedSlot { seat, lent }))
        }
        Granted::Host(entry) => {
            let lent = take_entry(rt, entry.as_slice(), variables)?;
            Ok(lent.map(|lent| SharedSlot { seat, lent }))
        }
    }
}

// Has the variables name this entry only. None if the host list doesn't have it, which is printed.
fn take_entry<R: Env + Eprint + AllocGlobal>(
    rt: &R,
    entry: &[u8],
    variables: &mut Vec<(String, String)>,
) -> Result<Option<Lent>, AllocError> {
    let alloc = rt.alloc();
    let text = lookup(variables.as_slice(), HOSTS).unwrap_or("");
    let Some(made) = only(alloc, text.as_bytes(), entry)? else {
        tell_other(rt)?;
        return Ok(None);
    };
    let text = String::from_utf8(made.into_vec()).unwrap_or(String::new(alloc));
    set_hosts(variables, text);
    let is_local = entry.starts_with(b"localhost/");
    Ok(Some(if is_local { Lent::Local } else { Lent::Host }))
}

// Another text of the host list.
fn set_hosts(variables: &mut Vec<(String, String)>, text: String) {
    for (name, value) in variables.iter_mut() {
        if name.as_str() == HOSTS {
            *value = text;
            return;
        }
    }
}

// Whether lines about hosts are wanted.
fn is_told<R: Env + AllocGlobal>(rt: &R) -> Result<bool, AllocError> {
    let value = variable(rt, "FARM_NOTICES")?;
    Ok(value.as_ref().map(|value| value.as_str()) != Some("0"))
}

fn tell_missing<R: Env + Eprint + AllocGlobal>(rt: &R) -> Result<(), AllocError> {
    if is_told(rt)? {
        let _ = eprintln!(rt;
            "farm: farm share doesn't answer: this command takes a slot by itself"
        );
    }
    Ok(())
}

fn tell_other<R: Env + Eprint + AllocGlobal>(rt: &R) -> Result<(), AllocError> {
    if is_told(rt)? {
        let _ = eprintln!(rt;
            "farm: farm share has another host list: this command takes a slot by itself"
        );
    }
    Ok(())
}
