// `farm share`: a command whose compiles share the slots of the hosts. Its desk is another process, so that neither a signal to this one nor the end of the
// desk leaves a build that nobody can end.
ghost use Rattle.std.specs.Prelude.{◌≤◌, length};
ghost use Rattle.farm_types.specs.Limits.{hosts_max};

use desk_real::{DESK_WORD, DeskPlan, serve_desk};
use edge_real::{StdSink, WaitingStream};
use farm_machine::limits_of;
use farm_options::{Share, back_off_period, lookup, parse_share, share_help};
use farm_settings::{HOSTS, variables_of};
use farm_types::Hosts;
use farm_types::exits::{BAD_WORDS, FAULT, STOPPED};
use host_list::{parse, print as print_hosts};
use refusal_reasons::tell_bad_share;
use share_command::run_shared;
use std::alloc::{AllocError, Global};
use std::process;
use stream_print::print;

/// Does `farm share`, and returns the exit status. None if the words ask for another command.
pub fn share(rt: &HostRuntime, words: &[String]) -> Result<Option<u8>, AllocError> {
    let [name, rest @ ..] = words else {
        return Ok(None);
    };
    if name.as_str() != "share" {
        return Ok(None);
    }
    if matches!(rest, [word] if word.as_str() == DESK_WORD) {
        return Ok(Some(be_desk(rt)?));
    }
    Ok(Some(match parse_share(rest) {
        Ok(Share::Help) => print_help(rt),
        Ok(Share::Run { hosts, command }) => run_shared(
            rt,
            process::id(rt.process()),
            hosts,
            command,
        )?,
        Err(place) => {
            tell_bad_share(rt, words.get(place));
            BAD_WORDS
        }
    }))
}

fn print_help(rt: &HostRuntime) -> u8 {
    let mut out = StdSink::new(WaitingStream::new(*rt, rt.stdout()));
    match print(&mut out, share_help()) {
        Ok(()) => 0,
        Err(_) => STOPPED,
    }
}

// Is the desk of a shared run, until its parent ends.
fn be_desk(rt: &HostRuntime) -> Result<u8, AllocError> {
    let variables = variables_of(rt, None)?;
    let Some(period) = back_off_period(variables.as_slice()) else {
        return Ok(FAULT);
    };
    let text = lookup(variables.as_slice(), HOSTS).unwrap_or("");
    match parse(rt.alloc(), text.as_bytes()) {
        Ok(hosts) => serve_hosts(rt, &hosts, period),
        Err(_) => Ok(FAULT),
    }
}

// Serves the callers of a desk of these hosts.
fn serve_hosts(rt: &HostRuntime, hosts: &Hosts, period: u32) -> Result<u8, AllocError>
    requires { length hosts.now.list ≤ hosts_max }
{
    let alloc = rt.alloc();
    let plan = DeskPlan {
        limits: limits_of(hosts, 0),
        entries: entries_of(alloc, hosts)?,
        period,
    };
    let mut out = rt.stdout();
    Ok(match serve_desk(*rt, alloc, rt.stdin(), &mut out, plan) {
        Ok(()) => 0,
        Err(_) => FAULT,
    })
}

// Each entry of the list, as its print has it.
fn entries_of(alloc: Global, hosts: &Hosts) -> Result<Vec<Vec<u8>>, AllocError> {
    let text = print_hosts(alloc, hosts)?;
    let mut entries = Vec::new(alloc);
    let lines = text.as_slice().split(|byte| *byte == b'\n');
    for line in lines.take(hosts.list.len()) {
        entries.push(Vec::from_slice(alloc, line)?)?;
    }
    Ok(entries)
}
