//! A command that shares the slots of the hosts among its compiles.
#![tactic(auto)]

use desk_real::{StartedDesk, VARIABLE, parse_variable, start_desk};
use edge_real::variable;
use farm_answers::Refusal;
use farm_options::{back_off_period, host_text};
use farm_settings::{HOSTS, variables_of};
use farm_types::exits::{BAD_HOSTS, BAD_WORDS, FAULT, NO_CODE};
use host_list::{HostError, parse};
use refusal_reasons::{Given, tell_refusal};
use std::alloc::{AllocError, Global};
use std::env::Env;
use std::io::{self, Eprint};
use std::os::unix::process::ExitStatusExt;
use std::process::{Child, Command, ExitStatus, Processes};
use std::rt::Files;
use whole_command::{Descriptor, Given as Words, Whole, command_of, handed_descriptors, is_there};

/// Runs a command with a desk of its own, and returns the command's exit status. Below another desk it has none of its own, unless it has a host list.
///
/// `process` is the number of this process.
pub fn run_shared<R: Processes + Env + Files + Eprint + AllocGlobal + Clone + Drop>(
    rt: &R,
    process: u32,
    hosts: Option<&str>,
    command: &[String],
) -> Result<u8, AllocError> {
    if hosts.is_none() && is_below(rt)? {
        return run_command(rt, process, command, None, None);
    }
    let variables = variables_of(rt, None)?;
    run_by(rt, process, hosts, command, variables.as_slice())
}

// Whether this process is below another desk.
fn is_below<R: Env + AllocGlobal>(rt: &R) -> Result<bool, AllocError> {
    let outer = variable(rt, VARIABLE)?;
    Ok(outer.is_some_and(|text| parse_variable(text.as_str()).is_some()))
}

// Runs a command with a desk of its own, unless the variables or the host list are refused.
fn run_by<'a, R: Processes + Env + Files + Eprint + AllocGlobal + Clone + Drop>(
    rt: &R,
    process: u32,
    hosts: Option<&'a str>,
    command: &[String],
    variables: &'a [(String, String)],
) -> Result<u8, AllocError> {
    let text = host_text(hosts, variables);
    if let Some(refusal) = refusal_of(rt.alloc(), variables, text)? {
        let given = Given {
            words: &[],
            command: None,
            hosts,
            variables,
        };
        tell_refusal(rt, given, &refusal);
        return Ok(match refusal {
            Refusal::Hosts { .. } => BAD_HOSTS,
            _ => BAD_WORDS,
        });
    }
    match start_desk(rt, rt.alloc(), text) {
        Ok(desk) => run_command(rt, process, command, Some(desk), Some(text)),
        Err(error) => {
            let _ = eprintln!(rt;
                "farm: the slots aren't shared: the desk can't be started: {error}"
            );
            run_command(rt, process, command, None, Some(text))
        }
    }
}

// Why nothing is run, by the environment and the text of the host list.
fn refusal_of(
    alloc: Global,
    variables: &[(String, String)],
    text: &str,
) -> Result<Option<Refusal>, AllocError> {
    if back_off_period(variables).is_none() {
        return Ok(Some(Refusal::Period));
    }
    match parse(alloc, text.as_bytes()) {
        Ok(_) => Ok(None),
        Err(HostError::Fault { at, fault }) => Ok(Some(Refusal::Hosts { at, fault })),
        Err(HostError::Memory) => Err(AllocError),
    }
}

// Runs a command, with a desk for its compiles and with this host list, and ends as it does. The desk ends with it.
fn run_command<R: Processes + Env + Files + Eprint + AllocGlobal + Clone + Drop>(
    rt: &R,
    process: u32,
    words: &[String],
    mut desk: Option<StartedDesk<R::Started>>,
    hosts: Option<&str>,
) -> Result<u8, AllocError> {
    let status = run_child(rt, process, words, &mut desk, hosts);
    if let Some(desk) = desk {
        desk.end();
    }
    status
}

// Runs a command with the variables of this desk.
fn run_child<R: Processes + Env + Files + Eprint + AllocGlobal + Clone + Drop>(
    rt: &R,
    process: u32,
    words: &[String],
    desk: &mut Option<StartedDesk<R::Started>>,
    hosts: Option<&str>,
) -> Result<u8, AllocError> {
    let variable = desk.as_ref().map(|desk| desk.variable.as_str());
    match start(rt, process, words, variable, hosts)? {
        Ok(mut child) => {
            if let Some(desk) = desk {
                desk.name_command(rt.alloc(), child.id());
            }
            Ok(match child.wait() {
                Ok(status) => status_of(status),
                Err(_) => FAULT,
            })
        }
        Err(error) => {
            let program = words.first().map_or("", |word| word.as_str());
            let _ = eprintln!(rt; "farm: {program}: cannot be started: {error}");
            Ok(FAULT)
        }
    }
}

// Starts a command with the standard streams and the descriptors of this process.
fn start<R: Processes + Env + Files + Eprint + AllocGlobal + Clone + Drop>(
    rt: &R,
    process: u32,
    words: &[String],
    desk: Option<&str>,
    hosts: Option<&str>,
) -> Result<io::Result<Child<R::Started>>, AllocError> {
    let descriptors = handed_descriptors(rt)?;
    let program = words.first().map_or("", |word| word.as_str());
    if !descriptors.is_empty() && is_there(rt, program)? {
        if let Ok(child) = start_with(rt, process, words, descriptors.as_slice(), desk, hosts)? {
            return Ok(Ok(child));
        }
    }
    start_with(rt, process, words, &[], desk, hosts)
}

// Starts a command with the standard streams and these descriptors of this process.
fn start_with<R: Processes + Env + Files + Eprint + AllocGlobal + Clone + Drop>(
    rt: &R,
    process: u32,
    words: &[String],
    descriptors: &[Descriptor],
    desk: Option<&str>,
    hosts: Option<&str>,
) -> Result<io::Result<Child<R::Started>>, AllocError> {
    let whole = Whole {
        given: Words::Words(words),
        process,
        descriptors,
    };
    let mut command = command_for(rt.alloc(), &whole, desk, hosts)?;
    Ok(command.spawn(rt))
}

// The command with the variables by which its compiles find the desk.
fn command_for(
    alloc: Global,
    whole: &Whole<'_>,
    desk: Option<&str>,
    hosts: Option<&str>,
) -> Result<Command, AllocError> {
    let mut command = command_of(alloc, whole)?;
    if let Some(desk) = desk {
        command.env(VARIABLE, desk)?;
    }
    if let Some(hosts) = hosts {
        command.env(HOSTS, hosts)?;
    }
    Ok(command)
}

// The command's own status, or 128 and the signal that ended it.
fn status_of(status: ExitStatus) -> u8 {
    match (status.code(), status.signal()) {
        (Some(code), _) => u8::try_from(code).unwrap_or(NO_CODE),
        (None, Some(signal)) => u8::try_from(signal.saturating_add(128)).unwrap_or(NO_CODE),
        (None, None) => NO_CODE,
    }
}
