// A compile command: it is sent as a job, or run here as it stands.
ghost use Rattle.std.specs.Prelude.{◌≡◌, IfSome};
ghost use Rattle.arg_scan.specs.Class.{IsRemote, plan_of};

use crate::sending::send;
use cc_command::{Job, Lent, add_words, compile_command, is_whole, job_of, share_slot};
use desk_real::{Below, SharedRun, VARIABLE, parse_variable, within_text};
use edge_real::variable;
use farm_options::{back_off_period, lookup};
use farm_settings::{FALLBACK, HOSTS};
use farm_types::Host;
use host_list::{HostError, parse};
use std::alloc::AllocError;
use std::env::Env;
use std::io::Eprint;
use std::process::Processes;
use std::rt::Files;
use std::sync::Wait;
use std::thread::Threads;
use std::{fs, process, str};
use whole_command::{Given, Whole, handed_descriptors, is_there, run_whole};

/// Does a compile command, and returns the exit status. It may wait for a slot.
///
/// It runs here as it stands, if it may not be sent, if it has no host or this machine is its first, or if no host compiled it with status 0. All
/// but the first hold with fallback only. Below `farm share` it waits for a slot first, of a host, or of this machine if it may not be sent.
pub fn compile<W: Threads + Wait + Sync>(
    waits: &W,
    rt: &HostRuntime,
    words: Vec<String>,
) -> Result<u8, AllocError> {
    let mut job = job_of(rt, process::id(rt.process()), words)?;
    let place = place_of(rt, &job)?;
    compile_at(waits, rt, &mut job, place)
}

// Does a compile command at its place, with a slot of the desk if there is one.
fn compile_at<W: Threads + Wait + Sync>(
    waits: &W,
    rt: &HostRuntime,
    job: &mut Job,
    place: Place,
) -> Result<u8, AllocError>
    requires plan { IfSome job.old.plan (λ plan. IsRemote job.old.command × (plan ≡ plan_of job.old.command)) }
{
    if let Some(text) = variable(rt, VARIABLE)? {
        if let Some(run) = parse_variable(text.as_str()) {
            return compile_shared(waits, rt, &run, job, place);
        }
    }
    Ok(do_job(waits, rt, None, job, place)?.status)
}

// Does a compile command with a slot of this run, or without one if the desk lends none.
fn compile_shared<W: Threads + Wait + Sync>(
    waits: &W,
    rt: &HostRuntime,
    run: &SharedRun<'_>,
    job: &mut Job,
    place: Place,
) -> Result<u8, AllocError>
    requires plan { IfSome job.old.plan (λ plan. IsRemote job.old.command × (plan ≡ plan_of job.old.command)) }
{
    let Some(slot) = share_slot(rt, run, place.is_here(), &mut job.variables)? else {
        return Ok(do_job(waits, rt, None, job, place)?.status);
    };
    let end = do_below(waits, rt, run, job, place.lent(slot.lent))?;
    slot.leave(end.has_broken);
    Ok(end.status)
}

// Does a compile command that has a slot of this run.
fn do_below<W: Threads + Wait + Sync>(
    waits: &W,
    rt: &HostRuntime,
    run: &SharedRun<'_>,
    job: &mut Job,
    place: Place,
) -> Result<Done, AllocError>
    requires plan { IfSome job.old.plan (λ plan. IsRemote job.old.command × (plan ≡ plan_of job.old.command)) }
{
    let mark = within_text(rt.alloc(), run)?;
    do_job(waits, rt, Some(mark.as_str()), job, place)
}

// How a compile command ended: its exit status, and whether the exchange with its host broke.
#[derive(Clone, Copy)]
struct Done {
    status: u8,
    has_broken: bool,
}

// Does a compile command at its place. What it starts has this other value of `FARM_SHARE`, if it has a slot.
fn do_job<W: Threads + Wait + Sync>(
    waits: &W,
    rt: &HostRuntime,
    mark: Option<&str>,
    job: &mut Job,
    place: Place,
) -> Result<Done, AllocError>
    requires plan { IfSome job.old.plan (λ plan. IsRemote job.old.command × (plan ≡ plan_of job.old.command)) }
{
    let below = Below::new(*rt, mark);
    let fallback = lookup(job.variables.as_slice(), FALLBACK) != Some("0");
    if place == Place::Here || place.is_first() && fallback {
        let asked = compile_command(job.words.as_slice()).unwrap_or(&[]);
        return Ok(Done {
            status: run_here(&below, rt, Given::Words(asked))?,
            has_broken: false,
        });
    }
    let count = job.words.len();
    if let Some(plan) = &job.plan {
        add_words(
            rt,
            &mut job.words,
            &job.command,
            plan,
            job.driver.as_slice(),
        )?;
    }
    let sent = send(waits, rt, below, job, fallback)?;
    let status = match sent.status {
        Some(status) => status,
        None => {
            let asked = job.words.get(1..count).unwrap_or(&[]);
            run_here(&below, rt, Given::Words(asked))?
        }
    };
    Ok(Done {
        status,
        has_broken: sent.has_broken,
    })
}

// Where a command is done.
#[derive(Clone, Copy, PartialEq, Eq)]
enum Place {
    /// Here, as it stands.
    Here,
    /// Here, since no host is named.
    NoHost,
    /// Here first of all: the first host is this machine.
    HereFirst,
    /// On a host, or as the environment's fault says.
    Host,
}

impl Place {
    // Whether no host is asked for it.
    fn is_here(self) -> bool {
        matches!(self, Place::Here | Place::NoHost)
    }

    // Whether it is done here if nothing forbids that.
    fn is_first(self) -> bool {
        matches!(self, Place::NoHost | Place::HereFirst)
    }

    // Where a command of this place is done by the slot that it was lent.
    fn lent(self, lent: Lent) -> Place {
        if self.is_here() {
            return self;
        }
        match lent {
            Lent::Here => Place::NoHost,
            Lent::Local => Place::HereFirst,
            Lent::Host => Place::Host,
        }
    }
}

fn place_of(rt: &HostRuntime, job: &Job) -> Result<Place, AllocError> {
    let variables = job.variables.as_slice();
    let Some(_period) = back_off_period(variables) else {
        return Ok(Place::Host);
    };
    match parse(
        rt.alloc(),
        lookup(variables, HOSTS).unwrap_or("").as_bytes(),
    ) {
        Err(HostError::Fault { .. }) => Ok(Place::Host),
        Err(HostError::Memory) => Err(AllocError),
        Ok(hosts) => match &job.plan {
            Some(plan) if !is_whole(rt, &job.command, plan, job.driver.as_slice())? => {
                Ok(first_of(hosts.list.as_slice()))
            }
            _ => Ok(Place::Here),
        },
    }
}

// Where a command is done that may be sent. The one job is given the first entry: nobody else takes a slot of it, and this machine isn't left alone.
fn first_of(hosts: &[Host]) -> Place {
    match hosts {
        [] => Place::NoHost,
        [Host { local: true, .. }, ..] => Place::HereFirst,
        _ => Place::Host,
    }
}

/// Does a compile command that has a word which isn't UTF-8: it runs here as it stands. None if the command line has another command.
pub fn compile_unread(rt: &HostRuntime) -> Result<Option<u8>, AllocError> {
    let Ok(line) = fs::read(rt, "/proc/self/cmdline") else {
        return Ok(None);
    };
    let mut words = line.as_slice().split(|byte| *byte == 0).skip(1);
    if words.next() != Some(b"cc") {
        return Ok(None);
    }
    let program = words.next().and_then(|word| str::from_utf8(word).ok());
    if let Some(program) = program {
        if !is_there(rt, program)? {
            // Its start fails, and says so.
            let program = String::from_str(rt.alloc(), program)?;
            return Ok(Some(run_here(rt, rt, Given::Words(&[program]))?));
        }
    }
    Ok(Some(run_here(rt, rt, Given::OwnLine)?))
}

// Runs a command here as it stands.
fn run_here<R: Processes + Env + Files + Eprint + AllocGlobal>(
    below: &R,
    rt: &HostRuntime,
    given: Given<'_>,
) -> Result<u8, AllocError> {
    let descriptors = handed_descriptors(rt)?;
    let whole = Whole {
        given,
        process: process::id(rt.process()),
        descriptors: descriptors.as_slice(),
    };
    run_whole(below, &whole)
}
