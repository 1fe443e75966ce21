//! The program `farmd`: the call `farmd` over the devices of the system.
#![tactic(auto)]

mod beginning;

ghost use Rattle.std.specs.Prelude.{◌≡◌, ◌≤◌, length, map, IfOk, IfSome, IsSomeAnd, string_bytes};
ghost use Rattle.farm_types.specs.Limits.{workers_max};
ghost use Rattle.farmd.specs.Policies.{IsPolicyFor};
ghost use Rattle.edge_programs.specs.Views.{policy_of as station_policy};

use access_list::AccessList;
use beginning::{is_root, tell_beginning, tell_folder};
use child_ends::{Kind, start_again};
use daemon_program::{DoorPlace, door_place, farmd};
use daemon_worker::DoorKit;
use edge_real::{
    ChildStation, ErrorLines, HeldStreams, RunNotes, ServingRules, SharedNotes, SharedWatch,
    StdSink, TcpDoor, Unhindered, WaitingStream, WordPolicy, command_words, current_folder,
    own_folder,
};
use farm_types::exits::{FAULT, NO_MEMORY};
use farmd_options::{
    Command, Options, parse_words, rules_of, settings_of, tools_of, trusts_options,
};
use log::warn;
use std::alloc::AllocError;
use std::net::{TcpListener, TcpStream};
use std::process::{self, ExitCode};
use std::sync::Arc;
use std::time::Duration;

/// The doors and stations of the system.
type SystemDoor<'a> = DoorKit<ListeningDoor<'a>, ChildStation<System<'a>, Option<SystemWatch<'a>>>>;

type SystemWatch<'a> = SharedWatch<System<'a>, TcpListener, TcpStream>;

/// The system, whose lines on standard error hold no door up.
type System<'a> = Unhindered<'a, HostRuntime>;

type ListeningDoor<'a> = TcpDoor<System<'a>, TcpListener, TcpStream>;

// The words of the command line. If one isn't UTF-8, they are one word that is no option.
fn words_of(rt: &HostRuntime) -> Result<Vec<String>, AllocError> {
    if let Some(words) = command_words(rt)? {
        return Ok(words);
    }
    let mut words = Vec::new(rt.alloc());
    words.push(String::new(rt.alloc()))?;
    Ok(words)
}

// The exit status, if this program had to be started again, so that the system keeps the ends of its compiles.
fn started_again(rt: &HostRuntime) -> Result<Option<u8>, AllocError> {
    match command_words(rt)? {
        Some(words) => start_again(
            rt,
            process::id(rt.process()),
            Kind::Daemon,
            words.as_slice(),
        ),
        None => Ok(None),
    }
}

// What the words say, if they are to serve.
fn options_of(words: &[String]) -> Option<Options> {
    match parse_words(words) {
        Ok(Command::Serve(options)) => Some(options),
        Ok(Command::Help | Command::Version) | Err(_) => None,
    }
}

// Which words of a request a station runs.
fn policy_of(rt: &HostRuntime, words: &[String]) -> Result<WordPolicy, AllocError>
    ensures { IfOk result (IsPolicyFor (map string_bytes words.now)) }
{
    if trusts_options(words) {
        return Ok(WordPolicy::AllWords);
    }
    Ok(WordPolicy::ServedWords {
        tools: tools_of(rt.alloc(), settings_of(words))?,
    })
}

// How long a compile may take, if that is bounded.
fn lifetime_of(words: &[String]) -> Option<Duration> {
    let seconds = options_of(words)?.job_lifetime()?;
    Some(Duration::from_secs(u64::from(seconds)))
}

// How a station serves others, by these words.
fn serving_rules(rt: &HostRuntime, words: &[String]) -> Result<ServingRules, AllocError>
    ensures { IfOk result (λ rules. IsPolicyFor (map string_bytes words.now) rules.policy) }
{
    Ok(ServingRules {
        policy: policy_of(rt, words)?,
        lifetime: lifetime_of(words),
    })
}

// Who is let in, as the words say.
fn access_of(rt: &HostRuntime, words: &[String]) -> Result<AccessList, AllocError> {
    Ok(AccessList {
        rules: rules_of(rt.alloc(), settings_of(words))?,
    })
}

// Whether results are kept, so that an answer may come from a cache.
fn has_cache(words: &[String]) -> bool {
    matches!(options_of(words), Some(options) if options.cache.is_some() || options.shared.is_some())
}

// Whether any machine that reaches this one may be served: no rule says who is, and the address isn't of this machine alone.
fn lets_all_in(options: &Options) -> bool {
    options.rules == 0 && options.listen() >> 24 != LOOPBACK
}

/// The first number of the addresses by which a machine reaches itself.
const LOOPBACK: u32 = 127;

// A door, and the watch for the runs of its connections. If the system gives none, they go on without.
fn watched<'a>(
    rt: &HostRuntime,
    door: ListeningDoor<'a>,
) -> Result<(ListeningDoor<'a>, Option<SystemWatch<'a>>), AllocError> {
    let Ok(watch) = door.watch(rt.alloc()) else {
        warn!(rt; "a door doesn't see that a peer goes");
        return Ok((door, None));
    };
    let watch: SystemWatch<'a> = Arc::new(rt.alloc(), watch)?;
    Ok((door.watching(Arc::try_clone(&watch)?), Some(watch)))
}

// The folders that a station needs, and how it serves others.
#[derive(Drop)]
struct Places {
    folder: String,
    here: String,
    rules: ServingRules,
}

fn places_for(rt: &HostRuntime, words: &[String]) -> Result<Places, AllocError>
    ensures { IfOk result (λ places. IsPolicyFor (map string_bytes words.now) places.rules.policy) }
{
    let folder = own_folder(rt)?;
    let here = current_folder(rt)?;
    let rules = serving_rules(rt, words)?;
    Ok(Places {
        folder,
        here,
        rules,
    })
}

// The notes that a door shares with its station.
fn notes(rt: &HostRuntime) -> Result<SharedNotes, AllocError> {
    let folder = own_folder(rt)?;
    Ok(Arc::new(rt.alloc(), RunNotes::new(rt.alloc(), folder))?)
}

// A door that shares these notes.
fn noting<'a>(
    door: ListeningDoor<'a>,
    notes: &SharedNotes,
    words: &[String],
) -> Result<ListeningDoor<'a>, AllocError> {
    let notes = Arc::try_clone(notes)?;
    Ok(door.noting(notes, has_cache(words)))
}

// A door and a station for it, which runs what others send. The folders of its runs are in the system's folder for such files, and the door removes
// them.
fn kit_of<'a>(
    rt: &HostRuntime,
    system: System<'a>,
    door: ListeningDoor<'a>,
    words: &[String],
) -> Result<SystemDoor<'a>, AllocError>
    ensures { IfOk result (λ kit. IsSomeAnd (station_policy kit.station) (IsPolicyFor (map string_bytes words.now))) }
{
    let notes = notes(rt)?;
    let door = noting(door, &notes, words)?;
    let (door, watch) = watched(rt, door)?;
    kit_with(rt, system, door, words, (notes, watch))
}

// The same, with what the door shares with its station.
fn kit_with<'a>(
    rt: &HostRuntime,
    system: System<'a>,
    door: ListeningDoor<'a>,
    words: &[String],
    shared: (SharedNotes, Option<SystemWatch<'a>>),
) -> Result<SystemDoor<'a>, AllocError>
    ensures { IfOk result (λ kit. IsSomeAnd (station_policy kit.station) (IsPolicyFor (map string_bytes words.now))) }
{
    let Places {
        folder,
        here,
        rules,
    } = places_for(rt, words)?;
    let (notes, watch) = shared;
    Ok(DoorKit {
        door,
        station: ChildStation::serving(system, folder, here, rules, Some(notes), watch),
    })
}

// That many doors on one listener.
fn open_doors<'a>(
    rt: &HostRuntime,
    system: System<'a>,
    first: ListeningDoor<'a>,
    count: u32,
    words: &[String],
) -> Result<Vec<SystemDoor<'a>>, AllocError>
    requires { 1 ≤ count }
    ensures { IfOk result (λ doors. length doors.items ≡ count) }
{
    let mut doors = Vec::new(rt.alloc());
    for _ in 1..count {
        doors.push(kit_of(rt, system, first.share(), words)?)?;
    }
    doors.push(kit_of(rt, system, first, words)?)?;
    Ok(doors)
}

// The doors at a place. If `farmd` isn't to serve, there is one that is closed.
fn doors_at<'a>(
    rt: &HostRuntime,
    system: System<'a>,
    words: &[String],
    place: Option<DoorPlace>,
    access: AccessList,
) -> Result<Vec<SystemDoor<'a>>, AllocError>
    requires { IfSome place (λ place. place.doors ≤ workers_max) }
    ensures some { IfOk result (λ doors. 1 ≤ length doors.items) }
    ensures few { IfOk result (λ doors. length doors.items ≤ workers_max) }
{
    match place {
        Some(place) if 0 < place.doors => {
            let first = TcpDoor::open(system, rt.alloc(), place.addr, place.port, access);
            if !first.is_open() {
                warn!(rt; "cannot listen");
                first.tell_refusal();
            }
            if let Some(port) = first.port() {
                tell_beginning(rt, words, &place, port)?;
            }
            open_doors(rt, system, first, place.doors, words)
        }
        _ => open_doors(rt, system, TcpDoor::closed(system), 1, words),
    }
}

// The doors that the words ask for.
fn doors_of<'a>(
    rt: &HostRuntime,
    lines: &'a ErrorLines,
    words: &[String],
) -> Result<Vec<SystemDoor<'a>>, AllocError>
    ensures some { IfOk result (λ doors. 1 ≤ length doors.items) }
    ensures few { IfOk result (λ doors. length doors.items ≤ workers_max) }
{
    tell_dangers(rt, words)?;
    let access = access_of(rt, words)?;
    let place = door_place(words);
    doors_at(rt, Unhindered::new(*rt, lines), words, place, access)
}

// Says what whoever starts this program may not have meant, if the words ask for a daemon.
fn tell_dangers(rt: &HostRuntime, words: &[String]) -> Result<(), AllocError> {
    let Some(options) = options_of(words) else {
        return Ok(());
    };
    if lets_all_in(&options) {
        warn!(rt; "every peer is let in, since no rule says who is");
    }
    if is_root(rt) {
        warn!(rt; "the compilers run as root, since farmd does");
    }
    tell_folder(rt, own_folder(rt)?.as_str());
    Ok(())
}

// Says that memory ran out before anything was served.
fn no_memory(rt: &HostRuntime) -> ExitCode {
    let _ = println!(rt; "farmd: no memory");
    ExitCode::from(NO_MEMORY)
}

// Runs `farmd` on the program's words and standard output, and ends with its status.
fn main(rt: HostRuntime) -> ExitCode {
    let Ok(_held) = HeldStreams::take(&rt) else {
        let _ = eprintln!(rt; "farmd: neither / nor /dev/null can be opened");
        return ExitCode::from(FAULT);
    };
    match started_again(&rt) {
        Ok(None) => {}
        Ok(Some(status)) => return ExitCode::from(status),
        Err(AllocError) => return no_memory(&rt),
    }
    let Ok(lines) = ErrorLines::new(&rt, rt.alloc()) else {
        return no_memory(&rt);
    };
    let Ok(words) = words_of(&rt) else {
        return no_memory(&rt);
    };
    let Ok(mut doors) = doors_of(&rt, &lines, words.as_slice()) else {
        return no_memory(&rt);
    };
    let mut out = StdSink::new(WaitingStream::new(rt, rt.stdout()));
    ExitCode::from(farmd(&rt, rt.alloc(), words.as_slice(), &mut doors, &mut out))
}
