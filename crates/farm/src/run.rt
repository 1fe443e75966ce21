// A run of `farm` over the devices of the system.
ghost use Rattle.std.specs.Prelude.{◌≡◌, All, IfOk, None, vec_len};
ghost use Rattle.farm_types.specs.Limits.{workers_max};

use edge_real::{
    KitSettings, PAUSE_MILLIS, StdSink, StdSource, SystemKit, WaitingStream, own_folder, watch_kits,
};
use farm_options::{Command, parse_command};
use farm_program::{Ended, farm};
use farm_settings::{notices_of, variables_of};
use farm_types::limits::WORKERS_MAX;
use kept_input::MarkedSource;
use refusal_reasons::{Given, tell_carriage_return, tell_refusal};
use std::alloc::AllocError;
use std::process;
use std::sync::Wait;
use std::thread::Threads;

/// How many milliseconds a pause lasts between two looks at how far a build has come; a line follows after 100 of them.
const LOOK_MILLIS: u64 = 10;

/// How many milliseconds a pause of the last kit's clock lasts: on that clock the lines which show a build wait for one another.
fn last_pause(words: &[String]) -> u64 {
    if is_watched(words) {
        LOOK_MILLIS
    } else {
        PAUSE_MILLIS
    }
}

// Whether the words of the command line ask for a build that shows how far it has come.
fn is_watched(words: &[String]) -> bool {
    matches!(parse_command(words), Ok(Command::Watch(_)))
}

/// Says in plain words why a run was refused, if it was.
pub fn tell_end<'a>(
    rt: &HostRuntime,
    words: &'a [String],
    variables: &'a [(String, String)],
    ended: &Ended,
) {
    if let Some(refusal) = &ended.refusal {
        let given = Given {
            words,
            command: parse_command(words).ok(),
            hosts: None,
            variables,
        };
        tell_refusal(rt, given, refusal);
    }
}

/// Runs `farm` on these words, the environment and the standard streams, and returns the exit status. It may wait for a slot.
pub fn run<W: Threads + Wait + Sync>(
    waits: &W,
    rt: &HostRuntime,
    words: &[String],
) -> Result<u8, AllocError> {
    let variables = variables_of(rt, None)?;
    let mut kits = kits_for(rt, words)?;
    Ok(run_by(waits, rt, words, variables.as_slice(), &mut kits))
}

// The devices of all workers.
fn kits_for(rt: &HostRuntime, words: &[String]) -> Result<Vec<SystemKit<HostRuntime>>, AllocError>
    ensures count { IfOk result (λ kits. vec_len kits ≡ workers_max) }
    ensures idle { IfOk result (λ kits. All (λ kit. kit.keeper.pending ≡ None) kits.items) }
{
    let folder = own_folder(rt)?;
    let settings = KitSettings {
        folder: folder.as_str(),
        process: process::id(rt.process()),
        notices: notices_of(rt)?,
        puts_empty: true,
    };
    watch_kits(
        *rt,
        rt.alloc(),
        &settings,
        WORKERS_MAX - 1,
        last_pause(words),
    )
}

// Runs `farm` with these devices.
fn run_by<W: Threads + Wait + Sync>(
    waits: &W,
    rt: &HostRuntime,
    words: &[String],
    variables: &[(String, String)],
    kits: &mut Vec<SystemKit<HostRuntime>>,
) -> u8
    requires count { vec_len kits.old ≡ workers_max }
    requires idle { All (λ kit. kit.keeper.pending ≡ None) kits.old.items }
{
    let mut input = MarkedSource::new(StdSource::new(WaitingStream::new(*rt, rt.stdin())));
    let mut out = StdSink::new(WaitingStream::new(*rt, rt.stdout()));
    let mut err = StdSink::new(WaitingStream::new(*rt, rt.stderr()));
    let ended = farm(
        waits,
        rt.alloc(),
        words,
        variables,
        &mut input,
        kits,
        &mut out,
        &mut err,
    );
    tell_end(rt, words, variables, &ended);
    if let Some(line) = input.returned() {
        tell_carriage_return(rt, line);
    }
    ended.status
}
