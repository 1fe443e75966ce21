// A compile command that is sent as a job.
ghost use Rattle.std.specs.Prelude.{◌≡◌, All, IfOk, None, vec_len};

use crate::run::tell_end;
use cc_command::Job;
use desk_real::Below;
use edge_real::{
    ChildStation, DiskFiles, KitSettings, StdSink, StdSource, SystemKit, TcpDialer, WaitingStream,
    WallClock, own_folder, system_kits,
};
use edge_traits::Kit;
use farm_machine::{Event, Report};
use farm_program::farm;
use farm_settings::notices_of;
use farm_types::exits::STOPPED;
use object_delivery::FileKeeper;
use object_kind::is_driver;
use std::alloc::{AllocError, Global};
use std::process;
use std::sync::Wait;
use std::thread::Threads;
use stream_print::print;
use whole_command::{HeldSink, PreprocessorStation, runs_again};

/// The runtime of what a command starts.
pub type Programs<'a> = Below<'a, HostRuntime>;

// The devices of one job, with this station.
type OneKit<S> = Kit<
    TcpDialer<HostRuntime>,
    S,
    FileKeeper<DiskFiles<HostRuntime>>,
    WallClock<HostRuntime>,
>;

type JobKit<'a> = OneKit<PreprocessorStation<ChildStation<Programs<'a>>>>;

// The devices of the one job. Its station compiles if nothing else would.
fn kits_of<'a>(
    rt: &HostRuntime,
    below: Programs<'a>,
    puts_empty: bool,
    fallback: bool,
) -> Result<Vec<JobKit<'a>>, AllocError>
    ensures one { IfOk result (λ kits. vec_len kits ≡ 1) }
    ensures idle { IfOk result (λ kits. All (λ kit. kit.keeper.pending ≡ None) kits.items) }
{
    let folder = own_folder(rt)?;
    let kit = system_kit(rt, folder.as_str(), puts_empty)?;
    only_kit(
        rt.alloc(),
        Kit {
            dialer: kit.dialer,
            station: PreprocessorStation::new(ChildStation::new(below, folder), !fallback),
            keeper: kit.keeper,
            clock: kit.clock,
        },
    )
}

// One kit of the system's devices.
fn system_kit(
    rt: &HostRuntime,
    folder: &str,
    puts_empty: bool,
) -> Result<SystemKit<HostRuntime>, AllocError>
    ensures idle { IfOk result (λ kit. kit.keeper.pending ≡ None) }
{
    let settings = KitSettings {
        folder,
        process: process::id(rt.process()),
        notices: notices_of(rt)?,
        puts_empty,
    };
    let mut system = system_kits(*rt, rt.alloc(), &settings, 1)?;
    let Some(kit) = system.pop() else {
        unreachable!()
    };
    Ok(kit)
}

// The one kit of a job.
fn only_kit<S: Drop>(alloc: Global, kit: OneKit<S>) -> Result<Vec<OneKit<S>>, AllocError>
    requires idle { kit.keeper.pending ≡ None }
    ensures one { IfOk result (λ kits. vec_len kits ≡ 1) }
    ensures idle { IfOk result (λ kits. All (λ kit. kit.keeper.pending ≡ None) kits.items) }
{
    let mut kits = Vec::new(alloc);
    kits.push(kit)?;
    Ok(kits)
}

/// What became of a job: the exit status, none if its command is run here as it stands; and whether the exchange with its host broke.
#[derive(Clone, Copy)]
pub struct Sent {
    pub status: Option<u8>,
    pub has_broken: bool,
}

/// Sends a command as a job. If it is run here as it stands, nothing was put or printed for it.
pub fn send<'a, W: Threads + Wait + Sync>(
    waits: &W,
    rt: &HostRuntime,
    below: Programs<'a>,
    job: &Job,
    fallback: bool,
) -> Result<Sent, AllocError> {
    // A driver of gcc or clang leaves no empty object.
    let puts_empty = !is_driver(job.driver.as_slice());
    let mut kits = kits_of(rt, below, puts_empty, fallback)?;
    Ok(send_by(waits, rt, &mut kits, job, fallback))
}

// The same, by the devices of one kit.
fn send_by<W: Threads + Wait + Sync>(
    waits: &W,
    rt: &HostRuntime,
    kits: &mut Vec<JobKit<'_>>,
    job: &Job,
    fallback: bool,
) -> Sent
    requires one { vec_len kits.old ≡ 1 }
    requires idle { All (λ kit. kit.keeper.pending ≡ None) kits.old.items }
{
    let alloc = rt.alloc();
    let words = job.words.as_slice();
    let variables = job.variables.as_slice();
    let mut input = StdSource::new(WaitingStream::new(*rt, rt.stdin()));
    let mut out = HeldSink::new(alloc);
    let mut err = HeldSink::new(alloc);
    let ended = farm(
        waits, alloc, words, variables, &mut input, kits, &mut out, &mut err,
    );
    let mut sent = Sent {
        status: None,
        has_broken: false,
    };
    if let [one] = ended.built.as_slice() {
        let reports = one.reports.as_slice();
        sent.has_broken = reports.iter().any(|report| has_broken(report));
        if runs_again(fallback, reports) {
            return sent;
        }
    }
    sent.status = Some(print_held(rt, &err, &out, ended.status));
    tell_end(rt, words, variables, &ended);
    sent
}

// Whether a host was given back whose exchange broke.
fn has_broken(report: &Report) -> bool {
    report
        .events
        .as_slice()
        .iter()
        .any(|event| matches!(event, Event::GaveBad { .. }))
}

// Prints what was held back, and returns this status; or that of a sink that stopped.
fn print_held(rt: &HostRuntime, err: &HeldSink, out: &HeldSink, status: u8) -> u8 {
    let mut errors = StdSink::new(WaitingStream::new(*rt, rt.stderr()));
    let mut output = StdSink::new(WaitingStream::new(*rt, rt.stdout()));
    let printed = print(&mut errors, err.held()).and(print(&mut output, out.held()));
    match printed {
        Ok(()) => status,
        Err(_) => STOPPED,
    }
}
