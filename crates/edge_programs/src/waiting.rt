// The wait for a program that runs for others, which may be ended before its time.
ghost use Rattle.std.specs.Prelude.{◌≡◌, ◌≢◌, Err, IfErr, option_map};
ghost use Rattle.std.specs.Duration.{as_nanos};
ghost use Rattle.edge_runs.specs.Commands.{NamesNoStream};
ghost use Rattle.edge_programs.specs.Ends.{early_end, is_late, status_of, pause_nanos};

use crate::notices::{tell_killed, tell_lost};
use edge_runs::RunWatch;
use edge_streams::moment;
use edge_traits::StationFault;
use farm_types::Word;
use std::io::{Eprint, ErrorKind};
use std::os::unix::process::ExitStatusExt;
use std::process::{Child, OpenProcess};
use std::rt::Clock;
use std::thread;
use std::time::Duration;

/// Why a program is ended before its time.
#[derive(Clone, Copy, Debug, PartialEq, Eq)]
pub enum EarlyEnd {
    /// Its peer has gone.
    Gone,
    /// It has run for its lifetime.
    Late,
}

/// How the wait for a program ended.
#[derive(Clone, Copy)]
enum Waited {
    /// The program ended, with this wait status.
    Ended(u32),
    /// It was killed.
    Early(EarlyEnd),
    /// The system doesn't say how it ended.
    Unknown,
}

/// The wait status of a program that ended by itself. If its peer has gone or its lifetime has passed, it is killed, and its run has failed, which is
/// reported. If the system doesn't say whether it has ended, it is killed, and its run has failed.
pub fn wait_watched<R: Clock + Eprint, P: OpenProcess, W: RunWatch>(
    rt: &R,
    child: &mut Child<P>,
    words: &[Word],
    watch: &W,
    lifetime: Option<Duration>,
) -> Result<u32, StationFault>
    ensures fault { IfErr result NamesNoStream }
    ensures memory { result ≢ Err StationFault.Memory }
{
    let waited = wait_for(rt, child, watch, lifetime);
    match waited {
        Waited::Ended(_) => {}
        Waited::Early(end) => {
            end_now(child);
            tell_killed(rt, words, end, lifetime);
        }
        Waited::Unknown => end_now(child),
    }
    status_of(waited)
}

/// Kills a program and waits for its end. One that is known to be gone isn't there to be killed.
fn end_now<P: OpenProcess>(child: &mut Child<P>) {
    let _ = child.kill();
    let _ = child.wait();
}

fn wait_for<R: Clock + Eprint, P: OpenProcess, W: RunWatch>(
    rt: &R,
    child: &mut Child<P>,
    watch: &W,
    lifetime: Option<Duration>,
) -> Waited {
    let begun = moment(rt);
    for _ in 0..u64::MAX {
        match child.try_wait() {
            Ok(Some(status)) => return Waited::Ended(status.into_raw().cast_unsigned()),
            Ok(None) => {}
            Err(error) if error.kind() == ErrorKind::Interrupted => {}
            Err(error) => {
                tell_lost(rt, &error);
                return Waited::Unknown;
            }
        }
        let passed = moment(rt).saturating_sub(begun);
        if let Some(end) = early_end(watch.has_gone(), is_late(passed, lifetime)) {
            return Waited::Early(end);
        }
        thread::sleep(rt, pause_after(passed));
    }
    Waited::Unknown
}

/// What a wait gives the run.
fn status_of(waited: Waited) -> Result<u32, StationFault>
    ensures { result ≡ status_of waited }
{
    match waited {
        Waited::Ended(status) => Ok(status),
        Waited::Early(_) | Waited::Unknown => Err(StationFault::Failed),
    }
}

/// Whether a program is to be ended, and why.
fn early_end(has_gone: bool, is_late: bool) -> Option<EarlyEnd>
    ensures { result ≡ early_end has_gone is_late }
{
    if has_gone {
        Some(EarlyEnd::Gone)
    } else if is_late {
        Some(EarlyEnd::Late)
    } else {
        None
    }
}

/// Whether a program has run for its lifetime when so long has passed.
fn is_late(passed: Duration, lifetime: Option<Duration>) -> bool
    ensures { result ≡ is_late passed lifetime }
{
    match lifetime {
        Some(lifetime) => lifetime.as_nanos() <= passed.as_nanos(),
        None => false,
    }
}

/// How long the next pause lasts when so long has passed. So the end of a short program is seen at once, and a long one wakes this thread seldom.
fn pause_after(passed: Duration) -> Duration
    ensures { as_nanos result ≡ pause_nanos (as_nanos passed) }
{
    let nanos = (passed.as_nanos() / 16).max(100_000).min(20_000_000);
    Duration::from_nanos(nanos as u64)
}
