ghost use Rattle.std.specs.Prelude.{◌≡◌, ◌/◌, MatchResult};
ghost use Rattle.std.specs.Time.{system_time_nanos};
ghost use Rattle.edge_streams.specs.Views.{clock_view, runtime_of};

use edge_traits::Clock;
use std::time::{Duration, SystemTime, UNIX_EPOCH};
use std::{io, rt, thread};

/// The system's clock, in seconds since 1970. It gives 0 if the clock can't be read or shows a time before 1970.
#[derive(Drop)]
pub struct WallClock<R> {
    rt: R,
    pause_millis: u64,
}

impl<R: rt::Clock> WallClock<R> {
    /// A clock of this system.
    pub fn new(rt: R) -> WallClock<R>
        ensures { runtime_of result ≡ rt }
    {
        WallClock::pausing(rt, PAUSE_MILLIS)
    }

    /// A clock of this system whose pause lasts that many milliseconds.
    pub fn pausing(rt: R, pause_millis: u64) -> WallClock<R>
        ensures { runtime_of result ≡ rt }
    {
        WallClock { rt, pause_millis }
    }
}

impl<R: rt::Clock> Clock for WallClock<R> {
    ghost shows = { clock_view };

    fn now(&mut self) -> u64 {
        moment_of(SystemTime::now(&self.rt))
    }

    fn pause(&mut self) {
        thread::sleep(&self.rt, Duration::from_millis(self.pause_millis));
    }
}

/// The seconds of a time that was read, and 0 if none was.
fn moment_of(read: io::Result<SystemTime>) -> u64
    ensures { MatchResult read (λ time. result ≡ system_time_nanos time / 1_000_000_000) (λ error. result ≡ 0) }
{
    match read {
        Ok(time) => seconds_since_1970(time),
        Err(_) => 0,
    }
}

/// Whole seconds since 1970, which the time is not before.
fn seconds_since_1970(time: SystemTime) -> u64
    ensures { result ≡ system_time_nanos time / 1_000_000_000 }
{
    match time.duration_since(UNIX_EPOCH) {
        Ok(since) => since.as_secs(),
        Err(_) => 0,
    }
}

/// The moment of the monotonic clock, and 0 if it can't be read.
pub fn moment<R: rt::Clock>(rt: &R) -> Duration {
    rt.monotonic().unwrap_or(Duration::ZERO)
}

/// How many milliseconds a pause lasts if nothing else is said.
pub const PAUSE_MILLIS: u64 = 5;
