//! A task and a copy, each as fast as it was in some rounds.

ghost use Rattle.std.specs.Prelude.{◌≡◌, ◌*◌, ◌/◌, ◌^◌, ◌<◌};

use std::alloc::Global;
use std::rt::Runtime;
use std::time::Instant;

const ROUNDS: u32 = 5;

/// What is measured. Each of its calls says whether it was done. It isn't if memory ran out.
pub trait Measured {
    /// A plain copy of as many bytes as the task has.
    fn copy(&self, alloc: Global) -> bool;

    /// The task.
    fn run(&self, alloc: Global) -> bool;
}

#[derive(Clone, Copy)]
enum Part {
    Copy,
    Task,
}

/// Microseconds of the fastest round.
#[derive(Clone, Copy)]
struct Times {
    task: u64,
    copy: u64,
}

impl Times {
    /// How many hundredths of a copy the task takes. If the copy takes no time it is 0.
    fn hundredths(self) -> u64
        ensures none { self.copy ≡ 0 → result ≡ 0 }
        ensures exact { 0 < self.copy → self.task * 100 < 2 ^ 64 → result ≡ self.task * 100 / self.copy }
    {
        self.task
            .saturating_mul(100)
            .checked_div(self.copy)
            .unwrap_or(0)
    }
}

fn time<M: Measured, R: Runtime>(
    rt: &R,
    alloc: Global,
    part: Part,
    measured: &M,
) -> anyhow::Result<u64> {
    let start = Instant::now(rt)?;
    let done = match part {
        Part::Copy => measured.copy(alloc),
        Part::Task => measured.run(alloc),
    };
    let taken = start.elapsed(rt)?.as_micros();
    if !done {
        anyhow::bail!("the text wasn't written or read");
    }
    Ok(u64::try_from(taken).unwrap_or(u64::MAX))
}

/// Makes the task and a copy alternately.
fn measure<M: Measured, R: Runtime>(rt: &R, alloc: Global, measured: &M) -> anyhow::Result<Times> {
    let mut times = Times {
        task: u64::MAX,
        copy: u64::MAX,
    };
    for _ in 0..ROUNDS {
        times.copy = times.copy.min(time(rt, alloc, Part::Copy, measured)?);
        times.task = times.task.min(time(rt, alloc, Part::Task, measured)?);
    }
    Ok(times)
}

/// Measures the task, and prints a line with its name.
pub fn report<M: Measured, R: Runtime>(
    rt: &R,
    alloc: Global,
    name: &str,
    measured: &M,
) -> anyhow::Result<()> {
    let times = measure(rt, alloc, measured)?;
    let hundredths = times.hundredths();
    let (whole, rest) = (hundredths / 100, hundredths % 100);
    let (taken, copy) = (times.task, times.copy);
    println!(rt; "{name}: {whole}.{rest:02} copies ({taken} us, a copy {copy} us)")?;
    Ok(())
}
