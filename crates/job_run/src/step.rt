// What a job does next.
ghost use Rattle.std.specs.Prelude.{◌≡◌, [], cond};
ghost use Rattle.farm_machine.specs.declared.reports.By.TheVariants.{Cpp, InPlace};
ghost use Rattle.farm_machine.specs.declared.reports.End.TheVariants.{Done};
ghost use Rattle.farm_machine.specs.Course.{outcome_of};
ghost use Rattle.job_run.specs.declared.step.Step.TheVariants.{Here, Failed};
ghost use Rattle.job_run.specs.Failures.{station_failure, fetch_failure, put_failure};
ghost use Rattle.job_run.specs.Stages.{outcome_in, step_after};

use edge_traits::{Cause, EdgeFault, FetchFault, StationFault};
use farm_machine::{By, End, Why5};
use farm_types::{Bytes, JobConfig, Outcome, Ran};
use remote_transfer::Landing;
use std::alloc::Global;

/// A compile that is done.
#[derive(Drop)]
pub(crate) enum Compiled {
    /// A host did it. With status 0 a put of its object is pending, and with another status none.
    ByHost { host: u32, outcome: Outcome },
    /// It was done on this machine. The outcome has its object, and no put is pending.
    OnThisMachine(Outcome),
}

impl Compiled {
    /// The status that it ended with.
    pub(crate) fn status(&self) -> u32
        ensures { result ≡ (outcome_in self.now).status }
    {
        match self {
            Compiled::ByHost { outcome, .. } | Compiled::OnThisMachine(outcome) => outcome.status,
        }
    }
}

/// What a job does next, whose source is there and of which no compile is begun.
#[derive(Drop)]
pub(crate) enum Step {
    /// It is compiled here.
    Here,
    /// It was compiled: an object of status 0 is put, and another status ends the job.
    Compiled(Compiled),
    /// It has failed.
    Failed(Why5),
}

/// What came of one try.
#[derive(Drop)]
pub(crate) enum Asked {
    /// All hosts that are left are down.
    Down,
    /// The job goes on so.
    Over(Step),
    /// The exchange with this host broke.
    Broke { host: u32, cause: Cause },
}

/// Why a job failed whose program could not be run.
pub(crate) fn why_not_run(fault: StationFault) -> Why5
    ensures { result ≡ station_failure fault }
{
    match fault {
        StationFault::Failed | StationFault::TooMuch { .. } => Why5::Station,
        StationFault::Memory => Why5::Memory,
    }
}

/// Why a job failed whose source could not be fetched.
pub(crate) fn why_not_fetched(fault: FetchFault) -> Why5
    ensures { result ≡ fetch_failure fault }
{
    match fault {
        FetchFault::Failed | FetchFault::Absent | FetchFault::TooMuch { .. } => Why5::Fetch,
        FetchFault::Memory => Why5::Memory,
    }
}

/// Why a job failed whose object could not be put.
pub(crate) fn why_not_put(fault: EdgeFault) -> Why5
    ensures { result ≡ put_failure fault }
{
    match fault {
        EdgeFault::Failed => Why5::Put,
        EdgeFault::Memory => Why5::Memory,
    }
}

/// With fallback the job is compiled here, and else it has failed.
pub(crate) fn here_or(fallback: bool, why: Why5) -> Step
    ensures { result ≡ cond fallback Here (Failed why) }
{
    if fallback {
        Step::Here
    } else {
        Step::Failed(why)
    }
}

/// What follows from a host's whole reply: the outcome is the job's, or the job is compiled here, or a lost object fails it.
pub(crate) fn after_whole(config: &JobConfig, host: u32, outcome: Outcome, landing: Landing) -> Step
    ensures { result ≡ step_after config.now host outcome landing }
{
    if let Landing::Lost = landing {
        return Step::Failed(Why5::Put);
    }
    if outcome.status != 0 && config.fallback && config.retry {
        return Step::Here;
    }
    Step::Compiled(Compiled::ByHost { host, outcome })
}

/// What a run left, as an outcome.
pub(crate) fn outcome_of(ran: Ran) -> Outcome
    ensures { result ≡ outcome_of ran }
{
    Outcome {
        status: ran.status,
        err: ran.err,
        out: ran.out,
        object: ran.object,
    }
}

/// The end of a job whose preprocessor failed.
pub(crate) fn done_by_preprocessor(alloc: Global, ran: Ran) -> End
    ensures { result ≡ Done ran.status [] ran.err [] Cpp }
{
    End::Done {
        status: ran.status,
        note: Bytes::new(alloc),
        err: ran.err,
        out: Bytes::new(alloc),
        by: By::Cpp,
    }
}

/// The end of a job whose whole command was run here.
pub(crate) fn done_in_place(alloc: Global, ran: Ran) -> End
    ensures { result ≡ Done ran.status [] ran.err ran.out InPlace }
{
    End::Done {
        status: ran.status,
        note: Bytes::new(alloc),
        err: ran.err,
        out: ran.out,
        by: By::InPlace,
    }
}
