use edge_traits::Cause;
use farm_types::{Bytes, Items};

/// Who ended a job.
#[derive(Clone, Copy, Debug, PartialEq, Eq)]
pub enum By {
    /// The preprocessor here, which failed.
    Cpp,
    /// The host at this place of the host list, counted from 0.
    Remote(u32),
    /// The compiler here, on the preprocessed source.
    Here,
    /// The whole command, run here unchanged.
    InPlace,
}

/// Why a job failed.
#[derive(Clone, Copy, Debug, PartialEq, Eq)]
pub enum Why5 {
    /// A program could not be run here, or gave too much.
    Station,
    /// The object could not be put.
    Put,
    /// The exchange with the host at this place of the host list broke.
    Broke { host: u32, cause: Cause },
    /// No host was up.
    NoHost,
    /// Memory ran out.
    Memory,
    /// The source could not be fetched.
    Fetch,
}

/// How a job ended.
#[derive(Debug, Drop)]
pub enum End {
    /// A program ended with this Unix wait status and these messages; the note is what the preprocessor wrote to standard error.
    Done {
        status: u32,
        note: Bytes,
        err: Bytes,
        out: Bytes,
        by: By,
    },
    Failed(Why5),
}

/// One thing that a job did. A number of `Ran`, `Fetched`, `Exchanged` and `Put` is the place of the entry among those of the
/// worker's devices, counted from 0 from where the build began.
#[derive(Clone, Copy, Debug, PartialEq, Eq)]
pub enum Event {
    Ran(u32),
    Fetched(u32),
    Exchanged(u32),
    Put(u32),
    Took(u32),
    Gave(u32),
    GaveBad { host: u32, until: u64 },
    Down,
    TookLocal,
    GaveLocal,
}

/// The events of a job, in order.
pub type EventList = Items<Event>;

/// What became of a job: its number, counted from 0, the worker that did it, what it did, and how it ended.
#[derive(Debug, Drop)]
pub struct Report {
    pub number: u32,
    pub worker: u32,
    pub events: EventList,
    pub end: End,
}

/// The reports of a build, in the order of its jobs.
pub type ReportList = Items<Report>;

/// How many entries of each kind a worker's jobs have added so far.
#[derive(Clone, Copy, Debug, PartialEq, Eq)]
pub struct Places {
    pub runs: u32,
    pub fetches: u32,
    pub exchanges: u32,
    pub puts: u32,
}
