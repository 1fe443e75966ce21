//! The rehearsal: the jobs of the generated workload, run in memory over the daemon's own service (docs/rehearsal.md).
#![tactic(auto)]

mod config;
mod keeper;
mod kits;
mod laws;
mod numbers;
mod run;
mod station;
mod workload_runs;

pub use keeper::StillKeeper;
pub use kits::{RehearsalKit, compiler_table};
pub use laws::{loops_answer_as_the_compiler, loops_are_fully_honest};
pub use numbers::Count;
pub use run::{Rehearsed, rehearse};
pub use station::StillStation;
pub use workload_runs::runs_of_jobs;
