//! The laws of the farm machine and of the weave; of one worker's calls, and of all workers' together.
#![tactic(auto)]

mod laws;
mod workers;

pub use laws::{callers_law, machine_law, unread_law, up_law, weave_law};
pub use workers::{driver_law, example, worker_law};
