//! The generated workload: for a number, that many jobs, each with a source of its own.
#![tactic(auto)]

mod generator;
mod laws;
mod load;
mod texts;

pub use laws::one_file_for_each_job;
pub use load::{Load, make};
