//! The programs of a real system, as a station runs them, for this process or for others. It counts the runs that failed, and shows no content.
#![tactic(auto)]

mod child;
mod files;
mod notices;
mod running;
mod waiting;

pub use child::{ChildStation, ServingRules, WordPolicy};
