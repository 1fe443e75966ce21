//! The service of a shared run's desk: it is fed with what its callers' connections say, and its answers are sent to them.
#![tactic(auto)]

mod callers;
mod serving;

pub use callers::{Callers, Came};
pub use serving::serve;
