//! A start in which the system keeps the ends of children, though whoever started this program has it ignore SIGCHLD.
#![tactic(auto)]

mod ignored;
mod starting;

pub use ignored::ignores_ends;
pub use starting::{Kind, start_again};
