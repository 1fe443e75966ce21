//! The program `scc`: what its `main` calls.
#![tactic(auto)]

mod fetching;
mod forms;
mod help;
mod linking;
mod messages;
mod running;
mod top;

pub use help::{HELP, VERSION};
pub use top::scc;
