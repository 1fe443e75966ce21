//! The program `farmd`: what its `main` calls.
#![tactic(auto)]

mod books;
mod lines;
mod output;
mod printing;
mod share_printing;
mod sharing;
mod status;
mod top;

pub use farmd_options::{DoorPlace, door_place, trusts_options};
pub use top::farmd;
