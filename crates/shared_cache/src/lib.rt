//! Stations that share one book of what compiles left.
#![tactic(auto)]

mod book;
mod comparing;
mod desk;
mod held;
mod running;
mod sharing;
mod station;

pub use book::{SharedBook, SharedStats};
pub use sharing::Sharing;
pub use station::{Counts, SharedStation};
