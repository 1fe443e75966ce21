//! The daemon's workers: each serves the connections of one door, one after the other, and keeps a log of them.
#![tactic(auto)]

mod door;
mod laws;
mod log;
mod meeting;
mod moving;
mod serving;
mod worker;

pub use door::serve_door;
pub use laws::calm_doors_answer_rightly;
pub use log::{DaemonConfig, DaemonLog, DoorKit, Entry, Met};
pub use serving::{serve, serve_first};
