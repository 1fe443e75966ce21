//! One job, run over the devices of a kit and the slots that it is granted.
#![tactic(auto)]

mod ending;
mod exchanging;
mod giving;
mod job;
mod journal;
mod lent;
mod local_fallback;
mod preparing;
mod room;
mod sending;
mod step;
mod task;
mod waiting;

pub use job::run_job;
pub use room::{EVENTS_MAX, EventRoom};
