//! A command of `farm cc` before it is done: its job, and the slot that it is lent.
#![tactic(auto)]

mod job;
mod sharing;

pub use job::{Job, add_words, compile_command, is_whole, job_of};
pub use sharing::{Lent, SharedSlot, share_slot};
