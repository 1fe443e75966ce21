//! The job list of a compile database, and what the program `farm_jobs` calls (docs/compile-database.md).
#![tactic(auto)]

mod choice;
mod database;
mod entry;
mod fault;
mod help;
mod jobs;
mod laws;
mod listing;
mod options;
mod program;
mod shell;

pub use choice::Selection;
pub use database::job_list_of;
pub use fault::{DatabaseError, DatabaseFault};
pub use help::{HELP, VERSION};
pub use laws::one_reading;
pub use program::farm_jobs;
