//! The text of a job list: its commands, one a line, and its faults with their lines (docs/job-list.md).
#![tactic(auto)]

mod fault;
mod laws;
mod line;
mod list;
mod outputs;
mod printing;
mod quotes;
mod text;

pub use fault::{JobError, JobFault};
pub use laws::{one_reading_of_lines, one_reading_of_texts};
pub use line::is_blank;
pub use list::parse;
pub use printing::{are_printable, print_words};
pub use text::{is_job, line_end};
