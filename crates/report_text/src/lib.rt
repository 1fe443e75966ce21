//! The printed text of a build's reports, and its exit status.
#![tactic(auto)]

mod ends;
mod numbers;
mod pieces;

pub use numbers::{number_of, status};
pub use pieces::{Printed, command_lines, is_done, lines, lines_at, skipped, total, total_of};
