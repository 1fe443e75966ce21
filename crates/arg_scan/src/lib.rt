//! The class of a compiler's command: it stays on this machine, and why, or it may be sent, and how.
#![tactic(auto)]

mod class;
mod command;
mod names;
mod part;
mod seen;
mod verdict;
mod why;

pub use class::Scan;
pub use command::{derived_output, output_name, scan};
pub use names::{Ending, ending_of, is_reserved, last_name};
pub use part::{Operand, Part, Role, part_of};
pub use verdict::{Action, OutputPlace, Plan, Verdict, classify, remote_plan};
pub use why::Why;
