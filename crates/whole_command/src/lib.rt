//! The command of `farm cc` as it is: when it is run here in place of a job, and how.
#![tactic(auto)]

mod again;
mod clang;
mod gcc;
mod handed;
mod held;
mod outputs;
mod passed;
mod programs;
mod running;
mod source_text;
mod station;
mod words;

pub use again::runs_again;
pub use clang::{needs_folder, needs_quiet, records_words};
pub use gcc::needs_marks;
pub use handed::handed_descriptors;
pub use held::HeldSink;
pub use outputs::{Found, found_at, takes_whole_command};
pub use passed::passes_option;
pub use programs::{driver_of, is_there};
pub use running::run_whole;
pub use source_text::{has_marks, needs_source, quotes_source};
pub use station::PreprocessorStation;
pub use words::{Descriptor, Given, Mode, Whole, command_of};
