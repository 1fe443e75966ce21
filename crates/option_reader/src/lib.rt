//! The reading of options: one walk for every command line (docs/command-words.md).
#![tactic(auto)]

mod finding;
mod laws;
mod table;
mod walk;

pub use finding::{stands, value_of};
pub use laws::one_reading;
pub use table::{OptionTable, Row};
pub use walk::check_options;
