//! The words of the command line of `farm`, and what it reads from the environment (docs/usage.md).
#![tactic(auto)]

mod command;
mod environment;
mod help;
mod laws;
mod name;
mod number;
mod options;
mod share;

pub use command::{Command, parse_command};
pub use environment::{back_off_period, host_text, is_fallback_on, lookup};
pub use help::{help_text, share_help, version_text};
pub use laws::{one_period, one_reading};
pub use name::CommandName;
pub use options::Options;
pub use share::{Share, parse_share};
