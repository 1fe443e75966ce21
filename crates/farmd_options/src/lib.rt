//! The words of the command line of `farmd` (docs/daemon.md).
#![tactic(auto)]

mod command;
mod help;
mod laws;
mod name;
mod options;
mod reading;
mod setting;
mod tables;

pub use command::{Command, DoorPlace, door_place, parse_words, settings_of, trusts_options};
pub use help::{help_text, version_text};
pub use laws::one_reading;
pub use name::OptionName;
pub use options::Options;
pub use tables::{compilers_of, rules_of, tools_of};
