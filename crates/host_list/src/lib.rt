//! The text of a host list: its grammar, its faults with their places, and its print (docs/hosts.md).
#![tactic(auto)]

mod choosing;
mod fault;
mod host;
mod laws;
mod list;
mod meaning;
mod number;
mod parts;
mod printing;
mod shares;
mod text;
mod turning;
mod word;

pub use choosing::only;
pub use fault::{HostError, HostFault};
pub use laws::{one_reading_of_texts, one_reading_of_words};
pub use list::parse;
pub use meaning::Meaning;
pub use number::read_port;
pub use printing::print;
pub use shares::spread;
pub use turning::turned;
pub use word::read_word;
