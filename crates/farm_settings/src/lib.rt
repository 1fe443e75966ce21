//! What `farm` reads of its environment.
#![tactic(auto)]

mod settings;

pub use settings::{FALLBACK, HOSTS, notices_of, variables_of};
