//! The runs of one job on this machine: its preprocessor, its compile, and a whole command in place.
#![tactic(auto)]

mod bounds;
mod running;
mod texts;

pub use running::{compile, in_place, preprocess};
