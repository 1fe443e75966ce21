//! The slots of a farm, shared among threads: each call is one exchange on the words of a cell, and has its
//! place in one history.
#![tactic(auto)]

mod calls;
mod cell;
mod ends;
mod exchanges;
mod held;
mod rule;
mod words;

pub use cell::{Cell, Pass, Passes};
pub use held::Held;
