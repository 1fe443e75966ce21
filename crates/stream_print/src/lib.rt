//! Reads an input; prints texts on two sinks, and says how the printing ended.
#![tactic(auto)]

mod endings;
mod one;
mod pieces;
mod reads;

pub use endings::{complain, finish, no_memory};
pub use one::{PrintStop, print};
pub use pieces::{Piece, SinkKind, print_all, print_piece};
pub use reads::{Input, read_input};
