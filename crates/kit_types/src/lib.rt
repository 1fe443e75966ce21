//! What is seen of a kit, and the types of a kit's devices, each in one word.
#![tactic(auto)]

mod observed;
mod types;

pub use observed::Observed;
pub use types::{KitOf, KitTypes};
