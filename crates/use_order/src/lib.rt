//! Items under names, the latest used first, within a number of bytes. A lookup, a use, a put and a drop from the end take a
//! time that doesn't grow with the number of items.
#![tactic(auto)]

mod order;

pub use order::{Name, UseOrder, Weighed};
