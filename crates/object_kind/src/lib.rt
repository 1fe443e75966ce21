//! Whether bytes are an object of the kind that a compile asks for.
#![tactic(auto)]

mod asked;
mod driver;
mod formats;

pub use asked::{is_asked_kind, is_filled};
pub use driver::is_driver;
