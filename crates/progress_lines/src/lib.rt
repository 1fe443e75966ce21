//! The lines that report how far the workers of a build have come.
#![tactic(auto)]

mod count;
mod last;
mod line_end;
mod room;
mod text;
mod watching;

pub use count::{Count, count_rows};
pub use last::watch_last;
pub use line_end::LineEnd;
pub use room::LineText;
pub use watching::watch;
