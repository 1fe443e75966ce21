//! All jobs of a list, done by workers side by side, each with a kit of its own, over slots that they share.
#![tactic(auto)]

mod beside;
mod boards;
mod driver;
mod laws;
mod marker;
mod marks;
mod run;
mod watch;
mod watched;
mod worker;
mod workers;

pub use driver::{Built, build};
pub use laws::run_means;
pub use progress_lines::LineEnd;
pub use watched::{Watched, build_watched};
