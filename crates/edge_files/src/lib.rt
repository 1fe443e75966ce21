//! The files of a real system. They count the calls that failed, and show no content.
#![tactic(auto)]

mod disk;
mod goals;
mod notices;
mod own_files;
mod staging;

pub use disk::{DiskFiles, load};
pub use notices::tell_unput;
