//! Files in memory, by their paths: those of a keeper in memory, and those that the sample compiler is given.
#![tactic(auto)]

mod files;

pub use files::FileMap;
