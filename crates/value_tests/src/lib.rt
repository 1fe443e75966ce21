//! Tests of the values that the crates hand to one another, and of files in memory.
#![tactic(auto)]

#[cfg(test)]
mod files;
pub mod filled;
#[cfg(test)]
mod same;
#[cfg(test)]
mod values;
