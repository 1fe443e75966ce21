//! Why a command of `farm` is refused, in plain words, with the word or the line at fault.
#![tactic(auto)]

mod advice;
mod faults;
mod reasons;

pub use reasons::{Given, tell_bad_share, tell_carriage_return, tell_refusal};
