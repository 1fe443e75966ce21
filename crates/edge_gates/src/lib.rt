//! Devices for two threads side by side: a call of one is held until the other was called, so it shows whether they ran
//! at the same time.
#![tactic(auto)]

mod asked;
mod dialer;
mod gate;
mod mark;
mod marked;
mod station;

pub use dialer::{GateDialer, GateLink};
pub use station::GateStation;
