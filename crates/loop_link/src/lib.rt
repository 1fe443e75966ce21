//! A dialer whose peer is the daemon's own service over a station that it holds. The station goes into the link and comes
//! back.
#![tactic(auto)]

mod dialer;
mod exchange;
mod link;
mod once;
mod pipe;
mod serving;

pub use dialer::LoopDialer;
pub use exchange::attempt_over_loop;
pub use link::LoopLink;
