//! One exchange with a daemon, over any dialer: the request is sent whole, and the reply comes whole or the exchange
//! is broken by a named cause. The object waits in memory, or goes into a file that has no name yet.
#![tactic(auto)]

mod answers;
mod exchange;
mod landing;
mod receiving;

pub use answers::{Attempt, Landed, Landing};
pub use exchange::{attempt, attempt_into};
