//! Devices in memory, which follow scripts.
#![tactic(auto)]

mod clock;
mod dialer;
mod door;
mod front;
mod keeper;
mod link;
mod moving;
mod never;
mod script;
mod sink;
mod source;
mod station;

pub use clock::{MemClock, MemNeverClock, Moments};
pub use dialer::MemDialer;
pub use door::{MemDoor, Peers};
pub use keeper::MemKeeper;
pub use link::MemLink;
pub use never::dialer::MemNeverDialer;
pub use never::door::MemNeverDoor;
pub use never::keeper::MemNeverKeeper;
pub use never::link::MemNeverLink;
pub use never::sink::MemNeverSink;
pub use never::source::MemNeverSource;
pub use never::station::MemNeverStation;
pub use script::{LinkScript, LinkScripts, Moves};
pub use sink::MemSink;
pub use source::MemSource;
pub use station::{MemStation, RanList};
