//! The values that the crates of the farm hand to one another, and their limits.
#![tactic(auto)]

mod bytes;
mod copying;
mod decimals;
pub mod exits;
mod hosts;
mod items;
mod jobs;
pub mod limits;
mod placed;
mod ran;
mod request;
mod trail;

pub use bytes::Bytes;
pub use copying::TryCopy;
pub use decimals::{read_decimal, read_plain_decimal};
pub use exits::exit_code;
pub use hosts::{Host, HostName, HostVec, Hosts};
pub use items::Items;
pub use jobs::{JobConfig, Jobs};
pub use placed::{Ext, PlacedWords, Word};
pub use ran::{Outcome, Ran};
pub use request::{Request, Words};
pub use trail::{Room, Trail};
