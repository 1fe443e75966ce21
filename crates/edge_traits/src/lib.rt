//! What the farm asks of the outside, as traits whose ghost members say what was asked and answered.
#![tactic(auto)]

mod calls;
mod cause;
mod clock;
mod dialer;
mod door;
mod entries;
mod faults;
mod keeper;
mod kit;
mod laws;
mod link;
mod sending;
mod sink;
mod source;
mod staged;
mod station;

pub use calls::{CallNumbers, Calls, none_of, raised};
pub use cause::Cause;
pub use clock::Clock;
pub use dialer::Dialer;
pub use door::Door;
pub use entries::{Exchange, Fetch, Put, Run, Visit};
pub use faults::{Bounds, COMPILE_BOUNDS, EdgeFault, FetchFault, StationFault, Stream};
pub use file_map::FileMap as FileList;
pub use keeper::Keeper;
pub use kit::Kit;
pub use laws::one_reading_of_exchanges;
pub use link::Link;
pub use sending::{SendFault, send_all};
pub use sink::Sink;
pub use source::Source;
pub use staged::is_staged;
pub use station::{Station, has_output};
