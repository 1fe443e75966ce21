//! The devices of `farm share` over the system: the connections of its desk, the processes that it starts, and a caller's side.
#![tactic(auto)]

mod asking;
mod below;
mod place;
mod places;
mod room;
mod serving;
mod starting;
mod variable;
mod watch;

pub use asking::{Granted, Seat, ask};
pub use below::Below;
pub use room::DeskRoom;
pub use serving::{DeskPlan, serve_desk};
pub use starting::{DESK_WORD, StartedDesk, start_desk};
pub use variable::{SharedRun, VARIABLE, parse_variable, within_text};
