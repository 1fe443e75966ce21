//! The slots of the hosts of a farm: how many jobs each host may work at, which host a job gets, and which hosts are in back-off: not used
//! for a while after a failure.
#![tactic(auto)]

mod calls;
mod grant;
mod grants;
pub mod host_backoff;
mod laws;
mod limits;
mod mask;
mod one_thread;
mod slots;
mod state;

pub use calls::{CallEntry, CallList, SlotCall, SlotReply};
pub use grant::{Grant, LocalGrant, Take};
pub use grants::Grants;
pub use laws::{
    draws_in_order, free_where_all_is_back, holds_by_own_calls, permitted_steps, state_agrees,
    takes_tell,
};
pub use limits::Limits;
pub use mask::Mask;
pub use one_thread::OneThread;
pub use slots::Slots;
pub use state::SlotState;
