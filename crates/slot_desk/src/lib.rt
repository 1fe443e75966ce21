//! The desk of a shared run: which of the callers that ask at it has a slot of which host, who waits, and which hosts aren't used for a
//! while. The slots themselves are those of `slot_table`.
#![tactic(auto)]

mod desk;
mod event;
mod known;
mod laws;
mod serving;

pub use desk::Desk;
pub use event::{Event, Loan, Place, Reply, Waiter};
pub use laws::{
    broken_is_not_used, here_only_without_hosts, lent_as_told, loans_agree,
    nobody_waits_beside_a_slot, served_if_nothing_is_lent, served_in_order, within_holds_nothing,
};
