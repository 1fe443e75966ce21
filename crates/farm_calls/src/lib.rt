//! What the tests of the call `farm` share: the call and what is seen of it, and the kits that they begin with.
#![tactic(auto)]

mod asking;
mod calls;
mod kits;
mod page;

pub use asking::{Asked, asked_for, strings};
pub use calls::{Seen, call, content_of, told};
pub use kits::{LoopKit, empty_keeper, kit_count, loop_kit, one_kit, standing_clock};
pub use page::Page;
