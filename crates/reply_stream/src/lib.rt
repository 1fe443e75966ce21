//! Reading a reply in pieces of any size, as docs/wire.md gives it. The bytes of the object aren't kept: the answer for each piece says
//! which of its bytes are the object's.
#![tactic(auto)]

mod answers;
mod partial;
mod reader;

pub use answers::{Part, Span};
pub use reader::ReplyReader;
