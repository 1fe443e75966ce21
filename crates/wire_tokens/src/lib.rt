//! The wire between `farm` and its daemon: tokens, the texts of requests and replies, the faults
//! of a text, and the laws of all these. The whole format is in docs/wire.md.
#![tactic(auto)]

mod faults;
mod laws;
mod names;
mod partial;
mod token;
mod writing;

pub use faults::{ReplyFault, RequestFault, Which};
pub use laws::{one_reading_of_replies, one_reading_of_requests};
pub use names::{ARGC, ARGV, DIST, DONE, DOTI, DOTO, SERR, SOUT, STAT};
pub use partial::PartialToken;
pub use token::{Name4, Scan, TokenFault, read_token, scan_token, write_token};
pub use writing::{push_body, push_token};
