//! Which words of a command a station lets through that serves others.
#![tactic(auto)]

mod assembler;
mod back_end;
mod folders;
mod lists;
mod operand;
mod pieces;
mod reaching;
mod served;
mod spellings;
mod words;

pub use folders::is_tool_folder;
pub use served::first_unserved;
