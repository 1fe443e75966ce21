//! The words of a command that are sent, those that preprocess its source, and those that compile what was sent. And what is to be known of a command
//! before it is done: that it reads standard input, and that it would replace its source.
#![tactic(auto)]

mod cpp;
mod input;
mod overwriting;
mod placing;
mod push;
mod sent;

pub use cpp::cpp_words;
pub use input::reads_input;
pub use overwriting::{Names, source_and_output};
pub use placing::placed;
pub use sent::{is_remote, strip, strip_to};
