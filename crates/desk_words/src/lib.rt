//! What a caller and the desk of a shared run say to one another: one line each, of ASCII, without its line feed here.
#![tactic(auto)]

mod answer;
mod asking;
mod laws;
mod told;

pub use answer::{Answer, answer_text, parse_answer};
pub use asking::{Asked, Greetings, greeting};
pub use laws::{
    answers_are_read, greetings_are_read, only_answers_are_read, only_greetings_are_read,
    only_tales_are_read, tales_are_read,
};
pub use told::{Told, parse_told, told_text};
