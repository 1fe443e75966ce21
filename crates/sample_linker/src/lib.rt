//! The linker and the runner of the sample language (docs/sample-linker.md).
#![tactic(auto)]

mod circle;
mod cut;
mod faults;
mod file;
mod kind;
mod laws;
mod line;
mod linking;
mod name_table;
mod ordering;
mod placing;
mod running;
mod stack;
mod waiting;
mod word;

pub use faults::{LinkFault, Linked};
pub use laws::{
    images_of_orders, linked_sources, objects_of_sources, one_assignment, right_texts_read,
};
pub use linking::link;
pub use running::{RunFault, Value, run};
