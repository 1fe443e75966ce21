//! The sample compiler: its preprocessor, its objects, and what it does over files (docs/sample-compiler.md).
#![tactic(auto)]

mod compiler;
mod defines;
mod directive;
mod expand;
mod leaving;
mod loading;
mod lookup;
mod meaning;
mod object;
mod replace;
mod station;
mod stops;
mod task;

pub use compiler::{compile, one_run, preprocess};
pub use defines::Define;
pub use leaving::{bad_words, printed};
pub use loading::{LoadFault, load};
pub use object::{object_of, put_item};
pub use station::SampleStation;
pub use task::{Product, Task, task_of};
