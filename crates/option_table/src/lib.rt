//! The options of the compiler's command line: which row of a table fits a word, and what the row does.
#![tactic(auto)]

mod fault;
mod gcc;
mod held;
mod index;
mod listing;
pub mod reasons;
mod row;
mod scc;
mod search;
mod spelling;
mod table;

pub use fault::TableFault;
pub use gcc::{GCC_ROWS, gcc_table};
pub use listing::is_listing;
pub use row::{Effect, Form, OptionRow};
pub use scc::scc_table;
pub use spelling::{SPELLING_MAX, Spelling};
pub use table::{Found, OptionTable};
