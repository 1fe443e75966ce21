//! Files that are put whole or not at all.
#![tactic(auto)]

mod files;
mod keeper;
mod mem_files;

pub use files::Files;
pub use keeper::FileKeeper;
pub use mem_files::MemFiles;
