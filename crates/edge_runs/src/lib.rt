//! What a run of a program is given: its command, its folder, which it may leave to a door, and what it goes by meanwhile. Also the reply in place of a run.
#![tactic(auto)]

mod command;
mod notices;
mod refusing;
mod run_folder;
mod run_watch;

pub use command::{
    OBJECT_NAME, command_in, command_of, input_ext, needs_folder, path_of, source_name,
};
pub use refusing::refusal_of;
pub use run_folder::{RunFolder, RunNotes, SharedNotes, nameless_file, remove_left};
pub use run_watch::{RunWatch, Unwatched, have_descriptors};
