//! The devices of a real system: sockets, programs, files, the clock and the standard streams, and those of a worker together.
//! Each counts the calls that failed, and shows no content.
#![tactic(auto)]

mod kits;

pub use edge_files::DiskFiles;
pub use edge_programs::{ChildStation, ServingRules, WordPolicy};
pub use edge_runs::{RunNotes, RunWatch, SharedNotes, Unwatched, nameless_file};
pub use edge_sockets::{DoorLink, DoorWatch, Notices, SharedWatch, TcpDialer, TcpDoor, TcpLink};
pub use edge_streams::{
    ErrorLines, HeldStreams, PAUSE_MILLIS, StdSink, StdSource, Unhindered, WaitingStream,
    WallClock, command_words, current_folder, own_folder, variable,
};
pub use kits::{KitSettings, SystemKit, system_kits, watch_kits};
