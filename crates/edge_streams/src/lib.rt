//! The clock, the environment and the standard streams of a real system, and reads and writes that wait so long at most.
//! Each device counts the calls that failed, and shows no content.
#![tactic(auto)]

mod clock;
mod counting;
mod environment;
mod error_lines;
mod held_streams;
mod reading;
mod retrying;
mod shown;
mod stream;
mod waiting_stream;

pub use clock::{PAUSE_MILLIS, WallClock, moment};
pub use counting::raise;
pub use environment::{command_words, current_folder, own_folder, variable};
pub use error_lines::{ErrorLines, Unhindered};
pub use held_streams::HeldStreams;
pub use reading::{Reading, first_room, read_to_end};
pub use retrying::{read_by, write_by, write_once};
pub use shown::Shown;
pub use stream::{StdSink, StdSource};
pub use waiting_stream::WaitingStream;
