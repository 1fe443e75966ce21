// What a run for others goes by while its program runs: whether its peer is still there, and who else waits.
use std::alloc::Global;
use std::fs::File;
use std::rt::{Clock, Files};
use std::sync::Arc;
use std::thread;
use std::time::Duration;

/// What a run for others goes by while its program runs.
pub trait RunWatch {
    /// Whether the one who asked for the run has gone. Each call also sees to those who wait for a door meanwhile.
    fn has_gone(&self) -> bool;

    /// Has one that waits for a door give its descriptor back. It is called if the system has too few left for a run, and returns at once.
    fn want_descriptors(&self);
}

/// The watch of a run that nobody may leave.
#[derive(Clone, Copy)]
pub struct Unwatched;

impl RunWatch for Unwatched {
    fn has_gone(&self) -> bool {
        false
    }

    fn want_descriptors(&self) {}
}

impl<W: RunWatch> RunWatch for Option<Arc<W, Global>> {
    fn has_gone(&self) -> bool {
        match self {
            Some(watch) => watch.has_gone(),
            None => false,
        }
    }

    fn want_descriptors(&self) {
        if let Some(watch) = self {
            watch.want_descriptors();
        }
    }
}

/// How many descriptors a run needs at one time.
const DESCRIPTORS: usize = 6;

/// How often those who wait are asked for them.
const WANTS_TRIED: u32 = 40;

/// How many milliseconds they are given for that.
const WANT_PAUSE_MILLIS: u64 = 5;

/// Has as many descriptors free as a run needs, if those who wait for a door can give them back.
pub fn have_descriptors<R: Files<File = File> + Clock, W: RunWatch>(rt: &R, watch: &W) {
    for _ in 0..WANTS_TRIED {
        if are_free(rt) {
            return;
        }
        watch.want_descriptors();
        thread::sleep(rt, Duration::from_millis(WANT_PAUSE_MILLIS));
    }
}

/// The numbers of the faults by which the system, or this process, has no descriptor left.
const ENFILE: i32 = 23;

const EMFILE: i32 = 24;

/// Whether the system gives as many at this moment. A failure for another reason isn't a lack of descriptors.
fn are_free<R: Files<File = File>>(rt: &R) -> bool {
    let mut held: [Option<File>; DESCRIPTORS] = [None, None, None, None, None, None];
    for place in held.iter_mut() {
        match File::open(rt, "/") {
            Ok(file) => *place = Some(file),
            Err(error) => return !matches!(error.raw_os_error(), Some(ENFILE | EMFILE)),
        }
    }
    true
}
