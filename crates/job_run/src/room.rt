//! Room for the events of a job.

ghost use Rattle.std.specs.Prelude.{◌≡◌, ◌≤◌, [], vec_capacity};
ghost use Rattle.job_run.specs.Events.{events_max};

use farm_machine::Event;
use std::alloc::{AllocError, Global};

/// The most events of one job.
pub const EVENTS_MAX: usize = 64;

/// Room for the events of one job.
#[derive(Drop)]
pub struct EventRoom {
    events: Vec<Event>,
    ghost empty: { events.items ≡ [] },
    ghost room: { events_max ≤ vec_capacity events },
}

impl EventRoom {
    /// Takes room for `EVENTS_MAX` events.
    pub fn new(alloc: Global) -> Result<EventRoom, AllocError> {
        let events = Vec::with_capacity(alloc, EVENTS_MAX)?;
        Ok(EventRoom { events })
    }

    /// The room as a list of no events.
    pub fn into_events(self) -> Vec<Event>
        ensures empty { result.items ≡ [] }
        ensures room { events_max ≤ vec_capacity result }
    {
        self.events
    }
}
