// The events of a job, as they are written down.
ghost use Rattle.std.specs.Prelude.{◌≡◌, ◌+◌, ◌∷◌, ◌++◌, ◌≤◌, [], vec_len, vec_capacity};
ghost use Rattle.farm_machine.specs.declared.reports.Event.TheVariants.{Ran, Fetched, Exchanged, Put};
ghost use Rattle.job_run.specs.Events.{events_max};
ghost use Rattle.job_run.specs.Went.{HasPlaces};

use crate::{EVENTS_MAX, EventRoom};
use farm_machine::{Event, Places};

/// The events of a job so far, the next places, and how many more events there is room for.
#[derive(Drop)]
pub(crate) struct Journal {
    pub(crate) events: Vec<Event>,
    pub(crate) places: Places,
    pub(crate) left: u32,
    pub(crate) ghost room: { vec_len events + left ≤ vec_capacity events },
    pub(crate) ghost within: { HasPlaces places left },
}

impl Journal {
    /// No event yet, and room for `EVENTS_MAX`.
    pub(crate) fn open(room: EventRoom, places: Places) -> Journal
        requires { HasPlaces places events_max }
        ensures events { result.events.items ≡ [] }
        ensures places { result.places ≡ places }
        ensures left { result.left ≡ events_max }
    {
        Journal {
            events: room.into_events(),
            places,
            left: EVENTS_MAX as u32,
        }
    }

    /// Writes an event down.
    pub(crate) fn note(&mut self, event: Event)
        requires { 1 ≤ self.old.left }
        ensures events { self.new.events.items ≡ self.old.events.items ++ event ∷ [] }
        ensures places { self.new.places ≡ self.old.places }
        ensures left { self.new.left + 1 ≡ self.old.left }
    {
        self.left -= 1;
        self.events.push_reserved(event);
    }

    /// A run was added.
    pub(crate) fn ran(&mut self)
        requires { 1 ≤ self.old.left }
        ensures events { self.new.events.items ≡ self.old.events.items ++ Ran self.old.places.runs ∷ [] }
        ensures places { self.new.places ≡ record self.old.places { runs = self.old.places.runs + 1 } }
        ensures left { self.new.left + 1 ≡ self.old.left }
    {
        self.note(Event::Ran(self.places.runs));
        self.places.runs += 1;
    }

    /// A fetch was added.
    pub(crate) fn fetched(&mut self)
        requires { 1 ≤ self.old.left }
        ensures events { self.new.events.items ≡ self.old.events.items ++ Fetched self.old.places.fetches ∷ [] }
        ensures places { self.new.places ≡ record self.old.places { fetches = self.old.places.fetches + 1 } }
        ensures left { self.new.left + 1 ≡ self.old.left }
    {
        self.note(Event::Fetched(self.places.fetches));
        self.places.fetches += 1;
    }

    /// An exchange was added.
    pub(crate) fn exchanged(&mut self)
        requires { 1 ≤ self.old.left }
        ensures events { self.new.events.items ≡ self.old.events.items ++ Exchanged self.old.places.exchanges ∷ [] }
        ensures places { self.new.places ≡ record self.old.places { exchanges = self.old.places.exchanges + 1 } }
        ensures left { self.new.left + 1 ≡ self.old.left }
    {
        self.note(Event::Exchanged(self.places.exchanges));
        self.places.exchanges += 1;
    }

    /// A put was added.
    pub(crate) fn put(&mut self)
        requires { 1 ≤ self.old.left }
        ensures events { self.new.events.items ≡ self.old.events.items ++ Put self.old.places.puts ∷ [] }
        ensures places { self.new.places ≡ record self.old.places { puts = self.old.places.puts + 1 } }
        ensures left { self.new.left + 1 ≡ self.old.left }
    {
        self.note(Event::Put(self.places.puts));
        self.places.puts += 1;
    }
}
