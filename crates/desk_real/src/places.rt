//! The connections of a desk, each at a place with a number.

use crate::place::Place;
use std::alloc::{AllocError, Global};
use std::time::Duration;

/// The places, each free or with a connection.
#[derive(Drop)]
pub struct Places<S> {
    list: Vec<Option<Place<S>>>,
}

/// How many connections may not have said a line yet.
pub const GREETING: usize = 64;

/// How long a connection has for its first line.
const GREETING_SECS: u64 = 1;

impl<S: Drop> Places<S> {
    /// This many free places.
    ///
    /// # Errors
    /// Memory runs out.
    pub fn new(alloc: Global, count: usize) -> Result<Places<S>, AllocError> {
        let mut list = Vec::with_capacity(alloc, count)?;
        for _ in 0..count {
            list.push(None)?;
        }
        Ok(Places { list })
    }

    /// Ends the connection at a place, and frees it.
    pub fn remove(&mut self, at: usize) {
        if let Some(place) = self.list.get_mut(at) {
            *place = None;
        }
    }

    /// Gives a connection the place of that number.
    pub fn fill(&mut self, at: usize, connection: Place<S>) {
        if let Some(place) = self.list.get_mut(at) {
            *place = Some(connection);
        }
    }

    /// Frees a place, if too many connections haven't said a line or none is free: the oldest of them goes. None if no place is free then.
    pub fn make_room(&mut self) -> Option<usize> {
        if self.greeting() >= GREETING || self.free().is_none() {
            if let Some(at) = self.first(false) {
                self.remove(at);
            }
        }
        self.free()
    }
}

impl<S> Places<S> {
    /// The connection at a place.
    pub fn get_mut(&mut self, at: usize) -> Option<&mut Place<S>> {
        self.list.get_mut(at)?.as_mut()
    }

    /// The place of a caller.
    pub fn of(&self, caller: u32) -> Option<usize> {
        for (at, place) in self.list.iter().enumerate() {
            if matches!(place, Some(place) if place.caller == caller) {
                return Some(at);
            }
        }
        None
    }

    /// The place of the connection that was taken in first of those that may have something, or of those that haven't said a line yet.
    pub fn first(&self, is_ready: bool) -> Option<usize> {
        let mut found: Option<(usize, u32)> = None;
        for (at, place) in self.list.iter().enumerate() {
            let Some(place) = place else {
                continue;
            };
            let is_earlier = match found {
                Some((_, caller)) => place.caller < caller,
                None => true,
            };
            let is_one = if is_ready {
                place.is_ready()
            } else {
                !place.has_spoken
            };
            if is_earlier && is_one {
                found = Some((at, place.caller));
            }
        }
        Some(found?.0)
    }

    /// Whether a connection waits for an answer, or has time left for its first line.
    pub fn is_awaited(&self) -> bool {
        for place in &self.list {
            if matches!(place, Some(place) if place.awaits()) {
                return true;
            }
        }
        false
    }

    /// Gives up the connections that had their time for a first line.
    pub fn give_up_late(&mut self, now: Duration) {
        let limit = Duration::from_secs(GREETING_SECS);
        for place in self.list.iter_mut() {
            if let Some(place) = place {
                if !place.has_spoken && now.saturating_sub(place.begun) >= limit {
                    place.end();
                }
            }
        }
    }

    // A free place.
    fn free(&self) -> Option<usize> {
        for (at, place) in self.list.iter().enumerate() {
            if place.is_none() {
                return Some(at);
            }
        }
        None
    }

    // How many have not said a line yet.
    fn greeting(&self) -> usize {
        let mut count = 0usize;
        for place in &self.list {
            if matches!(place, Some(place) if !place.has_spoken) {
                count = count.saturating_add(1);
            }
        }
        count
    }
}
