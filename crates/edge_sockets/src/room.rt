// The room of all doors on one listener, as they share it.
use crate::waiting_room::WaitingRoom;
use mio::Waker;
use std::alloc::Global;
use std::sync::atomic::{AtomicU64, Ordering};
use std::sync::{Arc, Mutex};

/// The room of all doors on one listener, and what the others ask of the one that leads it.
#[derive(Drop)]
pub struct Room<L, S> {
    pub inside: Mutex<WaitingRoom<L, S>>,
    pub wants: Wants,
}

/// A room that doors and their watches share.
pub type SharedRoom<L, S> = Arc<Room<L, S>, Global>;

/// How many connections are to be left, so that runs get their descriptors.
#[derive(Drop)]
pub struct Wants {
    waker: Waker,
    count: AtomicU64,
}

impl Wants {
    /// None yet. The waker has the one who leads the room look.
    pub fn new(waker: Waker) -> Wants {
        Wants {
            waker,
            count: AtomicU64::new(0),
        }
    }

    /// Wants one more to be left.
    pub fn want(&self) {
        self.count.fetch_add(1, Ordering::SeqCst);
        let _ = self.waker.wake();
    }

    /// Whether any are wanted. From here on none are.
    pub fn take(&self) -> bool {
        self.count.swap(0, Ordering::SeqCst) > 0
    }
}
