//! What comes to the desk, what it lends, and what it answers.

/// A place at which a caller may have its command done.
#[derive(Clone, Copy, PartialEq, Eq, Debug)]
pub enum Place {
    /// By the host entry at this place of the list, of which it has a slot.
    Host(u32),
    /// On this machine, in a local slot, though it asked for a host: no host may be used, or there is none.
    Here,
    /// On this machine, in the local slot that it asked for.
    LocalSlot,
}

/// A place that was given to a caller.
#[derive(Clone, Copy, PartialEq, Eq, Debug)]
pub struct Loan {
    pub caller: u32,
    pub place: Place,
}

/// A caller that waits, for a local slot only or for a slot of any host.
#[derive(Clone, Copy, PartialEq, Eq, Debug)]
pub struct Waiter {
    pub caller: u32,
    pub local: bool,
}

/// What comes to the desk. Moments are in seconds.
#[derive(Clone, Copy, PartialEq, Eq, Debug)]
pub enum Event {
    /// A caller asks for a slot of a host.
    Ask { caller: u32 },
    /// A caller asks for a local slot: its command may not be sent.
    AskLocal { caller: u32 },
    /// A caller asks that runs below one that has a slot, and which waits for it.
    AskWithin { caller: u32 },
    /// A caller's command is done.
    Done { caller: u32 },
    /// A caller's exchange with its host broke at this moment.
    Broke { caller: u32, now: u64 },
    /// A caller is gone.
    Lost { caller: u32 },
    /// One who waits is given a place, if there is one at this moment.
    Next { now: u64 },
}

/// What the desk answers to an event.
#[derive(Clone, Copy, PartialEq, Eq, Debug)]
pub enum Reply {
    /// Nobody gets a reply.
    Nobody,
    /// A caller is given a place.
    Lent(Loan),
    /// As many callers are known as may be: this one goes on without the desk.
    Alone { caller: u32 },
    /// This caller goes on at once on this machine. It holds no slot: the one above it has one.
    Within { caller: u32 },
}
