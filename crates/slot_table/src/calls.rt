//! The calls of the slots and their replies, as plain data.
use crate::mask::Mask;
use farm_types::{Items, TryCopy};
use std::alloc::AllocError;

/// A call of the slots. What a call gives back is named by its host and job.
#[derive(Clone, Copy, PartialEq, Eq, Debug)]
pub enum SlotCall {
    /// Asks for the next job.
    Draw,
    /// Asks for a slot of a host for a job, among the entries of a mask, at a moment in seconds.
    Take { job: u32, mask: Mask, now: u64 },
    /// Gives a host's slot back.
    Give { host: u32, job: u32 },
    /// Gives a host's slot back. The host is in back-off, so it is not used, until this moment or later.
    GiveBad { host: u32, job: u32, until: u64 },
    /// Asks for a local slot for a job.
    TakeLocal { job: u32 },
    /// Gives a local slot back.
    GiveLocal { job: u32 },
}

/// The reply to a call.
#[derive(Clone, Copy, PartialEq, Eq, Debug)]
pub enum SlotReply {
    /// The next job's number, or None if all jobs are drawn.
    Drawn(Option<u32>),
    /// A slot of this host entry.
    Got(u32),
    /// No entry of the mask has a free slot now, and not all of them are in back-off.
    Full,
    /// Every entry of the mask is in back-off, or it has none.
    Down,
    /// Whether a local slot was given out.
    Local(bool),
    /// What was given is back.
    Given,
}

/// One call of a caller, with its reply.
#[derive(Clone, Copy, PartialEq, Eq, Debug)]
pub struct CallEntry {
    pub caller: u32,
    pub call: SlotCall,
    pub reply: SlotReply,
}

impl TryCopy for CallEntry {
    fn try_copy(&self) -> Result<CallEntry, AllocError> {
        Ok(*self)
    }
}

/// Calls with their replies, in the order in which they were made.
pub type CallList = Items<CallEntry>;
