//! The slots of one thread.
ghost use Rattle.std.specs.Prelude.{◌≡◌, ◌-◌, ◌<◌, ◌≤◌, true, find, is_some, IsSome, IfSome, IsTrue, ◌↔◌};
ghost use Rattle.std.specs.List.{range_with_len};
ghost use Rattle.slot_table.specs.declared.calls.SlotCall.TheVariants.{Draw, Take as AskTake, Give, GiveBad, TakeLocal, GiveLocal};
ghost use Rattle.slot_table.specs.declared.calls.SlotReply.TheVariants.{Drawn, Local, Given};
ghost use Rattle.slot_table.specs.Limits.{AreValid};
ghost use Rattle.slot_table.specs.Step.{slot_step, opening, CanStep, IsHeld, is_free, is_ruled_out, is_down, first_place, search_order, given, left_alone};
ghost use Rattle.slot_table.specs.Grants.{reply_of, IsGrantFor, IsEntryOf, CanGive, IsLocalGrantFor, host_of, job_of, local_job_of};

use crate::calls::{SlotCall, SlotReply};
use crate::grant::{Grant, LocalGrant, Take};
use crate::limits::Limits;
use crate::mask::Mask;
use crate::state::SlotState;

/// The slots of a farm: their limits, and their state.
#[derive(Clone, Copy, PartialEq, Eq, Debug)]
pub struct Slots<const H: usize> {
    pub limits: Limits<H>,
    pub state: SlotState<H>,
    pub ghost valid: { AreValid limits },
}

impl<const H: usize> Slots<H> {
    /// No job is drawn, no slot is given out and no host is in back-off.
    pub fn new(limits: Limits<H>) -> Slots<H>
        requires { AreValid limits }
        ensures limits { result.limits ≡ limits.entry }
        ensures state { result.state ≡ opening H }
    {
        Slots {
            limits,
            state: SlotState {
                next: 0,
                local_held: 0,
                held: [0; H],
                until: [0; H],
            },
        }
    }

    /// The next job's number. None exactly if all jobs are drawn.
    pub fn draw(&mut self, _caller: u32) -> Option<u32>
        ensures limits { self.new.limits ≡ self.old.limits }
        ensures step { slot_step self.old.limits self.old.state Draw ≡ (self.new.state, Drawn result) }
        ensures job { IfSome result (λ job. job < self.old.limits.jobs) }
    {
        let next = self.state.next;
        if next < self.limits.jobs {
            self.state.next = next + 1;
            Some(next)
        } else {
            None
        }
    }

    /// Whether the entry is in the mask, is below its limit, and isn't in back-off at this moment.
    fn is_free(&self, host: u32, mask: Mask, now: u64) -> bool
        requires { host < self.now.limits.count }
        ensures { result ≡ is_free self.now.limits self.now.state mask now host }
    {
        let at = host as usize;
        mask.contains(host)
            && self.state.held[at] < self.limits.limit[at]
            && self.state.until[at] <= now
    }

    /// Whether the entry isn't in the mask, or is in back-off at this moment.
    fn is_ruled_out(&self, host: u32, mask: Mask, now: u64) -> bool
        requires { host < self.now.limits.count }
        ensures { result ≡ is_ruled_out self.now.state mask now host }
    {
        !mask.contains(host) || now < self.state.until[host as usize]
    }

    /// The first free entry from `from` on, below `to`.
    fn free_between(&self, from: u32, to: u32, mask: Mask, now: u64) -> Option<u32>
        requires order { from ≤ to }
        requires entries { to ≤ self.now.limits.count }
        ensures first { result ≡ find (is_free self.now.limits self.now.state mask now) (range_with_len from (to - from)) }
        ensures free { IfSome result (λ host. (host < to) × (is_free self.now.limits self.now.state mask now host ≡ true)) }
    {
        for host in from..to {
            if self.is_free(host, mask, now) {
                return Some(host);
            }
        }
        None
    }

    /// The entry at which the search for this job begins.
    fn first_place(&self, job: u32) -> u32
        requires { 0 < self.now.limits.count }
        ensures place { result ≡ first_place self.now.limits job }
        ensures entry { result < self.now.limits.count }
    {
        if self.limits.rotate {
            job % self.limits.count
        } else {
            0
        }
    }

    /// The first free entry for this job.
    fn first_free(&self, job: u32, mask: Mask, now: u64) -> Option<u32>
        ensures first { result ≡ find (is_free self.now.limits self.now.state mask now) (search_order self.now.limits job) }
        ensures free { IfSome result (λ host. (host < self.now.limits.count) × (is_free self.now.limits self.now.state mask now host ≡ true)) }
    {
        let count = self.limits.count;
        if count == 0 {
            return None;
        }
        let first = self.first_place(job);
        match self.free_between(first, count, mask, now) {
            Some(host) => Some(host),
            None => self.free_between(0, first, mask, now),
        }
    }

    /// Whether every entry of the mask is in back-off at this moment.
    fn is_down(&self, mask: Mask, now: u64) -> bool
        ensures { result ≡ is_down self.now.limits self.now.state mask now }
    {
        for host in 0..self.limits.count {
            if !self.is_ruled_out(host, mask, now) {
                return false;
            }
        }
        true
    }

    /// A slot of the first entry, in the order of the job's search, that is in the mask, is below its limit and isn't in back-off at the
    /// moment `now`. Down exactly if every entry of the mask is in back-off or there is none, and Full in all other cases.
    pub fn take(&mut self, caller: u32, job: u32, mask: Mask, now: u64) -> Take
        ensures limits { self.new.limits ≡ self.old.limits }
        ensures step { slot_step self.old.limits self.old.state (AskTake job mask now) ≡ (self.new.state, reply_of result) }
        ensures grant { IsGrantFor caller job result }
        ensures entry { IsEntryOf self.old.limits mask result }
        ensures held { CanGive self.new.limits self.new.state result }
    {
        match self.first_free(job, mask, now) {
            Some(host) => {
                self.state.held[host as usize] += 1;
                Take::Got(Grant { caller, job, host })
            }
            None if self.is_down(mask, now) => Take::Down,
            None => Take::Full,
        }
    }

    /// Gives a host's slot back.
    pub fn give(&mut self, grant: Grant)
        requires can { CanStep self.old.limits self.old.state (Give (host_of grant) (job_of grant)) }
        ensures limits { self.new.limits ≡ self.old.limits }
        ensures step { slot_step self.old.limits self.old.state (Give (host_of grant) (job_of grant)) ≡ (self.new.state, Given) }
    {
        self.give_back(grant.spend());
    }

    /// Gives back a slot of a host that isn't local. The host is in back-off until the moment `until`, or until its present back-off ends if
    /// that is later.
    pub fn give_bad(&mut self, grant: Grant, until: u64)
        requires can { CanStep self.old.limits self.old.state (GiveBad (host_of grant) (job_of grant) until) }
        ensures limits { self.new.limits ≡ self.old.limits }
        ensures step { slot_step self.old.limits self.old.state (GiveBad (host_of grant) (job_of grant) until) ≡ (self.new.state, Given) }
    {
        let host = grant.spend();
        self.give_back(host);
        self.leave_alone(host, until);
    }

    /// A slot of the entry is back.
    fn give_back(&mut self, host: u32)
        requires { IsHeld self.old.limits self.old.state host }
        ensures limits { self.new.limits ≡ self.old.limits }
        ensures state { self.new.state ≡ given self.old.state host }
    {
        self.state.held[host as usize] -= 1;
    }

    /// Puts the entry in back-off until this moment, or until its present back-off ends if that is later.
    fn leave_alone(&mut self, host: u32, until: u64)
        requires { host < self.old.limits.count }
        ensures limits { self.new.limits ≡ self.old.limits }
        ensures state { self.new.state ≡ left_alone self.old.state host until }
    {
        let at = host as usize;
        self.state.until[at] = self.state.until[at].max(until);
    }

    /// A local slot. None exactly if all of them are given out.
    pub fn take_local(&mut self, caller: u32, job: u32) -> Option<LocalGrant>
        ensures limits { self.new.limits ≡ self.old.limits }
        ensures step { slot_step self.old.limits self.old.state (TakeLocal job) ≡ (self.new.state, Local (is_some result)) }
        ensures grant { IsLocalGrantFor caller job result }
        ensures held { IsSome result → 0 < self.new.state.local_held }
    {
        if self.state.local_held < self.limits.local_slots {
            self.state.local_held += 1;
            Some(LocalGrant { caller, job })
        } else {
            None
        }
    }

    /// Gives a local slot back.
    pub fn give_local(&mut self, grant: LocalGrant)
        requires can { CanStep self.old.limits self.old.state (GiveLocal (local_job_of grant)) }
        ensures limits { self.new.limits ≡ self.old.limits }
        ensures step { slot_step self.old.limits self.old.state (GiveLocal (local_job_of grant)) ≡ (self.new.state, Given) }
    {
        grant.spend();
        self.state.local_held -= 1;
    }

    /// Whether a call meets its condition: what it gives back is held, and no local entry gets a back-off.
    pub fn can_step(&self, call: SlotCall) -> bool
        ensures { IsTrue result ↔ CanStep self.now.limits self.now.state call }
    {
        match call {
            SlotCall::Draw | SlotCall::Take { .. } | SlotCall::TakeLocal { .. } => true,
            SlotCall::Give { host, .. } => self.is_held(host),
            SlotCall::GiveBad { host, .. } => {
                self.is_held(host) && !self.limits.local[host as usize]
            }
            SlotCall::GiveLocal { .. } => self.state.local_held > 0,
        }
    }

    /// Whether a slot of the entry is given out.
    fn is_held(&self, host: u32) -> bool
        ensures { IsTrue result ↔ IsHeld self.now.limits self.now.state host }
    {
        host < self.limits.count && self.state.held[host as usize] > 0
    }

    /// Any call, as plain data.
    pub fn step(&mut self, call: SlotCall) -> SlotReply
        requires can { CanStep self.old.limits self.old.state call }
        ensures limits { self.new.limits ≡ self.old.limits }
        ensures step { slot_step self.old.limits self.old.state call ≡ (self.new.state, result) }
    {
        match call {
            SlotCall::Draw => SlotReply::Drawn(self.draw(0)),
            SlotCall::Take { job, mask, now } => self.take(0, job, mask, now).into_reply(),
            SlotCall::Give { host, job: _ } => {
                self.give_back(host);
                SlotReply::Given
            }
            SlotCall::GiveBad {
                host,
                job: _,
                until,
            } => {
                self.give_back(host);
                self.leave_alone(host, until);
                SlotReply::Given
            }
            SlotCall::TakeLocal { job } => match self.take_local(0, job) {
                Some(grant) => {
                    grant.spend();
                    SlotReply::Local(true)
                }
                None => SlotReply::Local(false),
            },
            SlotCall::GiveLocal { job } => {
                self.give_local(LocalGrant { caller: 0, job });
                SlotReply::Given
            }
        }
    }
}
