//! The slots of a farm in one thread, with the list of the calls that were made.
ghost use Rattle.std.specs.Prelude.{◌≡◌, ℕ, ◌+◌, ◌<◌, ◌≤◌, true, [], ◌∷◌, ◌++◌, IfOk, vec_len, vec_capacity};
ghost use Rattle.slot_table.specs.Limits.{AreValid};
ghost use Rattle.slot_table.specs.Log.{IsKept};

use crate::calls::{CallEntry, CallList, SlotCall, SlotReply};
use crate::grant::{Grant, LocalGrant, Take};
use crate::grants::Grants;
use crate::limits::Limits;
use crate::mask::Mask;
use crate::slots::Slots;
use farm_types::Items;
use std::alloc::{AllocError, Global};
use std::marker::Model;

/// The slots of a farm in one thread. It hands out jobs and slots to one caller, number 0, and keeps the
/// list of its calls, for which it has room from the start.
#[derive(Drop)]
pub struct OneThread<const H: usize> {
    slots: Slots<H>,
    calls: Vec<CallEntry>,
    spare: u32,
}

impl<const H: usize> Model for OneThread<H> {
    ghost use Rattle.std.specs.Prelude.{◌+◌, ◌≤◌, vec_len, vec_capacity};
    ghost use Rattle.slot_table.specs.Log.{Log, IsKept};

    ghost Value = { Log H };

    ghost view = { λ t. record { limits = t.slots.limits; mine = t.calls.items; spare = t.spare } };

    ghost invariant = { λ t. IsKept t.slots.limits t.calls.items t.slots.state × (vec_len t.calls + t.spare ≤ vec_capacity t.calls) };
}

impl<const H: usize> OneThread<H> {
    /// No call was made yet, and there is room for that many.
    pub fn new(alloc: Global, limits: Limits<H>, room: u32) -> Result<OneThread<H>, AllocError>
        requires { AreValid limits }
        ensures limits { IfOk result (λ made. made.limits ≡ limits.entry) }
        ensures mine { IfOk result (λ made. made.mine ≡ []) }
        ensures spare { IfOk result (λ made. made.spare ≡ room) }
    {
        Ok(OneThread {
            slots: Slots::new(limits),
            calls: Vec::with_capacity(alloc, room as usize)?,
            spare: room,
        })
    }

    /// The slots after the calls so far.
    pub fn slots(&self) -> &Slots<H>
        ensures limits { result.now.limits ≡ self.now.limits }
        ensures kept { IsKept self.now.limits self.now.mine result.now.state }
    {
        &self.slots
    }

    /// The calls so far, with their replies.
    pub fn calls(&self) -> &[CallEntry]
        ensures { result.now ≡ self.now.mine }
    {
        self.calls.as_slice()
    }

    /// The slots, and the calls that were made. It takes no memory.
    pub fn close(self) -> (Slots<H>, CallList)
        ensures limits { result.0.limits ≡ self.entry.limits }
        ensures calls { result.1 ≡ self.entry.mine }
        ensures kept { IsKept self.entry.limits self.entry.mine result.0.state }
    {
        (self.slots, Items::from_vec(self.calls))
    }
}

/// Adds a call to the list, into room that it has.
fn note(calls: &mut Vec<CallEntry>, call: SlotCall, reply: SlotReply)
    requires { vec_len calls.old < vec_capacity calls.old }
    ensures calls { calls.new.items ≡ calls.old.items ++ record { caller = 0; call = call; reply = reply } ∷ [] }
    ensures len { vec_len calls.new ≡ vec_len calls.old + 1 }
    ensures capacity { vec_capacity calls.old ≤ vec_capacity calls.new }
{
    calls.push_reserved(CallEntry {
        caller: 0,
        call,
        reply,
    });
}

impl<const H: usize> Grants for OneThread<H> {
    ghost use Rattle.std.specs.Prelude.{◌≡◌, true, refl};
    ghost use Rattle.std.proofs.Common.{◌∙◌};

    type Home = Limits<H>;

    ghost home = { λ t. t.limits };

    ghost width = { H };

    ghost limits = { λ t. t.limits };

    ghost caller_number = { λ t. 0 };

    ghost follows = { λ a b. b.limits ≡ a.limits };

    ghost mine = { λ t. t.mine };

    ghost alone = { true };

    ghost spare = { λ t. t.spare };

    ghost follows_itself = { λ t. refl };

    ghost follows_on = { λ a b c first second. second ∙ first };

    ghost home_stays = { λ a b same. same };

    ghost place_stays = { λ a b same. refl };

    ghost limits_stay = { λ a b same. same };

    ghost caller_stays = { λ a b same. refl };

    fn caller(&self) -> u32 {
        0
    }

    fn draw(&mut self) -> Option<u32> {
        let drawn = self.slots.draw(0);
        note(&mut self.calls, SlotCall::Draw, SlotReply::Drawn(drawn));
        self.spare -= 1;
        drawn
    }

    fn take(&mut self, job: u32, mask: Mask, now: u64) -> Take {
        let taken = self.slots.take(0, job, mask, now);
        note(
            &mut self.calls,
            SlotCall::Take { job, mask, now },
            taken.reply(),
        );
        self.spare -= 1;
        taken
    }

    fn give(&mut self, grant: Grant) {
        let call = SlotCall::Give {
            host: grant.host,
            job: grant.job,
        };
        self.slots.give(grant);
        note(&mut self.calls, call, SlotReply::Given);
        self.spare -= 1;
    }

    fn give_bad(&mut self, grant: Grant, until: u64) {
        let call = SlotCall::GiveBad {
            host: grant.host,
            job: grant.job,
            until,
        };
        self.slots.give_bad(grant, until);
        note(&mut self.calls, call, SlotReply::Given);
        self.spare -= 1;
    }

    fn take_local(&mut self, job: u32) -> Option<LocalGrant> {
        let taken = self.slots.take_local(0, job);
        note(
            &mut self.calls,
            SlotCall::TakeLocal { job },
            SlotReply::Local(taken.is_some()),
        );
        self.spare -= 1;
        taken
    }

    fn give_local(&mut self, grant: LocalGrant) {
        let call = SlotCall::GiveLocal { job: grant.job };
        self.slots.give_local(grant);
        note(&mut self.calls, call, SlotReply::Given);
        self.spare -= 1;
    }
}
