//! The calls of the shared slots. What each does and answers is the table of docs/slots.md; when it does is
//! said in docs/cell.md. None of them takes memory. Each may wait.
ghost use Rattle.std.specs.Prelude.{◌≡◌, ◌<◌, true, false, is_some, IfSome};
ghost use Rattle.slot_table.specs.declared.calls.SlotCall.TheVariants.{Draw, Take as AskTake, Give, GiveBad, TakeLocal, GiveLocal};
ghost use Rattle.slot_table.specs.declared.calls.SlotReply.TheVariants.{Drawn, Local, Given};
ghost use Rattle.slot_table.specs.Limits.{is_local};
ghost use Rattle.slot_table.specs.Grants.{host_of, job_of, local_job_of, reply_of, IsGrantFor, IsEntryOf, IsOutstanding, IsLocalGrantFor, IsLocalOutstanding};
ghost use Rattle.slot_table.specs.Step.{slot_step, CanStep};
ghost use Rattle.slot_table.specs.History.{may_call, holding, has, outstanding};
ghost use Rattle.farm_cell.specs.Passes.{IsPassOf, Made, Saw, limits_of, number_of, mine_of};

use crate::cell::{Cell, Pass};
use crate::exchanges::{exchange, look};
use slot_table::{Grant, LocalGrant, Mask, SlotCall, Slots, Take};
use std::sync::Wait;

impl Cell<16, 34> {
    /// Makes a call, and gives the slots as it met them.
    fn meet<R: Wait>(&self, rt: &R, pass: &mut Pass, call: SlotCall) -> Slots<16>
        requires pass { IsPassOf self.now pass.old }
        requires may { may_call (limits_of self.now) (number_of pass.old) (outstanding (mine_of pass.old)) call ≡ true }
        ensures pass { IsPassOf self.now pass.new }
        ensures number { number_of pass.new ≡ number_of pass.old }
        ensures limits { result.limits ≡ limits_of self.now }
        ensures made { Made self.now pass.old call (slot_step (limits_of self.now) result.state call).1 pass.new }
        ensures can { CanStep (limits_of self.now) result.state call }
    {
        Slots {
            limits: self.limits,
            state: exchange(rt, &self.words, &self.limits, &mut pass.seat, call),
        }
    }

    /// The next job's number, from 0, or None if all jobs are drawn.
    pub fn draw<R: Wait>(&self, rt: &R, pass: &mut Pass) -> Option<u32>
        requires pass { IsPassOf self.now pass.old }
        ensures pass { IsPassOf self.now pass.new }
        ensures number { number_of pass.new ≡ number_of pass.old }
        ensures call { Made self.now pass.old Draw (Drawn result) pass.new }
        ensures job { IfSome result (λ job. job < (limits_of self.now).jobs) }
    {
        let mut slots = self.meet(rt, pass, SlotCall::Draw);
        slots.draw(pass.number)
    }

    /// A slot of the first entry, in the order of the job's search, that is in the mask, has a free slot and isn't in back-off at the
    /// moment `now`, in seconds. Down exactly if every entry of the mask is in back-off or there is none, and Full in all other cases.
    pub fn take<R: Wait>(&self, rt: &R, pass: &mut Pass, job: u32, mask: Mask, now: u64) -> Take
        requires pass { IsPassOf self.now pass.old }
        ensures pass { IsPassOf self.now pass.new }
        ensures number { number_of pass.new ≡ number_of pass.old }
        ensures call { Made self.now pass.old (AskTake job mask now) (reply_of result) pass.new }
        ensures grant { IsGrantFor (number_of pass.old) job result }
        ensures entry { IsEntryOf (limits_of self.now) mask result }
        ensures out { IsOutstanding (number_of pass.new) (outstanding (mine_of pass.new)) result }
    {
        let mut slots = self.meet(rt, pass, SlotCall::Take { job, mask, now });
        slots.take(pass.number, job, mask, now)
    }

    /// Gives a host's slot back.
    pub fn give<R: Wait>(&self, rt: &R, pass: &mut Pass, grant: Grant)
        requires pass { IsPassOf self.now pass.old }
        requires out { has (holding (number_of pass.old) (job_of grant) (Some (host_of grant))) (outstanding (mine_of pass.old)) ≡ true }
        ensures pass { IsPassOf self.now pass.new }
        ensures number { number_of pass.new ≡ number_of pass.old }
        ensures call { Made self.now pass.old (Give (host_of grant) (job_of grant)) Given pass.new }
    {
        let host = grant.host();
        let job = grant.job();
        let mut slots = self.meet(rt, pass, SlotCall::Give { host, job });
        slots.give(grant);
    }

    /// Gives back a slot of a host that isn't local. The host is in back-off until the moment `until`, in seconds, or until its present
    /// back-off ends if that is later.
    pub fn give_bad<R: Wait>(&self, rt: &R, pass: &mut Pass, grant: Grant, until: u64)
        requires pass { IsPassOf self.now pass.old }
        requires out { has (holding (number_of pass.old) (job_of grant) (Some (host_of grant))) (outstanding (mine_of pass.old)) ≡ true }
        requires remote { is_local (limits_of self.now) (host_of grant) ≡ false }
        ensures pass { IsPassOf self.now pass.new }
        ensures number { number_of pass.new ≡ number_of pass.old }
        ensures call { Made self.now pass.old (GiveBad (host_of grant) (job_of grant) until) Given pass.new }
    {
        let host = grant.host();
        let job = grant.job();
        let mut slots = self.meet(rt, pass, SlotCall::GiveBad { host, job, until });
        slots.give_bad(grant, until);
    }

    /// A local slot, or None if all of them are given out.
    pub fn take_local<R: Wait>(&self, rt: &R, pass: &mut Pass, job: u32) -> Option<LocalGrant>
        requires pass { IsPassOf self.now pass.old }
        ensures pass { IsPassOf self.now pass.new }
        ensures number { number_of pass.new ≡ number_of pass.old }
        ensures call { Made self.now pass.old (TakeLocal job) (Local (is_some result)) pass.new }
        ensures grant { IsLocalGrantFor (number_of pass.old) job result }
        ensures out { IsLocalOutstanding (number_of pass.new) (outstanding (mine_of pass.new)) result }
    {
        let mut slots = self.meet(rt, pass, SlotCall::TakeLocal { job });
        slots.take_local(pass.number, job)
    }

    /// Gives a local slot back.
    pub fn give_local<R: Wait>(&self, rt: &R, pass: &mut Pass, grant: LocalGrant)
        requires pass { IsPassOf self.now pass.old }
        requires out { has (holding (number_of pass.old) (local_job_of grant) None) (outstanding (mine_of pass.old)) ≡ true }
        ensures pass { IsPassOf self.now pass.new }
        ensures number { number_of pass.new ≡ number_of pass.old }
        ensures call { Made self.now pass.old (GiveLocal (local_job_of grant)) Given pass.new }
    {
        let job = grant.job();
        let mut slots = self.meet(rt, pass, SlotCall::GiveLocal { job });
        slots.give_local(grant);
    }

    /// The slots after the history so far, all of whose calls the pass has then seen.
    pub fn load<R: Wait>(&self, rt: &R, pass: &mut Pass) -> Slots<16>
        requires pass { IsPassOf self.now pass.old }
        ensures pass { IsPassOf self.now pass.new }
        ensures number { number_of pass.new ≡ number_of pass.old }
        ensures limits { result.limits ≡ limits_of self.now }
        ensures saw { Saw self.now pass.old result.state pass.new }
    {
        Slots {
            limits: self.limits,
            state: look(rt, &self.words, &self.limits, &mut pass.seat),
        }
    }
}
