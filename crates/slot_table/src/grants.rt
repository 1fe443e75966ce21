//! Who hands out jobs and slots.
ghost use Rattle.std.specs.Prelude.{◌≡◌, ◌≢◌, ℕ, ◌+◌, ◌<◌, ◌≤◌, Bool, true, false, List, [], ◌∷◌, ◌++◌, is_some, IsSome, IfSome};
ghost use Rattle.slot_table.specs.declared.limits.Limits.{Limits};
ghost use Rattle.slot_table.specs.declared.calls.CallEntry.{CallEntry};
ghost use Rattle.slot_table.specs.declared.calls.SlotCall.TheVariants.{Draw, Take as AskTake, Give, GiveBad, TakeLocal, GiveLocal};
ghost use Rattle.slot_table.specs.declared.calls.SlotReply.TheVariants.{Drawn, Full, Local, Given};
ghost use Rattle.slot_table.specs.Limits.{is_local};
ghost use Rattle.slot_table.specs.History.{entry, holding, has, outstanding};
ghost use Rattle.slot_table.specs.Grants.{host_of, job_of, local_job_of, reply_of, IsGrantFor, IsEntryOf, IsOutstanding, IsLocalGrantFor, IsLocalOutstanding, IsLater, cost};

use crate::grant::{Grant, LocalGrant, Take};
use crate::mask::Mask;

/// Who hands out jobs and slots to one caller. No call takes memory.
///
/// If it is `alone`, its calls are the only ones, and each of them spends one of the calls that it has room for. No call changes its home,
/// its place, its limits or the caller's number.
pub trait Grants {
    /// What distinguishes the slots that it hands out from others.
    type Home;

    ghost home: { Self → Self.Home };

    /// The place that keeps what its calls change.
    ghost place: { Self → ℕ } = { λ _. 0 };

    /// What each call needs of it, and keeps.
    ghost ready: { Self → Type 0 } = { λ _. Unit {0} };

    /// The length of the arrays of its limits.
    ghost width: { ℕ };

    ghost limits: { Self → Limits width };

    /// The caller's number.
    ghost caller_number: { Self → ℕ };

    /// The first became the second, by calls of it.
    ghost follows: { Self → Self → Type 0 };

    /// Its own calls so far, with their replies.
    ghost mine: { Self → List CallEntry };

    /// Whether there are no other callers.
    ghost alone: { Bool };

    /// How many calls it has room for, if it is `alone`.
    ghost spare: { Self → ℕ };

    /// The caller's number.
    fn caller(&self) -> u32
        ensures { result ≡ caller_number self.now };

    /// The next job's number, or None if all jobs are drawn.
    fn draw(&mut self) -> Option<u32>
        requires ready { ready self.old }
        requires spare { cost alone ≤ spare self.old }
        ensures ready { ready self.new }
        ensures follows { follows self.old self.new }
        ensures spare { spare self.new + cost alone ≡ spare self.old }
        ensures mine { mine self.new ≡ mine self.old ++ entry (caller_number self.old) Draw (Drawn result) ∷ [] }
        ensures job { IfSome result (λ job. job < (limits self.old).jobs) }
        ensures later { IfSome result (IsLater (mine self.old)) };

    /// A slot of the first entry, in the order of the job's search, that is in the mask, has a free slot and isn't in back-off at the
    /// moment `now`.
    fn take(&mut self, job: u32, mask: Mask, now: u64) -> Take
        requires ready { ready self.old }
        requires spare { cost alone ≤ spare self.old }
        ensures ready { ready self.new }
        ensures follows { follows self.old self.new }
        ensures spare { spare self.new + cost alone ≡ spare self.old }
        ensures mine { mine self.new ≡ mine self.old ++ entry (caller_number self.old) (AskTake job mask now) (reply_of result) ∷ [] }
        ensures grant { IsGrantFor (caller_number self.old) job result }
        ensures entry { IsEntryOf (limits self.old) mask result }
        ensures out { IsOutstanding (caller_number self.new) (outstanding (mine self.new)) result }
        ensures free { alone ≡ true → outstanding (mine self.old) ≡ [] → reply_of result ≢ Full };

    /// Gives a host's slot back.
    fn give(&mut self, grant: Grant)
        requires ready { ready self.old }
        requires spare { cost alone ≤ spare self.old }
        requires out { has (holding (caller_number self.old) (job_of grant) (Some (host_of grant))) (outstanding (mine self.old)) ≡ true }
        ensures ready { ready self.new }
        ensures follows { follows self.old self.new }
        ensures spare { spare self.new + cost alone ≡ spare self.old }
        ensures mine { mine self.new ≡ mine self.old ++ entry (caller_number self.old) (Give (host_of grant) (job_of grant)) Given ∷ [] };

    /// Gives back a slot of a host that isn't local. The host is in back-off until the moment `until`, or until its present back-off ends if
    /// that is later.
    fn give_bad(&mut self, grant: Grant, until: u64)
        requires ready { ready self.old }
        requires spare { cost alone ≤ spare self.old }
        requires out { has (holding (caller_number self.old) (job_of grant) (Some (host_of grant))) (outstanding (mine self.old)) ≡ true }
        requires remote { is_local (limits self.old) (host_of grant) ≡ false }
        ensures ready { ready self.new }
        ensures follows { follows self.old self.new }
        ensures spare { spare self.new + cost alone ≡ spare self.old }
        ensures mine { mine self.new ≡ mine self.old ++ entry (caller_number self.old) (GiveBad (host_of grant) (job_of grant) until) Given ∷ [] };

    /// A local slot, or None if all of them are given out.
    fn take_local(&mut self, job: u32) -> Option<LocalGrant>
        requires ready { ready self.old }
        requires spare { cost alone ≤ spare self.old }
        ensures ready { ready self.new }
        ensures follows { follows self.old self.new }
        ensures spare { spare self.new + cost alone ≡ spare self.old }
        ensures mine { mine self.new ≡ mine self.old ++ entry (caller_number self.old) (TakeLocal job) (Local (is_some result)) ∷ [] }
        ensures grant { IsLocalGrantFor (caller_number self.old) job result }
        ensures out { IsLocalOutstanding (caller_number self.new) (outstanding (mine self.new)) result }
        ensures free { alone ≡ true → outstanding (mine self.old) ≡ [] → IsSome result };

    /// Gives a local slot back.
    fn give_local(&mut self, grant: LocalGrant)
        requires ready { ready self.old }
        requires spare { cost alone ≤ spare self.old }
        requires out { has (holding (caller_number self.old) (local_job_of grant) None) (outstanding (mine self.old)) ≡ true }
        ensures ready { ready self.new }
        ensures follows { follows self.old self.new }
        ensures spare { spare self.new + cost alone ≡ spare self.old }
        ensures mine { mine self.new ≡ mine self.old ++ entry (caller_number self.old) (GiveLocal (local_job_of grant)) Given ∷ [] };

    ghost follows_itself: { (grants : Self) → follows grants grants };

    ghost follows_on: { (a b c : Self) → follows a b → follows b c → follows a c };

    /// Its calls change neither what it hands out of, nor its limits, nor the caller.
    ghost home_stays: { (a b : Self) → follows a b → home b ≡ home a };

    ghost place_stays: { (a b : Self) → follows a b → place b ≡ place a };

    ghost limits_stay: { (a b : Self) → follows a b → limits b ≡ limits a };

    ghost caller_stays: { (a b : Self) → follows a b → caller_number b ≡ caller_number a };
}
