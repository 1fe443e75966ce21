//! The check of a given run.
ghost use Rattle.std.specs.Prelude.{◌≡◌, ◌↔◌, ◌++◌, [], ◌∷◌, ℕ, ◌<◌, ◌≤◌, ◌^◌, length, Some, None, IsNone, IsTrue, IfSome};
ghost use Rattle.slot_table.specs.Limits.{AreValid};
ghost use Rattle.slot_table.specs.History.{state_after};
ghost use Rattle.farm_machine.specs.CheckRuns.{AreNumbered, AreSound, AreUsedUp, BreaksAt, FallsShort};
ghost use Rattle.farm_machine.specs.Checking.{IsSound};
ghost use Rattle.farm_machine.specs.Farm.{wanted};
ghost use Rattle.farm_machine.specs.Reading.{unread};
ghost use Rattle.farm_machine.specs.Weave.{Agrees};

use crate::following::{follows, next_event};
use crate::legality::slots_then;
use crate::reports::ReportList;
use slot_table::{CallEntry, CallList, Limits, Slots};

/// The slots after one more call, if it is legal and follows.
fn sound_then(
    slots: &Slots<16>,
    reports: &ReportList,
    before: &[CallEntry],
    entry: &CallEntry,
) -> Option<Slots<16>>
    requires sound { AreSound slots.now.limits (unread reports.now) (wanted slots.now.limits) before.now }
    requires state { slots.now.state ≡ state_after slots.now.limits before.now }
    ensures none { IsNone result → ¬ (AreSound slots.now.limits (unread reports.now) (wanted slots.now.limits) (before.now ++ entry.now ∷ [])) }
    ensures some { IfSome result (IsSound slots.now reports.now (before.now ++ entry.now ∷ [])) }
{
    let Some(next) = slots_then(slots, before, entry) else {
        return None;
    };
    if follows(&slots.limits, reports, before, entry) {
        Some(next)
    } else {
        None
    }
}

/// Whether no slot event of a report is left over after these calls.
fn are_used_up(reports: &ReportList, calls: &[CallEntry]) -> bool
    requires { length reports.now < 2 ^ 32 }
    ensures { IsTrue result ↔ AreUsedUp (length reports.now) (unread reports.now) calls.now }
{
    for job in 0..reports.len() {
        if next_event(reports, calls, job as u32).is_some() {
            return false;
        }
    }
    true
}

/// Whether the report at each place is that of the job with this number.
pub fn are_numbered(reports: &ReportList) -> bool
    ensures { IsTrue result ↔ AreNumbered reports.now }
{
    let list = reports.as_slice();
    for place in 0..list.len() {
        if list[place].number as usize != place {
            return false;
        }
    }
    true
}

/// Checks whether the calls of a run and its reports, one for each job and in job order, go together. It takes no memory.
///
/// None says that they do: the calls are a legal history of slots of these limits, each call follows those before it in the
/// reports, every job was drawn, and no slot event of a report is left over. Else the answer is the place, from 0, of the first
/// call that isn't legal or doesn't follow, or the number of calls if all are legal and follow.
pub fn check_run(limits: &Limits<16>, calls: &CallList, reports: &ReportList) -> Option<u64>
    requires valid { AreValid limits.now }
    requires one { length reports.now ≡ limits.now.jobs }
    requires numbered { AreNumbered reports.now }
    ensures agrees { (result ≡ None) ↔ Agrees limits.now (unread reports.now) (wanted limits.now) calls.now }
    ensures broken { (place : ℕ) → place < length calls.now → (result ≡ Some place) ↔ BreaksAt limits.now (unread reports.now) (wanted limits.now) calls.now place }
    ensures short { (result ≡ Some (length calls.now)) ↔ FallsShort limits.now (unread reports.now) (wanted limits.now) calls.now }
{
    let list = calls.as_slice();
    let mut slots = Slots::new(*limits);
    for place in 0..list.len() {
        match sound_then(&slots, reports, &list[..place], &list[place]) {
            Some(next) => slots = next,
            None => return Some(place as u64),
        }
    }
    if slots.state.next == limits.jobs && are_used_up(reports, list) {
        None
    } else {
        Some(list.len() as u64)
    }
}
