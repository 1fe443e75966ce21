// Whether a call is one that may be made after others, with the reply that the slots have to it.
ghost use Rattle.std.specs.Prelude.{◌≡◌, ◌+◌, ◌<◌, ◌≤◌, ◌^◌, List, IsNone, IfSome};
ghost use Rattle.slot_table.specs.Limits.{is_local};
ghost use Rattle.slot_table.specs.History.{Holding, holding, has, change, outstanding, outstanding_then, state_after, may_call, IsNext, IsLegal};
ghost use Rattle.farm_machine.specs.Farm.{times};
ghost use Rattle.farm_machine.specs.Checking.{is_taken, is_given, IsStepped};

use farm_types::limits::HOSTS_MAX;
use slot_table::{CallEntry, Limits, SlotCall, SlotReply, Slots};

/// Whether the call takes such a slot for the job: of the host's entry, or a local one if there is no host.
fn takes(entry: &CallEntry, job: u32, host: Option<u32>) -> bool
    ensures { result ≡ is_taken job host (change entry.now.call entry.now.reply) }
{
    match (entry.call, entry.reply) {
        (SlotCall::Take { job: taker, .. }, SlotReply::Got(at)) => {
            job == taker && host == Some(at)
        }
        (SlotCall::TakeLocal { job: taker }, SlotReply::Local(true)) => {
            job == taker && host.is_none()
        }
        _ => false,
    }
}

/// Whether the call gives such a slot of the job back.
fn gives(entry: &CallEntry, job: u32, host: Option<u32>) -> bool
    ensures { result ≡ is_given job host (change entry.now.call entry.now.reply) }
{
    match entry.call {
        SlotCall::Give {
            host: at,
            job: giver,
        } => job == giver && host == Some(at),
        SlotCall::GiveBad {
            host: at,
            job: giver,
            ..
        } => job == giver && host == Some(at),
        SlotCall::GiveLocal { job: giver } => job == giver && host.is_none(),
        SlotCall::Draw | SlotCall::Take { .. } | SlotCall::TakeLocal { .. } => false,
    }
}

/// How often such a slot is out to the caller after one more call, if it was out so often before.
fn count_then(count: usize, entry: &CallEntry, caller: u32, job: u32, host: Option<u32>) -> usize
    requires { count + 1 < 2 ^ 64 }
    ensures times { (out : List Holding) → times (holding caller job host) out ≡ count → times (holding caller job host) (outstanding_then out entry.now) ≡ result }
    ensures most { result ≤ count + 1 }
{
    if caller != entry.caller {
        count
    } else if takes(entry, job, host) {
        count + 1
    } else if gives(entry, job, host) {
        count.saturating_sub(1)
    } else {
        count
    }
}

/// Whether such a slot is out to the caller after these calls: it was taken more often than it was given back.
fn is_out(before: &[CallEntry], caller: u32, job: u32, host: Option<u32>) -> bool
    ensures { result ≡ has (holding caller job host) (outstanding before.now) }
{
    let mut count = 0;
    for entry in before {
        count = count_then(count, entry, caller, job, host);
    }
    count > 0
}

/// Whether the entry at this place is this machine.
fn is_local(limits: &Limits<16>, host: u32) -> bool
    ensures { result ≡ is_local limits.now host }
{
    host < HOSTS_MAX as u32 && limits.local[host as usize]
}

/// Whether the caller may make the call after these: what it gives back is out to it, and no local entry gets a back-off.
fn may_call(limits: &Limits<16>, before: &[CallEntry], caller: u32, call: SlotCall) -> bool
    ensures { result ≡ may_call limits.now caller (outstanding before.now) call }
{
    match call {
        SlotCall::Draw | SlotCall::Take { .. } | SlotCall::TakeLocal { .. } => true,
        SlotCall::Give { host, job } => is_out(before, caller, job, Some(host)),
        SlotCall::GiveBad { host, job, .. } => {
            is_out(before, caller, job, Some(host)) && !is_local(limits, host)
        }
        SlotCall::GiveLocal { job } => is_out(before, caller, job, None),
    }
}

/// The slots after one more call, if it may be made and has its reply.
pub(crate) fn slots_then(
    slots: &Slots<16>,
    before: &[CallEntry],
    entry: &CallEntry,
) -> Option<Slots<16>>
    requires legal { IsLegal slots.now.limits before.now }
    requires state { slots.now.state ≡ state_after slots.now.limits before.now }
    ensures none { IsNone result → ¬ (IsNext slots.now.limits slots.now.state (outstanding before.now) entry.now) }
    ensures some { IfSome result (IsStepped slots.now before.now entry.now) }
{
    if !may_call(&slots.limits, before, entry.caller, entry.call) {
        return None;
    }
    let mut next = *slots;
    if next.step(entry.call) == entry.reply {
        Some(next)
    } else {
        None
    }
}
