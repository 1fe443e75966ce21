// Whether a call follows others in the reports.
ghost use Rattle.std.specs.Prelude.{◌≡◌, ◌↔◌, ◌+◌, ◌^◌, ◌<◌, ◌≤◌, ◌||◌, List, ◌∷◌, Some, IsTrue, IsFalse, slice_get};
ghost use Rattle.std.specs.Option.{option_map};
ghost use Rattle.slot_table.specs.Mask.{mask_bits};
ghost use Rattle.farm_machine.specs.declared.reports.Event.{Event as EventData};
ghost use Rattle.farm_machine.specs.Acts.{SlotEvent, Act, took, next_met};
ghost use Rattle.farm_machine.specs.Checking.{event_of, behind, is_awaited};
ghost use Rattle.farm_machine.specs.Farm.{wanted};
ghost use Rattle.farm_machine.specs.Machine.{job_call_of, MaskIs};
ghost use Rattle.farm_machine.specs.Reading.{slots_in, unread};
ghost use Rattle.farm_machine.specs.Weave.{Reports, Progress, no_progress, next_progress, last_progress, Follows};

use crate::kinds::{Kind, kind_of};
use crate::reports::{Event, ReportList};
use slot_table::{CallEntry, Limits, Mask};

/// The job of the caller's latest draw after one more call, if it was this before.
fn current_then(current: Option<u32>, entry: &CallEntry, caller: u32) -> Option<u32>
    ensures { (p : Progress) → p.current caller ≡ current → (next_progress p entry.now).current caller ≡ result }
{
    match kind_of(entry) {
        Kind::Draws(job) if caller == entry.caller => job,
        _ => current,
    }
}

/// The job that the caller's latest draw among these calls answered.
fn current_job(before: &[CallEntry], caller: u32) -> Option<u32>
    ensures { (r : Reports) → (last_progress (no_progress r) before.now).current caller ≡ result }
{
    let mut current = None;
    for entry in before {
        current = current_then(current, entry, caller);
    }
    current
}

fn is_same(one: Event, other: Event) -> bool
    ensures { IsTrue result ↔ (one ≡ other) }
{
    one == other
}

/// Whether the call is the job's take of a slot of this host.
fn is_take(entry: &CallEntry, job: u32, host: u32) -> bool
    ensures { (p : Progress) → took host ((next_progress p entry.now).past job) ≡ (took host (p.past job) || result) }
{
    match kind_of(entry) {
        Kind::Adds {
            job: taker,
            event,
            ..
        } => job == taker && is_same(event, Event::Took(host)),
        _ => false,
    }
}

/// Whether the job took a slot of this host in these calls.
fn took(before: &[CallEntry], job: u32, host: u32) -> bool
    ensures { (r : Reports) → took host ((last_progress (no_progress r) before.now).past job) ≡ result }
{
    let mut found = false;
    for entry in before {
        found |= is_take(entry, job, host);
    }
    found
}

/// Whether the mask is the one that a take of the job has after these calls: of all entries but those that the job took before.
fn is_wanted(limits: &Limits<16>, before: &[CallEntry], job: u32, mask: Mask) -> bool
    requires { limits.now.count ≤ mask_bits }
    ensures { (r : Reports) → wanted limits.now ((last_progress (no_progress r) before.now).past job) mask ≡ result }
{
    for host in 0..limits.count {
        if mask.contains(host) == took(before, job, host) {
            return false;
        }
    }
    true
}

/// Whether the caller may ask for a slot or give one for this job after these calls: it is the job of its latest draw, and the mask
/// of a take is the one that is wanted.
fn may_ask(
    limits: &Limits<16>,
    before: &[CallEntry],
    caller: u32,
    job: u32,
    mask: Option<Mask>,
) -> bool
    requires { limits.now.count ≤ mask_bits }
    ensures { (r : Reports) → IsTrue result ↔ ((last_progress (no_progress r) before.now).current caller ≡ Some job) × MaskIs mask (wanted limits.now ((last_progress (no_progress r) before.now).past job)) }
{
    current_job(before, caller) == Some(job)
        && match mask {
            Some(mask) => is_wanted(limits, before, job, mask),
            None => true,
        }
}

/// How many slot events of the job there were after one more call, if there were that many before.
fn met_then(met: usize, entry: &CallEntry, job: u32) -> usize
    requires { met + 1 < 2 ^ 64 }
    ensures met { (p : Progress) (acts : List Act) → p.rest job ≡ behind met acts → (next_progress p entry.now).rest job ≡ behind result acts }
    ensures most { result ≤ met + 1 }
{
    match kind_of(entry) {
        Kind::Adds { job: doer, .. } if job == doer => met + 1,
        _ => met,
    }
}

/// How many of these calls are slot events of the job.
fn events_met(before: &[CallEntry], job: u32) -> usize
    ensures { (r : Reports) → (last_progress (no_progress r) before.now).rest job ≡ behind result (r.acts job) }
{
    let mut met = 0;
    for entry in before {
        met = met_then(met, entry, job);
    }
    met
}

fn is_slot_event(event: Event) -> bool
    ensures event { IsTrue result → (x : SlotEvent) × (event ≡ event_of x) }
    ensures other { IsFalse result → (events : List EventData) → slots_in (event ∷ events) ≡ slots_in events }
{
    match event {
        Event::Ran(_) | Event::Fetched(_) | Event::Exchanged(_) | Event::Put(_) => false,
        Event::Took(_)
        | Event::Gave(_)
        | Event::GaveBad { .. }
        | Event::Down
        | Event::TookLocal
        | Event::GaveLocal => true,
    }
}

/// The slot event at this place among the slot events of a report.
fn slot_event_at(events: &[Event], place: usize) -> Option<Event>
    ensures { result ≡ option_map event_of (slice_get (slots_in events.now) place) }
{
    let mut left = place;
    for event in events {
        if is_slot_event(*event) {
            if left == 0 {
                return Some(*event);
            }
            left -= 1;
        }
    }
    None
}

/// The slot event of the job's report that comes next after these calls.
pub(crate) fn next_event(reports: &ReportList, before: &[CallEntry], job: u32) -> Option<Event>
    ensures { result ≡ option_map event_of (next_met ((last_progress (no_progress (unread reports.now)) before.now).rest job)) }
{
    match reports.get(job as usize) {
        Some(report) => slot_event_at(report.events.as_slice(), events_met(before, job)),
        None => None,
    }
}

/// The worker of the job's report, and 0 if there is none.
fn worker_of(reports: &ReportList, job: u32) -> u32
    ensures { result ≡ (unread reports.now).worker job }
{
    match reports.get(job as usize) {
        Some(report) => report.worker,
        None => 0,
    }
}

/// Whether this event is the next.
fn is_next(next: Option<Event>, event: Event) -> bool
    ensures { IsTrue result ↔ (next ≡ Some event) }
{
    match next {
        Some(next) => is_same(next, event),
        None => false,
    }
}

/// Whether a refused take, of a local slot or of a host's, waits for this event.
fn is_awaited(event: Option<Event>, local: bool) -> bool
    ensures { result ≡ is_awaited event local }
{
    match event {
        Some(Event::TookLocal) => local,
        Some(Event::Took(_) | Event::Down) => !local,
        _ => false,
    }
}

/// Whether the call follows these in the reports.
pub(crate) fn follows(
    limits: &Limits<16>,
    reports: &ReportList,
    before: &[CallEntry],
    entry: &CallEntry,
) -> bool
    requires { limits.now.count ≤ mask_bits }
    ensures { IsTrue result ↔ Follows (unread reports.now) (wanted limits.now) (last_progress (no_progress (unread reports.now)) before.now) entry.now.caller (job_call_of entry.now) }
{
    match kind_of(entry) {
        Kind::Draws(None) => true,
        Kind::Draws(Some(job)) => worker_of(reports, job) == entry.caller,
        Kind::Adds { job, mask, event } => {
            may_ask(limits, before, entry.caller, job, mask)
                && is_next(next_event(reports, before, job), event)
        }
        Kind::Waits { job, mask, local } => {
            may_ask(limits, before, entry.caller, job, mask)
                && is_awaited(next_event(reports, before, job), local)
        }
        Kind::Mismatched => false,
    }
}
