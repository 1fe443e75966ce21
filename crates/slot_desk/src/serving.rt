//! What one event does to the parts of a desk.
ghost use Rattle.std.specs.Prelude.{◌≡◌, ℕ, ◌+◌, ◌<◌, ◌≤◌, ◌∷◌, ◌++◌, [], ◌||◌, if◌then◌else◌, not, Option, Some, IfSome, is_some, length, filter, find, nat_le, vec_len, vec_capacity};
ghost use Rattle.std.specs.List.{list_any};
ghost use Rattle.slot_table.specs.Limits.{is_local};
ghost use Rattle.slot_table.specs.Step.{slot_step, CanStep};
ghost use Rattle.slot_desk.specs.Desk.{is_of, waits_as, here_by, place_for, place_as, found_for, found_in, or_other, lent_to, give_of, given_back};

use crate::event::{Loan, Place, Waiter};
use crate::known::{first_as, is_waiting, loan_of, remove_waiting};
use slot_table::{Limits, Mask, SlotCall, SlotReply, Slots};

/// Whether the caller waits, or has a loan.
pub fn is_known(waiting: &[Waiter], lent: &[Loan], caller: u32) -> bool
    ensures { result ≡ (list_any (waits_as caller) waiting.now || is_some (find (is_of caller) lent.now)) }
{
    is_waiting(waiting, caller) || loan_of(lent, caller).is_some()
}

/// A new caller waits after the others, if there is room for one more.
pub fn take_in(waiting: &mut Vec<Waiter>, lent: &[Loan], most: u32, waiter: Waiter)
    requires within { vec_len waiting.old + length lent.now ≤ most }
    requires room { most ≤ vec_capacity waiting.old }
    ensures items { waiting.new.items ≡
        (if (list_any (waits_as waiter.caller) waiting.old.items || is_some (find (is_of waiter.caller) lent.now)) || nat_le most (length waiting.old.items + length lent.now)
        then waiting.old.items else waiting.old.items ++ waiter ∷ []) }
    ensures within { vec_len waiting.new + length lent.now ≤ most }
    ensures capacity { vec_capacity waiting.new ≡ vec_capacity waiting.old }
{
    if is_known(waiting.as_slice(), lent, waiter.caller) {
        return;
    }
    if waiting.len() + lent.len() < most as usize {
        waiting.push_reserved(waiter);
    }
}

// This place in a local slot, for a caller.
fn local_for<const H: usize>(slots: &mut Slots<H>, caller: u32, place: Place) -> Option<Place>
    ensures limits { slots.new.limits ≡ slots.old.limits }
    ensures place { here_by place (slot_step slots.old.limits slots.old.state (SlotCall.TakeLocal caller)) ≡ (slots.new.state, result) }
{
    match slots.step(SlotCall::TakeLocal { job: caller }) {
        SlotReply::Local(true) => Some(place),
        _ => None,
    }
}

// A place by a host, for a caller.
fn place_for<const H: usize>(slots: &mut Slots<H>, caller: u32, now: u64) -> Option<Place>
    ensures limits { slots.new.limits ≡ slots.old.limits }
    ensures place { place_for slots.old.limits slots.old.state caller now ≡ (slots.new.state, result) }
{
    let take = SlotCall::Take {
        job: caller,
        mask: Mask { bits: u64::MAX },
        now,
    };
    match slots.step(take) {
        SlotReply::Got(host) => Some(Place::Host(host)),
        SlotReply::Down => local_for(slots, caller, Place::Here),
        _ => None,
    }
}

// A place as a caller asked for it.
fn place_as<const H: usize>(slots: &mut Slots<H>, waiter: Waiter, now: u64) -> Option<Place>
    ensures limits { slots.new.limits ≡ slots.old.limits }
    ensures place { place_as slots.old.limits now slots.old.state waiter ≡ (slots.new.state, result) }
{
    if waiter.local {
        local_for(slots, waiter.caller, Place::LocalSlot)
    } else {
        place_for(slots, waiter.caller, now)
    }
}

fn found_for<const H: usize>(slots: &mut Slots<H>, waiter: Waiter, now: u64) -> Option<Loan>
    ensures limits { slots.new.limits ≡ slots.old.limits }
    ensures found { found_for slots.old.limits now slots.old.state (Some waiter) ≡ (slots.new.state, result) }
{
    let caller = waiter.caller;
    match place_as(slots, waiter, now) {
        Some(place) => Some(Loan { caller, place }),
        None => None,
    }
}

fn found_for_any<const H: usize>(
    slots: &mut Slots<H>,
    waiter: Option<Waiter>,
    now: u64,
) -> Option<Loan>
    ensures limits { slots.new.limits ≡ slots.old.limits }
    ensures found { found_for slots.old.limits now slots.old.state waiter ≡ (slots.new.state, result) }
{
    match waiter {
        Some(waiter) => found_for(slots, waiter, now),
        None => None,
    }
}

/// A place for the one who waits longest; or else for the one who waits longest of those that wait for the other kind of slot.
pub fn found_in<const H: usize>(slots: &mut Slots<H>, waiting: &[Waiter], now: u64) -> Option<Loan>
    ensures limits { slots.new.limits ≡ slots.old.limits }
    ensures found { found_in slots.old.limits now slots.old.state waiting.now ≡ (slots.new.state, result) }
{
    let [first, ..] = waiting else {
        return None;
    };
    let local = first.local;
    match found_for(slots, *first, now) {
        Some(loan) => Some(loan),
        None => found_for_any(slots, first_as(!local, waiting), now),
    }
}

/// Whoever is given a place waits no more, and has it as its loan.
pub fn lend(waiting: &mut Vec<Waiter>, lent: &mut Vec<Loan>, loan: Loan)
    requires room { vec_len lent.old < vec_capacity lent.old }
    ensures waiting { waiting.new.items ≡ filter (λ waiter. not (waits_as loan.caller waiter)) waiting.old.items }
    ensures lent { lent.new.items ≡ loan ∷ lent.old.items }
    ensures bound { vec_len waiting.new ≤ vec_len waiting.old }
    ensures capacity { vec_capacity waiting.new ≡ vec_capacity waiting.old }
    ensures lent_len { vec_len lent.new ≡ vec_len lent.old + 1 }
    ensures lent_capacity { vec_capacity lent.old ≤ vec_capacity lent.new }
{
    remove_waiting(waiting, loan.caller);
    let Ok(()) = lent.insert(0, loan) else {
        unreachable!()
    };
}

fn is_local<const H: usize>(limits: &Limits<H>, host: u32) -> bool
    ensures { result ≡ is_local limits.now host }
{
    match limits.local.as_slice().get(host as usize) {
        Some(local) => *local,
        None => false,
    }
}

// The call that gives a place back.
fn give_of<const H: usize>(limits: &Limits<H>, broken: Option<u64>, loan: Loan) -> SlotCall
    ensures { result ≡ give_of limits.now broken loan.caller loan.place }
{
    let job = loan.caller;
    match (loan.place, broken) {
        (Place::Here | Place::LocalSlot, _) => SlotCall::GiveLocal { job },
        (Place::Host(host), Some(until)) if !is_local(limits, host) => {
            SlotCall::GiveBad { host, job, until }
        }
        (Place::Host(host), _) => SlotCall::Give { host, job },
    }
}

/// A loan is given back. Its host isn't used until the moment that is given.
pub fn give_back<const H: usize>(slots: &mut Slots<H>, broken: Option<u64>, loan: Option<Loan>)
    requires can { IfSome loan (λ one. CanStep slots.old.limits slots.old.state (give_of slots.old.limits broken one.caller one.place)) }
    ensures limits { slots.new.limits ≡ slots.old.limits }
    ensures given { slots.new.state ≡ given_back slots.old.limits slots.old.state broken loan }
{
    if let Some(loan) = loan {
        let call = give_of(&slots.limits, broken, loan);
        let _ = slots.step(call);
    }
}
