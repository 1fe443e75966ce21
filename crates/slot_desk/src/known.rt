//! Lists of callers and of loans.
ghost use Rattle.std.specs.Prelude.{◌≡◌, ◌≤◌, not, filter, find, vec_len, vec_capacity};
ghost use Rattle.std.specs.List.{list_any};
ghost use Rattle.slot_desk.specs.Desk.{first_as, is_of, same, waits_as};

use crate::event::{Loan, Waiter};

/// Whether the caller waits.
pub fn is_waiting(waiting: &[Waiter], caller: u32) -> bool
    ensures { result ≡ list_any (waits_as caller) waiting.now }
{
    for waiter in waiting {
        if caller == waiter.caller {
            return true;
        }
    }
    false
}

/// The caller's loan.
pub fn loan_of(lent: &[Loan], caller: u32) -> Option<Loan>
    ensures { result ≡ find (is_of caller) lent.now }
{
    for loan in lent {
        if caller == loan.caller {
            return Some(*loan);
        }
    }
    None
}

/// The one who waits longest for a local slot, or for a slot of a host.
pub fn first_as(local: bool, waiting: &[Waiter]) -> Option<Waiter>
    ensures { result ≡ first_as local waiting.now }
{
    for waiter in waiting {
        if local == waiter.local {
            return Some(*waiter);
        }
    }
    None
}

/// The others that wait stay.
pub fn remove_waiting(waiting: &mut Vec<Waiter>, caller: u32)
    ensures others { waiting.new.items ≡ filter (λ waiter. not (waits_as caller waiter)) waiting.old.items }
    ensures bound { vec_len waiting.new ≤ vec_len waiting.old }
    ensures capacity { vec_capacity waiting.new ≡ vec_capacity waiting.old }
{
    waiting.retain(|waiter| caller != waiter.caller);
}

/// The loans of others stay.
pub fn remove_loan(lent: &mut Vec<Loan>, caller: u32)
    ensures others { lent.new.items ≡ filter (λ loan. not (is_of caller loan)) lent.old.items }
    ensures bound { vec_len lent.new ≤ vec_len lent.old }
    ensures capacity { vec_capacity lent.new ≡ vec_capacity lent.old }
{
    lent.retain(|loan| caller != loan.caller);
}
