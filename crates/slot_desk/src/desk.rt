//! The desk.
ghost use Rattle.std.specs.Prelude.{◌≡◌, ℕ, ◌≤◌, IfOk, Option, is_some, find};
ghost use Rattle.std.specs.List.{list_any};
ghost use Rattle.slot_table.specs.Limits.{AreValid};
ghost use Rattle.slot_desk.specs.Desk.{opened, is_full, is_known, is_of, waits_as, asked, told_at_once, ended, next_of, desk_step};

use crate::event::{Event, Loan, Reply, Waiter};
use crate::known::{is_waiting, loan_of, remove_loan, remove_waiting};
use crate::serving::{found_in, give_back, is_known, lend, take_in};
use slot_table::host_backoff::bad_until;
use slot_table::{Limits, Slots};
use std::alloc::{AllocError, Global};
use std::marker::Model;

/// The desk of a shared run. It has room for its callers from the start, and no call takes memory.
#[derive(Drop)]
pub struct Desk<const H: usize> {
    slots: Slots<H>,
    period: u32,
    most: u32,
    waiting: Vec<Waiter>,
    lent: Vec<Loan>,
}

impl<const H: usize> Model for Desk<H> {
    ghost use Rattle.std.specs.Prelude.{◌+◌, ◌≤◌, vec_len, vec_capacity};
    ghost use Rattle.slot_desk.specs.View.{Shown, IsKept};

    ghost Value = { Shown H };

    ghost view = { λ d. record { rules = record { limits = d.slots.limits; period = d.period; most = d.most }; state = record { slots = d.slots.state; waiting = d.waiting.items; lent = d.lent.items } } };

    ghost invariant = { λ d. IsKept (record { limits = d.slots.limits; period = d.period; most = d.most }) (record { slots = d.slots.state; waiting = d.waiting.items; lent = d.lent.items }) × (vec_len d.waiting + vec_len d.lent ≤ d.most) × (d.most ≤ vec_capacity d.waiting) × (d.most ≤ vec_capacity d.lent) };
}

impl<const H: usize> Desk<H> {
    /// Nobody has asked yet, and there is room for `most` callers. A host whose exchange broke isn't used for `period` seconds.
    pub fn new(
        alloc: Global,
        limits: Limits<H>,
        period: u32,
        most: u32,
    ) -> Result<Desk<H>, AllocError>
        requires { AreValid limits }
        ensures rules { IfOk result (λ made. made.rules ≡ record { limits = limits.entry; period = period; most = most }) }
        ensures state { IfOk result (λ made. made.state ≡ opened H) }
    {
        Ok(Desk {
            slots: Slots::new(limits),
            period,
            most,
            waiting: Vec::with_capacity(alloc, most as usize)?,
            lent: Vec::with_capacity(alloc, most as usize)?,
        })
    }

    /// Whether as many callers are known as may be: no new one is taken in.
    pub fn is_full(&self) -> bool
        ensures { result ≡ is_full self.now.rules self.now.state }
    {
        self.waiting.len() + self.lent.len() >= self.most as usize
    }

    /// Whether the caller has a loan.
    pub fn has_loan(&self, caller: u32) -> bool
        ensures { result ≡ is_some (find (is_of caller) self.now.state.lent) }
    {
        loan_of(self.lent.as_slice(), caller).is_some()
    }

    /// Whether the caller waits.
    pub fn is_waiting(&self, caller: u32) -> bool
        ensures { result ≡ list_any (waits_as caller) self.now.state.waiting }
    {
        is_waiting(self.waiting.as_slice(), caller)
    }

    /// Whether the caller waits, or has a loan.
    pub fn knows(&self, caller: u32) -> bool
        ensures { result ≡ is_known self.now.state caller }
    {
        is_known(self.waiting.as_slice(), self.lent.as_slice(), caller)
    }

    // A caller asks.
    fn ask(&mut self, waiter: Waiter) -> Reply
        ensures rules { self.new.rules ≡ self.old.rules }
        ensures asked { self.new.state ≡ asked self.old.rules self.old.state waiter }
        ensures reply { result ≡ told_at_once self.old.rules self.old.state waiter.caller }
    {
        let reply = self.told_at_once(waiter.caller);
        let lent = self.lent.as_slice();
        take_in(&mut self.waiting, lent, self.most, waiter);
        reply
    }

    // The reply that a caller gets at once when it asks.
    fn told_at_once(&self, caller: u32) -> Reply
        ensures { result ≡ told_at_once self.now.rules self.now.state caller }
    {
        if is_known(self.waiting.as_slice(), self.lent.as_slice(), caller) {
            Reply::Nobody
        } else if self.is_full() {
            Reply::Alone { caller }
        } else {
            Reply::Nobody
        }
    }

    // A caller is known no more. If its exchange broke, its host isn't used until this moment.
    fn end(&mut self, caller: u32, broken: Option<u64>)
        ensures rules { self.new.rules ≡ self.old.rules }
        ensures ended { self.new.state ≡ ended self.old.rules.limits self.old.state broken caller }
    {
        let loan = loan_of(self.lent.as_slice(), caller);
        give_back(&mut self.slots, broken, loan);
        remove_waiting(&mut self.waiting, caller);
        remove_loan(&mut self.lent, caller);
    }

    // One who waits is given a place, if there is one.
    fn next(&mut self, now: u64) -> Option<Loan>
        ensures rules { self.new.rules ≡ self.old.rules }
        ensures served { next_of self.old.rules.limits now self.old.state ≡ (self.new.state, result) }
    {
        let found = found_in(&mut self.slots, self.waiting.as_slice(), now);
        if let Some(loan) = found {
            lend(&mut self.waiting, &mut self.lent, loan);
        }
        found
    }

    /// Does what comes, and says what is answered. Takes no memory.
    pub fn step(&mut self, event: Event) -> Reply
        ensures rules { self.new.rules ≡ self.old.rules }
        ensures step { desk_step self.old.rules self.old.state event ≡ (self.new.state, result) }
    {
        match event {
            Event::Ask { caller } => return self.ask(Waiter {
                caller,
                local: false,
            }),
            Event::AskLocal { caller } => return self.ask(Waiter {
                caller,
                local: true,
            }),
            Event::AskWithin { caller } => return Reply::Within { caller },
            Event::Done { caller } => self.end(caller, None),
            Event::Broke { caller, now } => {
                let until = bad_until(now, self.period);
                self.end(caller, Some(until));
            }
            Event::Lost { caller } => self.end(caller, None),
            Event::Next { now } => {
                return match self.next(now) {
                    Some(loan) => Reply::Lent(loan),
                    None => Reply::Nobody,
                };
            }
        }
        Reply::Nobody
    }
}
