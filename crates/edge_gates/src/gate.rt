//! A gate, at which users in several threads ask and see how many have asked.
ghost use Rattle.std.specs.Prelude.{◌≡◌, ◌≢◌, ◌+◌, ◌≤◌, ◌↔◌, IsTrue, false};
ghost use Rattle.std.specs.Arc.{arc_value};
ghost use Rattle.crossbeam_utils.specs.Seq.{cell_view, IsSamePass};
ghost use Rattle.edge_gates.specs.declared.asked.Place.TheVariants.{NotYet};
ghost use Rattle.edge_gates.specs.GateRule.{number_of, held_looks};

use crate::asked::{AskInTurn, Asked, AsksFirst, AsksLater, GateView, Looks, Place};
use crossbeam_utils::atomic::seq_cell::{Pass, RuledSeqCell};
use std::alloc::{AllocError, Global};
use std::sync::{Arc, Wait};
use std::thread;

/// How often a call that is held lets other threads run before it fails.
const HELD_TURNS: u32 = 1_000_000;

/// How many have asked, shared, under the rule of a gate.
pub(crate) type SharedAsked = RuledSeqCell<Asked, GateView, AskInTurn, 1>;

/// One user of a gate.
#[derive(Drop)]
pub(crate) struct Gate<'a, R> {
    rt: &'a R,
    asked: Arc<SharedAsked, Global>,
    pass: Pass<Asked, GateView>,
    /// The place that the pass knows.
    place: Place,
    ghost seated: { pass.table_id ≡ (arc_value asked).table.shared.table_id },
    ghost placed: { (cell_view pass).place ≡ place },
}

impl<'a, R: Wait> Gate<'a, R> {
    ghost use Rattle.std.specs.Prelude.{◌≡◌, ◌≢◌, ◌+◌, ◌≤◌, ◌↔◌, false, IsTrue, IfOk};
    ghost use Rattle.edge_gates.specs.declared.asked.Asked.TheVariants.{Several};
    ghost use Rattle.edge_gates.specs.declared.asked.Place.TheVariants.{NotYet, First};
    ghost use Rattle.edge_gates.specs.GateRule.{number_of, newcomer, held_looks};
    ghost use Rattle.edge_gates.specs.GateUsers.{view_of, name_of};

    /// A gate at which nobody has asked, and its two users.
    pub(crate) fn pair(rt: &'a R, alloc: Global) -> Result<(Gate<'a, R>, Gate<'a, R>), AllocError>
        ensures one { IfOk result (λ made. name_of made.0 ≡ name_of made.1) }
        ensures first { IfOk result (λ made. view_of made.0 ≡ newcomer) }
        ensures second { IfOk result (λ made. view_of made.1 ≡ newcomer) }
    {
        let (asked, pass) = SharedAsked::ruled(alloc, Asked::Nobody)?;
        let first = Gate {
            rt,
            asked: Arc::new(alloc, asked)?,
            pass,
            place: Place::NotYet,
        };
        let second = first.share()?;
        Ok((first, second))
    }

    /// One more user.
    pub(crate) fn share(&self) -> Result<Gate<'a, R>, AllocError>
        ensures one { IfOk result (λ made. name_of made ≡ name_of self.now) }
        ensures newcomer { IfOk result (λ made. view_of made ≡ newcomer) }
    {
        let asked = Arc::try_clone(&self.asked)?;
        let pass = asked.pass();
        Ok(Gate {
            rt: self.rt,
            asked,
            pass,
            place: Place::NotYet,
        })
    }

    /// The user asks, if it hasn't yet.
    pub(crate) fn ask(&mut self)
        ensures one { name_of self.new ≡ name_of self.old }
        ensures asked { (view_of self.new).place ≢ NotYet }
        ensures once { (view_of self.old).place ≢ NotYet → view_of self.new ≡ view_of self.old }
        ensures looks { (view_of self.new).looks ≡ (view_of self.old).looks }
    {
        if self.place == Place::NotYet {
            self.place = ask_now(self.rt, &self.asked, &mut self.pass);
        }
    }

    /// Whether the user was the first to ask.
    fn is_first(&self) -> bool
        ensures { IsTrue result ↔ (view_of self.now).place ≡ First }
    {
        self.place == Place::First
    }

    /// Asks if the user hasn't yet, and waits for a second user if it was the first. Returns whether it needn't wait
    /// any longer.
    pub(crate) fn is_let_through(&mut self) -> bool
        ensures one { name_of self.new ≡ name_of self.old }
        ensures asked { (view_of self.new).place ≢ NotYet }
        ensures once { (view_of self.old).place ≢ NotYet → (view_of self.new).place ≡ (view_of self.old).place }
        ensures held { IsTrue result → (view_of self.new).place ≡ First → (view_of self.new).seen ≡ Several }
        ensures failed { result ≡ false → (view_of self.new).place ≡ First }
        ensures unseen { result ≡ false → (view_of self.new).seen ≢ Several }
        ensures looks { result ≡ false → (view_of self.new).looks ≡ (view_of self.old).looks + held_looks }
    {
        self.ask();
        if !self.is_first() {
            return true;
        }
        self.wait_for(Asked::Several)
    }

    /// Lets other threads run until `least` have asked, 1,000,000 times at most, and returns whether they have.
    pub(crate) fn wait_for(&mut self, least: Asked) -> bool
        ensures one { name_of self.new ≡ name_of self.old }
        ensures place { (view_of self.new).place ≡ (view_of self.old).place }
        ensures seen { IsTrue result ↔ number_of least ≤ number_of (view_of self.new).seen }
        ensures looks { result ≡ false → (view_of self.new).looks ≡ (view_of self.old).looks + held_looks }
    {
        wait_until(self.rt, &self.asked, &mut self.pass, least)
    }
}

/// Asks, and gives the place.
fn ask_now<R: Wait>(rt: &R, asked: &SharedAsked, pass: &mut Pass<Asked, GateView>) -> Place
    requires cell { pass.old.table_id ≡ asked.now.table.shared.table_id }
    requires fresh { (cell_view pass.old).place ≡ NotYet }
    ensures cell { IsSamePass pass.old pass.new }
    ensures place { (cell_view pass.new).place ≡ result }
    ensures asked { result ≢ NotYet }
    ensures looks { (cell_view pass.new).looks ≡ (cell_view pass.old).looks }
{
    match asked.compare_exchange_as::<AsksFirst, R>(rt, pass, Asked::Nobody, Asked::One) {
        Ok(_) => Place::First,
        Err(_) => {
            let _found = asked.swap_as::<AsksLater, R>(rt, pass, Asked::Several);
            Place::Later
        }
    }
}

/// Looks how many have asked.
fn look<R: Wait>(rt: &R, asked: &SharedAsked, pass: &mut Pass<Asked, GateView>) -> Asked
    requires cell { pass.old.table_id ≡ asked.now.table.shared.table_id }
    ensures cell { IsSamePass pass.old pass.new }
    ensures place { (cell_view pass.new).place ≡ (cell_view pass.old).place }
    ensures seen { (cell_view pass.new).seen ≡ result }
    ensures looks { (cell_view pass.new).looks ≡ (cell_view pass.old).looks + 1 }
{
    asked.load_as::<Looks, R>(rt, pass)
}

/// Lets other threads run until `least` have asked, 1,000,000 times at most, and returns whether they have.
fn wait_until<R: Wait>(
    rt: &R,
    asked: &SharedAsked,
    pass: &mut Pass<Asked, GateView>,
    least: Asked,
) -> bool
    requires cell { pass.old.table_id ≡ asked.now.table.shared.table_id }
    ensures cell { IsSamePass pass.old pass.new }
    ensures place { (cell_view pass.new).place ≡ (cell_view pass.old).place }
    ensures seen { IsTrue result ↔ number_of least ≤ number_of (cell_view pass.new).seen }
    ensures looks { result ≡ false → (cell_view pass.new).looks ≡ (cell_view pass.old).looks + held_looks }
{
    let mut seen = look(rt, asked, pass);
    for turn in 0..HELD_TURNS {
        if least.number() <= seen.number() {
            return true;
        }
        thread::yield_now();
        seen = look(rt, asked, pass);
    }
    least.number() <= seen.number()
}
