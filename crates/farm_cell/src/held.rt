//! A cell and one caller's pass, as grants.
ghost use Rattle.std.specs.Prelude.{◌≡◌};
ghost use Rattle.farm_cell.specs.Passes.{IsPassOf, limits_of, number_of, mine_of};
ghost use Rattle.farm_cell.specs.Held.{cell_of, pass_of, place_of};

use crate::cell::{Cell, Pass};
use slot_table::{Grant, Grants, LocalGrant, Mask, Take};
use std::sync::Wait;

/// A cell and one caller's pass: it hands out the cell's jobs and slots to this caller, beside others.
#[derive(Drop)]
pub struct Held<'a, R> {
    rt: &'a R,
    cell: &'a Cell<16, 34>,
    pass: &'a mut Pass,
}

impl<'a, R: Wait> Held<'a, R> {
    /// Joins the three. It takes no memory. Once it has ended, the pass is as the last call left it.
    pub fn new(rt: &'a R, cell: &'a Cell<16, 34>, pass: &'a mut Pass) -> Held<'a, R>
        requires pass { IsPassOf cell.now pass.old }
        ensures cell { cell_of result ≡ cell.now }
        ensures pass { pass_of result ≡ pass.old }
        ensures place { place_of result ≡ pass.entry.ghost_name }
    {
        Held { rt, cell, pass }
    }
}

impl<'a, R: Wait> Grants for Held<'a, R> {
    ghost use Rattle.std.specs.Prelude.{false, refl};
    ghost use Rattle.std.proofs.Common.{◌∙◌, ap};
    ghost use Rattle.farm_cell.specs.Held.{Stays};

    type Home = Cell<16, 34>;

    ghost home = { λ h. cell_of h };

    ghost place = { λ h. place_of h };

    ghost ready = { λ h. IsPassOf (cell_of h) (pass_of h) };

    ghost width = { 16 };

    ghost limits = { λ h. limits_of (cell_of h) };

    ghost caller_number = { λ h. number_of (pass_of h) };

    ghost follows = { λ a b. Stays a b };

    ghost mine = { λ h. mine_of (pass_of h) };

    ghost alone = { false };

    ghost spare = { λ h. 0 };

    ghost follows_itself = { λ h. record { cell = refl; place = refl; number = refl } };

    ghost follows_on = { λ a b c first second. record {
      cell = second.cell ∙ first.cell;
      place = second.place ∙ first.place;
      number = second.number ∙ first.number;
    } };

    ghost home_stays = { λ a b same. same.cell };

    ghost place_stays = { λ a b same. same.place };

    ghost limits_stay = { λ a b same. ap limits_of same.cell };

    ghost caller_stays = { λ a b same. same.number };

    fn caller(&self) -> u32 {
        self.pass.number
    }

    fn draw(&mut self) -> Option<u32> {
        self.cell.draw(self.rt, self.pass)
    }

    fn take(&mut self, job: u32, mask: Mask, now: u64) -> Take {
        self.cell.take(self.rt, self.pass, job, mask, now)
    }

    fn give(&mut self, grant: Grant) {
        self.cell.give(self.rt, self.pass, grant);
    }

    fn give_bad(&mut self, grant: Grant, until: u64) {
        self.cell.give_bad(self.rt, self.pass, grant, until);
    }

    fn take_local(&mut self, job: u32) -> Option<LocalGrant> {
        self.cell.take_local(self.rt, self.pass, job)
    }

    fn give_local(&mut self, grant: LocalGrant) {
        self.cell.give_local(self.rt, self.pass, grant);
    }
}
