//! The first and the last call of the shared slots.
ghost use Rattle.std.specs.Prelude.{◌≡◌, ◌<◌, ◌≤◌, [], All, IfOk};
ghost use Rattle.farm_types.specs.Limits.{workers_max};
ghost use Rattle.crossbeam_utils.specs.Seq.{cell_view};
ghost use Rattle.slot_table.specs.Limits.{AreValid};
ghost use Rattle.slot_table.specs.History.{IsLegal, state_after, outstanding};
ghost use Rattle.farm_cell.specs.Rule.{unopened, opened, both, AreNext};
ghost use Rattle.farm_cell.specs.Passes.{limits_of, callers_of, number_of, seen_of, mine_of};
ghost use Rattle.farm_cell.specs.Ends.{AreAllOf, all_mine, HasEachMine, AreByCallersBelow};

use crate::cell::{Cell, Pass, Passes};
use crate::exchanges::{Seat, SharedWords, look};
use crate::rule::{Comes, HandsOver, Meets, Opening, Tell};
use crate::words::SlotWords;
use slot_table::{Limits, Slots};
use std::alloc::{AllocError, Global};
use std::marker::Brand;
use std::sync::Wait;

/// Gives the first pass the limits.
fn open<C: Tell, R: Wait>(rt: &R, words: &SharedWords, seat: &mut Seat, _limits: &Limits<16>)
    requires cell { seat.old.table_id ≡ words.now.table.shared.table_id }
    requires fresh { cell_view seat.old ≡ unopened }
    requires limits { C.limits ≡ _limits.now }
    ensures cell { seat.new.table_id ≡ seat.old.table_id }
    ensures opened { cell_view seat.new ≡ opened _limits.now }
{
    let _current = words.load_as::<Opening<C>, R>(rt, seat);
}

/// The words of the opening state, and the first pass, which is given the limits.
fn begin<R: Wait>(
    rt: &R,
    alloc: Global,
    limits: &Limits<16>,
) -> Result<(SharedWords, Seat), AllocError>
    requires valid { AreValid limits.now }
    ensures cell { IfOk result (λ made. made.1.table_id ≡ made.0.table.shared.table_id) }
    ensures opened { IfOk result (λ made. cell_view made.1 ≡ opened limits.now) }
{
    let state = Slots::new(*limits).state;
    let (words, mut seat) = SharedWords::ruled(alloc, SlotWords { state })?;
    open::<Brand, R>(rt, &words, &mut seat, limits);
    Ok((words, seat))
}

/// Joins the pass of the next caller to the first one.
fn join(words: &SharedWords, first: &mut Seat, mut next: Seat)
    requires first { first.old.table_id ≡ words.now.table.shared.table_id }
    requires next { next.table_id ≡ words.now.table.shared.table_id }
    requires views { AreNext (cell_view first.old) (cell_view next) }
    ensures cell { first.new.table_id ≡ first.old.table_id }
    ensures both { cell_view first.new ≡ both (cell_view first.old) (cell_view next) }
{
    let handed = words.split_pass::<HandsOver>(&mut next);
    words.join_pass::<Meets>(first, handed);
}

impl Cell<16, 34> {
    /// A cell with nothing called yet, and a pass for each of that many callers, 1 to 16, by number. Only this call takes memory. It
    /// returns an error if memory runs out.
    pub fn new<R: Wait>(
        rt: &R,
        alloc: Global,
        limits: Limits<16>,
        callers: u32,
    ) -> Result<(Cell<16, 34>, Passes), AllocError>
        requires limits { AreValid limits }
        requires callers { (0 < callers) × (callers ≤ workers_max) }
        ensures limits { IfOk result (λ made. limits_of made.0 ≡ limits) }
        ensures callers { IfOk result (λ made. callers_of made.0 ≡ callers) }
        ensures passes { IfOk result (λ made. AreAllOf made.0 made.1.items) }
        ensures blank { IfOk result (λ made. All (λ p. (seen_of p ≡ []) × (mine_of p ≡ [])) made.1.items) }
    {
        let (words, mut first) = begin(rt, alloc, &limits)?;
        let mut rest = Vec::with_capacity(alloc, callers as usize)?;
        for number in 1..callers {
            let seat = words.split_pass::<Comes>(&mut first);
            rest.push(Pass { number, seat })?;
        }
        let mut passes = Vec::with_capacity(alloc, callers as usize)?;
        passes.push(Pass {
            number: 0,
            seat: first,
        })?;
        passes.append(&mut rest)?;
        Ok((
            Cell {
                limits,
                callers,
                words,
            },
            passes,
        ))
    }

    /// The last state, and one pass with every caller's calls: it has seen them in their one order. No slot
    /// is given out any more. It takes no memory.
    pub fn close<R: Wait>(self, rt: &R, passes: Passes) -> (Slots<16>, Pass)
        requires passes { AreAllOf self passes.items }
        requires back { All (λ p. outstanding (mine_of p) ≡ []) passes.items }
        ensures limits { result.0.limits ≡ limits_of self }
        ensures legal { IsLegal (limits_of self) (seen_of result.1) }
        ensures state { result.0.state ≡ state_after (limits_of self) (seen_of result.1) }
        ensures callers { AreByCallersBelow (callers_of self) (seen_of result.1) }
        ensures each { HasEachMine (seen_of result.1) passes.items }
        ensures number { number_of result.1 ≡ 0 }
        ensures mine { mine_of result.1 ≡ all_mine passes.items }
        ensures back { outstanding (seen_of result.1) ≡ [] }
    {
        let mut rest = passes.into_iter();
        let Some(mut first) = rest.next() else {
            unreachable!()
        };
        for next in rest {
            let Pass { number: _, seat } = next;
            join(&self.words, &mut first.seat, seat);
        }
        let slots = Slots {
            limits: self.limits,
            state: look(rt, &self.words, &self.limits, &mut first.seat),
        };
        (slots, first)
    }
}
