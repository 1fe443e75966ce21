//! A mark, which one of its users in several threads has at once.
ghost use Rattle.std.specs.Prelude.{◌≡◌, true, false, ◌++◌, [], ◌∷◌};
ghost use Rattle.std.specs.Arc.{arc_value};
ghost use Rattle.crossbeam_utils.specs.Seq.{cell_view, IsSamePass};
ghost use Rattle.edge_gates.specs.MarkRule.{turn_of};

use crate::marked::{Enters, Leaves, MarkView, Marked, OneInside};
use crossbeam_utils::atomic::seq_cell::{Pass, RuledSeqCell};
use std::alloc::{AllocError, Global};
use std::sync::{Arc, Wait};
use std::thread;

/// How often a user that is inside lets other threads run.
const ALONE_TURNS: u32 = 100_000;

/// Whether the mark is set, shared, under its rule.
pub(crate) type SharedMarked = RuledSeqCell<Marked, MarkView, OneInside, 1>;

/// One user of a mark. It is outside but while it lets other threads run.
#[derive(Drop)]
pub(crate) struct Mark<'a, R> {
    rt: &'a R,
    marked: Arc<SharedMarked, Global>,
    pass: Pass<Marked, MarkView>,
    ghost seated: { pass.table_id ≡ (arc_value marked).table.shared.table_id },
    ghost outside: { (cell_view pass).inside ≡ false },
}

impl<'a, R: Wait> Mark<'a, R> {
    ghost use Rattle.std.specs.Prelude.{◌≡◌, ◌++◌, [], ◌∷◌, IfOk};
    ghost use Rattle.edge_gates.specs.MarkRule.{outsider, turn_of};
    ghost use Rattle.edge_gates.specs.MarkUsers.{view_of, name_of};

    /// A mark that is clear, and its two users.
    pub(crate) fn pair(rt: &'a R, alloc: Global) -> Result<(Mark<'a, R>, Mark<'a, R>), AllocError>
        ensures one { IfOk result (λ made. name_of made.0 ≡ name_of made.1) }
        ensures first { IfOk result (λ made. view_of made.0 ≡ outsider) }
        ensures second { IfOk result (λ made. view_of made.1 ≡ outsider) }
    {
        let (marked, pass) = SharedMarked::ruled(alloc, Marked::Clear)?;
        let marked = Arc::new(alloc, marked)?;
        let theirs = Arc::try_clone(&marked)?;
        let their_pass = theirs.pass();
        let first = Mark { rt, marked, pass };
        let second = Mark {
            rt,
            marked: theirs,
            pass: their_pass,
        };
        Ok((first, second))
    }

    /// If the mark is clear: enters, lets other threads run 100,000 times and leaves. Returns whether it was clear.
    pub(crate) fn run_alone(&mut self) -> bool
        ensures one { name_of self.new ≡ name_of self.old }
        ensures turn { (view_of self.new).turns ≡ (view_of self.old).turns ++ turn_of result ∷ [] }
    {
        stay(self.rt, &self.marked, &mut self.pass)
    }
}

/// If the mark is clear: enters, lets other threads run 100,000 times and leaves. Returns whether it was clear.
fn stay<R: Wait>(rt: &R, marked: &SharedMarked, pass: &mut Pass<Marked, MarkView>) -> bool
    requires cell { pass.old.table_id ≡ marked.now.table.shared.table_id }
    requires outside { (cell_view pass.old).inside ≡ false }
    ensures cell { IsSamePass pass.old pass.new }
    ensures outside { (cell_view pass.new).inside ≡ false }
    ensures turn { (cell_view pass.new).turns ≡ (cell_view pass.old).turns ++ turn_of result ∷ [] }
{
    if !enter(rt, marked, pass) {
        return false;
    }
    for _ in 0..ALONE_TURNS {
        thread::yield_now();
    }
    leave(rt, marked, pass);
    true
}

/// Enters if the mark is clear, and returns whether it was.
fn enter<R: Wait>(rt: &R, marked: &SharedMarked, pass: &mut Pass<Marked, MarkView>) -> bool
    requires cell { pass.old.table_id ≡ marked.now.table.shared.table_id }
    requires outside { (cell_view pass.old).inside ≡ false }
    ensures cell { IsSamePass pass.old pass.new }
    ensures inside { (cell_view pass.new).inside ≡ result }
    ensures turn { (cell_view pass.new).turns ≡ (cell_view pass.old).turns ++ turn_of result ∷ [] }
{
    match marked.compare_exchange_as::<Enters, R>(rt, pass, Marked::Clear, Marked::Set) {
        Ok(_) => true,
        Err(_) => false,
    }
}

/// Leaves.
fn leave<R: Wait>(rt: &R, marked: &SharedMarked, pass: &mut Pass<Marked, MarkView>)
    requires cell { pass.old.table_id ≡ marked.now.table.shared.table_id }
    requires inside { (cell_view pass.old).inside ≡ true }
    ensures cell { IsSamePass pass.old pass.new }
    ensures outside { (cell_view pass.new).inside ≡ false }
    ensures turns { (cell_view pass.new).turns ≡ (cell_view pass.old).turns }
{
    let _found = marked.swap_as::<Leaves, R>(rt, pass, Marked::Clear);
}
