//! Exchanges on the words of a cell.
ghost use Rattle.std.specs.Prelude.{◌≡◌, true, Some, IfOk, IfErr};
ghost use Rattle.crossbeam_utils.specs.Seq.{cell_view, IsSamePass};
ghost use Rattle.slot_table.specs.Limits.{AreValid};
ghost use Rattle.slot_table.specs.Step.{slot_step, CanStep};
ghost use Rattle.slot_table.specs.History.{may_call, outstanding};
ghost use Rattle.farm_cell.specs.Rule.{Extended, Looked, IsSingle, Added};

use crate::rule::{Ask, Called, InOneOrder, Looking, View};
use crate::words::SlotWords;
use crossbeam_utils::atomic::seq_cell::{Pass as SeqPass, RuledSeqCell};
use slot_table::{Limits, SlotCall, SlotState, Slots};
use std::marker::Brand;
use std::sync::Wait;

/// The words of a cell, under its rule.
pub type SharedWords = RuledSeqCell<SlotWords<16>, View<16>, InOneOrder, 34>;

/// What one pass knows of the words.
pub type Seat = SeqPass<SlotWords<16>, View<16>>;

/// A call, with the state that it is to meet and the state after it.
#[derive(Clone, Copy)]
struct Change {
    call: SlotCall,
    current: SlotState<16>,
    new: SlotState<16>,
}

/// Puts the new state in place of the current one, which makes the call. If another state is there, nothing changes, and it is returned.
fn ask<C: Ask, R: Wait>(
    rt: &R,
    words: &SharedWords,
    limits: &Limits<16>,
    seat: &mut Seat,
    change: &Change,
) -> Result<(), SlotState<16>>
    requires cell { seat.old.table_id ≡ words.now.table.shared.table_id }
    requires call { C.call ≡ change.now.call }
    requires current { C.current ≡ change.now.current }
    requires limits { (cell_view seat.old).limits ≡ Some limits.now }
    requires single { IsSingle (cell_view seat.old) }
    requires may { may_call limits.now (cell_view seat.old).low (outstanding (cell_view seat.old).mine) C.call ≡ true }
    requires new { change.now.new ≡ (slot_step limits.now change.now.current C.call).0 }
    ensures cell { IsSamePass seat.old seat.new }
    ensures ok { IfOk result (λ x. Extended (cell_view seat.old) C.current C.call (cell_view seat.new)) }
    ensures err { IfErr result (λ x. Looked (cell_view seat.old) x (cell_view seat.new)) }
{
    match words.compare_exchange_as::<Called<C>, R>(
        rt,
        seat,
        SlotWords {
            state: change.current,
        },
        SlotWords { state: change.new },
    ) {
        Ok(_) => Ok(()),
        Err(now) => Err(now.state),
    }
}

/// Sees the history so far, and gives the state that it leaves.
pub(crate) fn look<R: Wait>(
    rt: &R,
    words: &SharedWords,
    limits: &Limits<16>,
    seat: &mut Seat,
) -> SlotState<16>
    requires cell { seat.old.table_id ≡ words.now.table.shared.table_id }
    requires limits { (cell_view seat.old).limits ≡ Some limits.now }
    ensures cell { IsSamePass seat.old seat.new }
    ensures seen { Looked (cell_view seat.old) result (cell_view seat.new) }
{
    words.load_as::<Looking, R>(rt, seat).state
}

/// The state after a call.
fn stepped(limits: &Limits<16>, met: &SlotState<16>, call: SlotCall) -> SlotState<16>
    requires valid { AreValid limits.now }
    requires can { CanStep limits.now met.now call }
    ensures { result ≡ (slot_step limits.now met.now call).0 }
{
    let mut slots = Slots {
        limits: *limits,
        state: *met,
    };
    let _reply = slots.step(call);
    slots.state
}

/// Makes a call, and gives the state that it met.
pub(crate) fn exchange<R: Wait>(
    rt: &R,
    words: &SharedWords,
    limits: &Limits<16>,
    seat: &mut Seat,
    call: SlotCall,
) -> SlotState<16>
    requires valid { AreValid limits.now }
    requires cell { seat.old.table_id ≡ words.now.table.shared.table_id }
    requires limits { (cell_view seat.old).limits ≡ Some limits.now }
    requires single { IsSingle (cell_view seat.old) }
    requires may { may_call limits.now (cell_view seat.old).low (outstanding (cell_view seat.old).mine) call ≡ true }
    ensures cell { IsSamePass seat.old seat.new }
    ensures added { Added limits.now (cell_view seat.old) call result (cell_view seat.new) }
    ensures can { CanStep limits.now result call }
{
    let mut met = look(rt, words, limits, seat);
    for _ in rt.forever() {
        let next = stepped(limits, &met, call);
        let change = Change {
            call,
            current: met,
            new: next,
        };
        match ask::<Brand, R>(rt, words, limits, seat, &change) {
            Ok(()) => return met,
            Err(now) => met = now,
        }
    }
    unreachable!()
}
