//! The slots, shared among threads.
ghost use Rattle.std.specs.Prelude.{◌<◌};
ghost use Rattle.slot_table.specs.Limits.{AreValid};

use crate::exchanges::Seat;
use crate::rule::{InOneOrder, View};
use crate::words::SlotWords;
use crossbeam_utils::atomic::seq_cell::{RuledSeqCell, Words};
use slot_table::Limits;

/// The slots of a farm with at most `H` entries, shared. Each call is one exchange on the cell's `N` words.
/// It has its calls for sixteen entries, whose state is 34 words.
#[derive(Drop)]
pub struct Cell<const H: usize, const N: usize>
where
    SlotWords<H>: Words<N>,
{
    pub(crate) limits: Limits<H>,
    pub(crate) callers: u32,
    pub(crate) words: RuledSeqCell<SlotWords<H>, View<H>, InOneOrder, N>,
    pub ghost valid: { AreValid limits },
    pub ghost some: { 0 < callers },
}

/// What one caller knows of a cell, and its number. Each call of the cell is made with one.
#[derive(Drop)]
pub struct Pass {
    pub(crate) number: u32,
    pub(crate) seat: Seat,
}

/// The passes of a cell's callers, by number.
pub type Passes = Vec<Pass>;
