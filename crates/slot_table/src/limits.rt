//! What a farm's slots are limited by.
ghost use Rattle.std.specs.Prelude.{◌↔◌, ◌≤◌, IsTrue};

use crate::mask::MASK_BITS;

/// What a farm's slots are limited by. It never changes.
#[derive(Clone, Copy, PartialEq, Eq, Debug)]
pub struct Limits<const H: usize> {
    /// The number of host entries. The arrays have nothing to say from there on.
    pub count: u32,
    /// How many jobs each entry may work at.
    pub limit: [u8; H],
    /// Whether each entry is this machine, which is never in back-off.
    pub local: [bool; H],
    /// How many jobs may be compiled or run here beside the host entries.
    pub local_slots: u8,
    /// The number of jobs, which are numbered from 0.
    pub jobs: u32,
    /// Whether jobs begin their search for a host at different entries.
    pub rotate: bool,
}

impl<const H: usize> Limits<H> {
    ghost use Rattle.slot_table.specs.Limits.{AreValid, EachHasSlot};

    /// Whether the entries have their places in the arrays and in a mask, each of them has a slot, and there
    /// is a local slot.
    pub fn are_valid(&self) -> bool
        ensures { IsTrue result ↔ AreValid self.now }
    {
        self.count as usize <= H
            && self.count <= MASK_BITS
            && self.local_slots > 0
            && self.each_has_slot()
    }

    fn each_has_slot(&self) -> bool
        requires { self.now.count ≤ H }
        ensures { IsTrue result ↔ EachHasSlot self.now }
    {
        for host in 0..self.count {
            if self.limit[host as usize] == 0 {
                return false;
            }
        }
        true
    }
}
