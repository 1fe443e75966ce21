//! What changes of a farm's slots.

/// What changes of a farm's slots.
#[derive(Clone, Copy, PartialEq, Eq, Debug)]
pub struct SlotState<const H: usize> {
    /// The next job's number.
    pub next: u32,
    /// How many local slots are given out.
    pub local_held: u8,
    /// How many slots of each entry are given out.
    pub held: [u8; H],
    /// The moment at which each entry's back-off ends.
    pub until: [u64; H],
}
