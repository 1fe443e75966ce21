//! Sets of host entries.
ghost use Rattle.std.specs.Prelude.{◌≡◌, ℕ, ◌<◌, ◌≤◌, ◌&&◌, not, nat_lt, nat_eq};
ghost use Rattle.slot_table.specs.Mask.{mask_bits, in_mask};

/// How many host entries a mask can have.
pub const MASK_BITS: u32 = 64;

/// A set of host entries: bit `i` says whether entry `i` is in it. It has only entries below `MASK_BITS`.
#[derive(Clone, Copy, PartialEq, Eq, Debug)]
pub struct Mask {
    pub bits: u64,
}

impl Mask {
    /// Every entry below `count`.
    pub fn all(count: u32) -> Mask
        requires { count ≤ mask_bits }
        ensures { (i : ℕ) → in_mask result i ≡ nat_lt i count }
    {
        Mask {
            bits: if count < MASK_BITS {
                (1 << count) - 1
            } else {
                u64::MAX
            },
        }
    }

    /// The same entries without `host`.
    pub fn without(self, host: u32) -> Mask
        requires { host < mask_bits }
        ensures { (i : ℕ) → in_mask result i ≡ (in_mask self i && not (nat_eq i host)) }
    {
        Mask {
            bits: self.bits & !(1 << host),
        }
    }

    /// Whether the entry is in it.
    pub fn contains(self, host: u32) -> bool
        requires { host < mask_bits }
        ensures { result ≡ in_mask self host }
    {
        self.bits >> host & 1 == 1
    }
}
