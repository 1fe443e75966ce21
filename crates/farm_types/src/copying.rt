//! Copies that can fail only for lack of memory.

ghost use Rattle.std.specs.Prelude.{◌≡◌, IfOk};

use std::alloc::AllocError;

/// A value that can be copied.
pub trait TryCopy: Drop {
    /// An equal value. It fails only for lack of memory.
    fn try_copy(&self) -> Result<Self, AllocError>
        ensures { IfOk result (λ made. made ≡ self.now) };
}
