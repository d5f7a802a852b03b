ghost use Rattle.std.specs.Prelude.{◌≡◌, IfOk};

use crate::Memory;

/// A value of which an equal one can be made. What owns memory takes the copy's from its own
/// allocator.
pub trait Duplicate {
    /// An equal value, or `Memory` where there is no room for it.
    fn copy(&self) -> Result<Self, Memory>
    where
        Self: Sized,
        ensures { IfOk result (λ x. x ≡ self.now) };
}

impl Duplicate for u8 {
    fn copy(&self) -> Result<u8, Memory> {
        Ok(*self)
    }
}

impl Duplicate for u64 {
    fn copy(&self) -> Result<u64, Memory> {
        Ok(*self)
    }
}
