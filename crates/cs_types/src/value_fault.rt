use crate::Memory;

/// Why a JSON tree stands for no value of a column's type.
#[derive(Clone, Copy, Debug, PartialEq, Eq)]
pub enum ValueFault {
    /// A kind of JSON that the type does not take; so is a number that is not held as a whole
    /// number of 64 bits.
    WrongKind,
    /// Well formed, and out of the type's range.
    Range,
    /// A text that is none of the type's texts.
    BadText,
    /// Want of memory.
    Memory,
}

impl From<Memory> for ValueFault {
    ghost use Rattle.std.specs.Prelude.{◌≡◌};
    ghost use Rattle.cs_types.specs.declared.value_fault.ValueFault.TheVariants.{Memory as memory};

    ghost from_gives = { λ _ e. e ≡ memory };

    fn from(_: Memory) -> ValueFault {
        ValueFault::Memory
    }
}
