//! Why a row couldn't be read.

use as2_text::Memory;

/// Why a row couldn't be read.
#[derive(Clone, Copy, Debug, PartialEq, Eq)]
pub enum RowFault {
    /// There was no memory.
    Memory,
    /// The row is none that an entry is written as.
    NotAnEntry,
}

impl From<Memory> for RowFault {
    ghost use Rattle.std.specs.Prelude.{◌≡◌};
    ghost use Rattle.as2_rows.specs.declared.fault.RowFault.TheVariants as fault;

    ghost from_gives = { λ _ f. f ≡ fault.Memory };

    fn from(_memory: Memory) -> RowFault {
        RowFault::Memory
    }
}
