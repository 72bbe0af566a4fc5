//! Why a store couldn't answer.

ghost use Rattle.std.specs.Prelude.{◌≡◌};
ghost use Rattle.as2_exchange.specs.declared.fault.StoreFault.TheVariants.{Memory as OutOfMemory};

use crate::RowPlace;
use as2_text::Memory;

/// Why a store couldn't answer. A fault changes nothing.
#[derive(Clone, Copy, Debug, PartialEq, Eq)]
pub enum StoreFault {
    /// There was no memory.
    Memory,
    /// The disk failed.
    Disk,
    /// The database refused, or answered what can't be.
    Refused,
    /// The row that stands there is damaged: it is none that was written.
    Damaged(RowPlace),
    /// The number that is needed is used up.
    Full,
    /// The database is no store of a station.
    NotAStore,
    /// The store is of another version.
    OtherVersion,
}

impl From<Memory> for StoreFault {
    ghost from_gives = { λ _ fault. fault ≡ OutOfMemory };

    fn from(_memory: Memory) -> StoreFault {
        StoreFault::Memory
    }
}
