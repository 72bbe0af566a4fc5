//! Why a line can't be played.
use as2_names::Memory;
use std::alloc::{AllocError, AllocFailed};

/// Why a line can't be played.
#[derive(Clone, Copy, PartialEq, Eq, Debug, Drop)]
pub enum Trouble {
    /// Memory runs out.
    Memory,
    /// It can't be read: what it lacks.
    Unreadable(&'static str),
}

impl Trouble {
    /// The trouble in words.
    pub fn text(self) -> &'static str {
        match self {
            Trouble::Memory => "no memory",
            Trouble::Unreadable(lacks) => lacks,
        }
    }
}

impl From<AllocError> for Trouble {
    fn from(_: AllocError) -> Trouble {
        Trouble::Memory
    }
}

impl<T: Drop> From<AllocFailed<T>> for Trouble {
    fn from(_: AllocFailed<T>) -> Trouble {
        Trouble::Memory
    }
}

impl From<Memory> for Trouble {
    fn from(_: Memory) -> Trouble {
        Trouble::Memory
    }
}
