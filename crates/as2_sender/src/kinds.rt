//! The two kinds of what is sent.

use as2_exchange::Next;

/// A kind of what is sent.
#[derive(Clone, Copy, Debug, PartialEq, Eq)]
pub(crate) enum Kind {
    /// A receipt.
    Receipt,
    /// A document.
    Document,
}

impl Kind {
    /// The kind of this one.
    pub(crate) fn of(what: Next) -> Kind {
        match what {
            Next::Receipt(_) => Kind::Receipt,
            Next::Document(_) => Kind::Document,
        }
    }

    /// The one of this kind that has that number.
    pub(crate) fn numbered(self, number: u64) -> Next {
        match self {
            Kind::Receipt => Next::Receipt(number),
            Kind::Document => Next::Document(number),
        }
    }
}

/// Its number.
pub(crate) fn number_of(what: Next) -> u64 {
    match what {
        Next::Receipt(number) | Next::Document(number) => number,
    }
}

/// What has the number before it. Numbers begin with 1.
pub(crate) fn before(what: Next) -> Next {
    Kind::of(what).numbered(number_of(what).saturating_sub(1))
}
