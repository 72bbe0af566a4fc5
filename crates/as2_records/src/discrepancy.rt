//! Entries that don't agree with what is kept beside them.

/// What an entry and what is kept beside it don't agree in. Each has the number of the entry.
#[derive(Clone, Copy, Debug, PartialEq, Eq)]
pub enum Discrepancy {
    /// The number of a received document isn't below the next number of a receipt.
    ReceivedNumber(u64),
    /// The number of a document that is sent isn't below the next number of a document.
    SentNumber(u64),
    /// What a received document waits for is kept otherwise than its entry says.
    ReceivedWait(u64),
    /// What a document that is sent waits for is kept otherwise than its entry says.
    SentWait(u64),
}
