//! The numbers that are given next.

/// The numbers that the next entries get. One past 999,999,999,999 is never given.
#[derive(Clone, Copy, Debug, PartialEq, Eq)]
pub struct NextNumbers {
    /// Of the inbox.
    pub receipt: u64,
    /// Of the outbox.
    pub document: u64,
}
