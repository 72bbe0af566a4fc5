//! The counts of what is outstanding.

/// How much is outstanding.
#[derive(Clone, Copy, Debug, PartialEq, Eq)]
pub struct Counts {
    /// How many documents are new: submitted, or to be sent again, and not tried since.
    pub not_sent: u64,
    /// How many documents have a try open, or due after one that failed.
    pub in_retry: u64,
    /// For how many documents a receipt is awaited that comes by a post of its own.
    pub awaited: u64,
    /// How many documents are in error.
    pub in_error: u64,
    /// How many receipts are to be sent.
    pub to_send: u64,
}
