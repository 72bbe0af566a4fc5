//! How far an entry has come.

use as2_exchange::{Attempt, ReceiptStage};
use as2_mdn::Detail;

/// How far a document has come.
#[derive(Clone, Copy, Debug, PartialEq, Eq)]
pub struct Progress {
    /// How often it was tried.
    pub tries: u64,
    /// Whether a try is open.
    pub attempt: Attempt,
    /// When the next try may begin, or what is waited for is overdue, in seconds since 1970.
    pub due: Option<u64>,
    /// How it stands.
    pub detail: Detail,
}

/// How far the receipt for a posted document has come.
#[derive(Clone, Copy, Debug, PartialEq, Eq)]
pub struct ReceiptProgress {
    /// How it stands.
    pub receipt_stage: ReceiptStage,
    /// How often it was tried.
    pub tries: u64,
    /// Whether a try is open.
    pub attempt: Attempt,
    /// When the next try may begin, in seconds since 1970.
    pub due: Option<u64>,
}
