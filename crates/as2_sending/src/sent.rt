//! What sending came to.
use as2_exchange::{Refusal, StoreFault};

/// What sending came to.
#[derive(Clone, Copy, Debug, PartialEq, Eq)]
pub enum Sent {
    /// Nothing more is due.
    Done,
    /// An event was refused.
    Refused(Refusal),
    /// The store failed.
    Failed(StoreFault),
    /// A line couldn't be written. The try that it tells of stands.
    Unwritten,
}

/// How sending ended.
#[derive(Clone, Copy, Debug, PartialEq, Eq)]
pub struct Sending {
    /// What it came to.
    pub end: Sent,
    /// Whether each hint could be written.
    pub told: bool,
}
