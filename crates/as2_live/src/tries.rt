//! What comes of tries.

use as2_exchange::{Next, Refusal, StoreFault};
use as2_sending::Why;
use as2_station::Ended;

/// What came of a try that was to begin.
#[derive(Clone, Copy, Debug, PartialEq, Eq)]
pub enum TryBegun {
    /// No link could be opened there for it, and nothing was done.
    NoPlace,
    /// It has begun, and its link is open.
    Begun,
    /// It was refused.
    Refused(Refusal),
    /// The records failed, and nothing is changed.
    Failed(StoreFault),
}

/// A try whose link has ended.
#[derive(Drop)]
pub struct EndedTry {
    /// What was tried.
    pub what: Next,
    /// Why it failed, where it did.
    pub why: Why,
    /// What was said to its outcome.
    pub said: Result<Ended, StoreFault>,
}
