//! Counts of the calls of a device.
use std::sync::ledger::Blank;

/// Counts of a device that aren't opened yet: of its calls, and of those that failed.
#[derive(Drop)]
pub(crate) struct CallCounts {
    pub(crate) calls: Blank,
    pub(crate) failed: Blank,
}
