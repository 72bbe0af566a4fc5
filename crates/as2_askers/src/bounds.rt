//! How many may ask, how much is done for them in one turn, and how long one of them is waited for.

/// How many may ask at once.
pub(crate) const SEATS: usize = 16;

/// How many are accepted in one turn.
pub(crate) const ACCEPTS: usize = 64;

/// Reads or writes for one of them in one turn.
pub(crate) const READS: usize = 4;

/// How long one is waited for, in milliseconds.
pub(crate) const WAIT: u64 = 30_000;

/// .. and if nothing was said yet.
pub(crate) const SILENCE: u64 = 2_000;

/// How long a demand may take as a whole, in milliseconds.
pub(crate) const DEMAND: u64 = 5_000;

/// The least pace at which an outcome is read, in bytes a millisecond. A long outcome may take longer than `WAIT` as a whole.
pub(crate) const PACE: u64 = 16;

/// How often a station looks at who asks, at least, in milliseconds.
pub(crate) const LOOK: u64 = 1_000;
