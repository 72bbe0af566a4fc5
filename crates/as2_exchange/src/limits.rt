//! The limits of numbers.

/// The first number that no entry gets: the last one is 999,999,999,999.
pub const END_OF_NUMBERS: u64 = 1_000_000_000_000;

/// The most bytes that the content of a document has that is handed in.
pub const CONTENT_LIMIT: usize = 1_048_576;
