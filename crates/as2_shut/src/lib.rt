//! Records that can't be reached: each call is a fault of the disk, or Full where the number is past the last. A station whose store has
//! shut answers over them until the store is open again.
#![tactic(auto)]

mod rounds;
mod shut;

pub use shut::ShutRecords;
