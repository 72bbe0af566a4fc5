//! Multipart bodies and the fields of their parts (RFC 2046, section 5.1; RFC 5322, section 2.2).
//!
//! Nothing here takes memory: what is handed out are slices of the argument. A line end is LF, with the CR just before it
//! if there is one; the last line may have none.
#![tactic(auto)]

mod fields;
mod lines;
mod marks;
mod parts;

pub use fields::{Field, Fields, Twice, find_once};
pub use parts::{Part, PartFault, part_in, two_parts};
