//! Records that take a content only while there is room for it.
#![tactic(auto)]

mod bounded;

pub use bounded::{Bounded, room_of};
