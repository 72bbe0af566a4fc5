//! How a command reaches the station that runs over its store: it is sent there as it was typed, and its outcome is printed here.
#![tactic(auto)]

mod absent;
mod asking;
mod telling;

pub use absent::{absent_store, hint_made};
pub use asking::ask_station;
