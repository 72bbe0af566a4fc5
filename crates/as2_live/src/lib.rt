//! A live station: many connections over one station, and what it comes to, happening after happening.
#![tactic(auto)]

mod live;
mod tries;

pub use live::Live;
pub use tries::{EndedTry, TryBegun};

#[cfg(test)]
mod tests;
