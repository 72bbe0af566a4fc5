//! A command that was typed while a station runs: it is run over the station's own records.
#![tactic(auto)]

mod forwarded;
mod lent;
mod network;
mod papers;
mod sent;

pub use forwarded::{Forwarded, refused, run_forwarded};

#[cfg(test)]
mod tests;
