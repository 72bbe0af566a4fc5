//! Many connections of HTTP as one state machine, without a socket, a clock, a store or a thread. Bytes come in any
//! pieces, the requests that they begin with are answered in rounds, and a reply may go once its round is kept.
#![tactic(auto)]

mod beginning;
mod bounds;
mod desk;
mod hub;
mod input;
mod laws;
mod rest;
mod talk;

pub use beginning::Beginning;
pub use bounds::Bounds;
pub use desk::{Desk, Replied, Reply, Resolved};
pub use hub::Hub;
pub use input::Input;
pub use laws::standing_is_promised;

#[cfg(test)]
mod tests;
