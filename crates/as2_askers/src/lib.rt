//! The control socket of a station that runs: the file at which it stands, how it is found there, and all who ask at it.
#![tactic(auto)]

mod asker;
mod askers;
mod bounds;
mod control;
mod finding;

pub use askers::{Asked, Askers};
pub use control::Control;
pub use finding::connect;
