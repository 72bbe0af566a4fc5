//! The station as what answers the requests of many connections.
#![tactic(auto)]

mod desk;
mod log;
mod playing;

pub use desk::StationDesk;
pub use log::Log;
pub use playing::play;

#[cfg(test)]
mod tests;
