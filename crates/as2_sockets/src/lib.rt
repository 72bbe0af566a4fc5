//! TCP streams whose every wait is bounded, so that no peer holds the port.
#![tactic(auto)]

mod authority;
mod limits;
mod stream;

pub use authority::host_and_port;
pub use limits::Limits;
pub use stream::{TimedStream, connect};

#[cfg(test)]
mod tests;
