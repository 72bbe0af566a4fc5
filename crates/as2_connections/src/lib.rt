//! The program's network and terminal: connections over TCP that are served, links to partners, the clock, and how far a long look has come.
#![tactic(auto)]

mod counts;
mod links;
mod network;
mod progress;
mod served;
mod wall_clock;

pub use network::Sockets;
pub use progress::ProgressLine;
pub use wall_clock::clock;
