//! The loop of a live station: one thread waits for all its sockets, gives what comes to the hub, and has commands run that are
//! asked for while it runs.
#![tactic(auto)]

mod bounds;
mod clock;
mod commands;
mod door;
mod marks;
mod noting;
mod operating;
mod peer;
mod peers;
mod shell;
mod turns;

pub use operating::{Held, Spanned, run_station};
