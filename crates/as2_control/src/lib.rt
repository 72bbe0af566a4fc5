//! The frames of the control socket: a command line that was typed while a station runs is sent to it, and its outcome
//! comes back. No socket is here: bytes alone.
#![tactic(auto)]

mod demand;
mod fault;
mod fields;
mod files;
mod heads;
mod laws;
mod outcome;
mod words;

pub use demand::{Demand, MOST_BYTES, demand_frame, read_demand};
pub use fault::{FrameFault, ReadFault};
pub use files::MadeFile;
pub use heads::{StillToCome, awaited};
pub use laws::one_message_a_frame;
pub use outcome::{Outcome, outcome_frame, read_outcome};
pub use words::MOST_WORDS;

#[cfg(test)]
mod tests;
