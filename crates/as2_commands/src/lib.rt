//! The command line of the station: from words to what they ask for.
#![tactic(auto)]

mod args;
mod building;
mod command;
mod fault;
mod first_number;
mod help;
mod own;
mod reading;
mod tasks;
mod words;

pub use as2_views::Filter;
pub use first_number::FirstNumber;
pub use tasks::{
    Command, EvidenceRequest, Format, Operating, Options, Question, RunOptions, Serving,
    ServingWaits, Submission, Task, Waits,
};
pub use words::options_in;
