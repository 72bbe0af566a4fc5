//! Verbs of scripts over a station in memory: events, what is sent, what stands in the records, and what the store takes.
#![tactic(auto)]

mod events;
mod made;
mod played;
mod records;
mod sending;
mod stage;
mod station;
mod store;
mod told;
mod writes;

pub use events::event;
pub use played::Played;
use script_lines::Answer;
pub use stage::Stage;
pub use told::say;

/// Answers to a line; whether its verb is one of these.
pub fn answer(stage: &mut Stage, verb: &str, rest: &str, answer: &mut Answer) -> bool {
    station::answer(stage, verb, rest, answer)
        || records::answer(stage, verb, rest, answer)
        || store::answer(stage, verb, rest, answer)
        || writes::answer(stage, verb, rest, answer)
}
