//! Verbs of scripts for messages of HTTP: requests, replies, and exchanges over readers and writers in memory.
#![tactic(auto)]

mod devices;
mod exchanges;
mod replies;
mod requests;

pub use exchanges::exchanged;
use script_lines::Answer;

/// Answers to a line; whether its verb is one of these.
pub fn answer(verb: &str, rest: &str, answer: &mut Answer) -> bool {
    replies::answer(verb, rest, answer)
        || exchanges::answer(verb, rest, answer)
        || requests::answer(verb, rest, answer)
}
