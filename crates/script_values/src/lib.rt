//! Verbs of scripts for values and how they are read and written: agreements, receipts, reports, posts, rows, listings and command
//! lines.
#![tactic(auto)]

mod agreements;
mod arguments;
mod commands;
mod outcomes;
mod posts;
mod receipts;
mod reports;
mod rows;
mod told;
mod views;

use script_lines::Answer;
pub use told::{say_how, say_mic};

/// Answers to the verbs of agreements, receipts, reports and posts; whether it is one.
fn of_posts(verb: &str, rest: &str, answer: &mut Answer) -> bool {
    agreements::answer(verb, rest, answer)
        || outcomes::answer(verb, rest, answer)
        || receipts::answer(verb, rest, answer)
        || reports::answer(verb, rest, answer)
        || posts::answer(verb, rest, answer)
}

/// Answers to a line; whether its verb is one of these.
pub fn answer(verb: &str, rest: &str, answer: &mut Answer) -> bool {
    of_posts(verb, rest, answer)
        || rows::answer(verb, rest, answer)
        || views::answer(verb, rest, answer)
        || commands::answer(verb, rest, answer)
}
