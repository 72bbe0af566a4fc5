//! Verbs of scripts for texts and what is read of them: names, heads, bodies, requests for receipts, and contents with their MICs.
#![tactic(auto)]

mod contents;
mod framing;
mod heads;
mod identifiers;
mod media;
mod mics;
mod moments;
mod names;
mod parts;
mod requests;
mod told;

use script_lines::Answer;

/// Answers to the verbs of names, heads and media types; whether it is one.
fn of_heads(verb: &str, rest: &str, answer: &mut Answer) -> bool {
    names::answer(verb, rest, answer)
        || identifiers::answer(verb, rest, answer)
        || moments::answer(verb, rest, answer)
        || heads::answer(verb, rest, answer)
        || media::answer(verb, rest, answer)
}

/// Answers to the verbs of bodies, requests and contents; whether it is one.
fn of_bodies(verb: &str, rest: &str, answer: &mut Answer) -> bool {
    parts::answer(verb, rest, answer)
        || requests::answer(verb, rest, answer)
        || mics::answer(verb, rest, answer)
        || contents::answer(verb, rest, answer)
        || framing::answer(verb, rest, answer)
}

/// Answers to a line; whether its verb is one of these.
pub fn answer(verb: &str, rest: &str, answer: &mut Answer) -> bool {
    of_heads(verb, rest, answer) || of_bodies(verb, rest, answer)
}
