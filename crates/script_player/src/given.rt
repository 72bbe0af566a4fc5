//! What a command line is run over, as texts set it.
//!
//! The text `clock` is the moment that the clock tells, where it isn't `none`. Standard input is the text `input`, in parts behind `||`,
//! of which no read gives bytes of two. `sound-reads`, `sound-writes` and `sound-error-writes` say how many calls of the three streams
//! succeed. `bytes-a-read` and `bytes-a-write` say how many bytes one gives or takes at most. With the text `stuck` the call that
//! doesn't succeed takes no byte in place of failing.
use crate::scene::Asked;
use crate::streams::{Calls, calls_by};
use script_lines::{Answer, Settings, Trouble};

/// What a command line is run over.
#[derive(Drop)]
pub struct Given<'a> {
    pub settings: &'a Settings,
    /// The words of the command line, behind the name of the program.
    pub words: Vec<&'a str>,
    /// The moment that the clock tells, in seconds since 1970.
    pub clock: Option<u64>,
    /// Standard input, in parts.
    pub parts: Vec<Vec<u8>>,
    pub calls: StreamCalls,
}

/// How the calls of standard input, output and error go.
#[derive(Clone, Copy)]
pub struct StreamCalls {
    pub reads: Calls,
    pub writes: Calls,
    pub errors: Calls,
}

/// Adds an item, unless memory runs out.
pub fn add<T: Drop>(items: &mut Vec<T>, item: T, answer: &mut Answer) {
    if items.push(item).is_err() {
        answer.fail(Trouble::Memory);
    }
}

fn words_of<'a>(text: &'a str, answer: &mut Answer) -> Vec<&'a str> {
    let mut words = Vec::new(answer.alloc());
    add(&mut words, "as2desk", answer);
    for word in text.split_whitespace() {
        add(&mut words, word, answer);
    }
    words
}

fn parts_of(text: &str, answer: &mut Answer) -> Vec<Vec<u8>> {
    let mut parts = Vec::new(answer.alloc());
    for part in text.split("||") {
        let bytes = answer.bytes_of(part);
        add(&mut parts, bytes, answer);
    }
    parts
}

fn clock(settings: &Settings, answer: &mut Answer) -> Option<u64> {
    match settings.text("clock") {
        None | Some("none") => None,
        Some(text) => Some(answer.number_in(text)),
    }
}

fn stream_calls(settings: &Settings, answer: &mut Answer) -> StreamCalls {
    StreamCalls {
        reads: calls_by(settings, "bytes-a-read", "sound-reads", answer),
        writes: calls_by(settings, "bytes-a-write", "sound-writes", answer),
        errors: calls_by(settings, "", "sound-error-writes", answer),
    }
}

/// What the texts set for the command line of these words.
pub fn given_by<'a>(asked: &Asked<'a>, answer: &mut Answer) -> Given<'a> {
    let settings = asked.settings;
    Given {
        settings,
        words: words_of(asked.words, answer),
        clock: clock(settings, answer),
        parts: parts_of(settings.text("input").unwrap_or(""), answer),
        calls: stream_calls(settings, answer),
    }
}
