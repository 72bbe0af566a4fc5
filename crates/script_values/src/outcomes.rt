//! What becomes of a received document.
use crate::arguments::{Arguments, parts_of};
use as2_mdn::{Outcome, outcome_of};
use as2_text::{How, Kind, ReceiptAsk};
use script_lines::Answer;

static OUTCOMES: [Outcome; 6] = [
    Outcome::DecryptionFailed,
    Outcome::DecompressionFailed,
    Outcome::AuthenticationFailed,
    Outcome::UnsupportedFormat,
    Outcome::UnsupportedMicAlgorithms,
    Outcome::Processed,
];

/// The outcome of that text.
pub fn outcome_in(text: &str, answer: &mut Answer) -> Outcome {
    for outcome in &OUTCOMES {
        if outcome.text() == text {
            return *outcome;
        }
    }
    answer.lack("no outcome");
    Outcome::Processed
}

/// The kind of that name.
fn kind_in(word: &str, answer: &mut Answer) -> Kind {
    match word {
        "document" => Kind::Document,
        "enveloped" => Kind::Enveloped,
        "compressed" => Kind::Compressed,
        "signed" => Kind::Signed,
        "report" => Kind::Report,
        _ => {
            answer.lack("no kind");
            Kind::Document
        }
    }
}

/// What a document's receipt is asked to have, and whether its encoding is refused.
#[derive(Drop)]
struct Wishes<'a> {
    is_refused: bool,
    ask: ReceiptAsk<'a>,
}

impl<'a> Wishes<'a> {
    /// None.
    fn none() -> Wishes<'a> {
        let ask = ReceiptAsk {
            how: How::Sync,
            digests: b"",
            digests_required: false,
            other_required: false,
        };
        Wishes {
            is_refused: false,
            ask,
        }
    }

    /// Adds one.
    fn add(&mut self, wish: &'a str, answer: &mut Answer) {
        match wish {
            "encoding refused" => self.is_refused = true,
            "digest required" => self.ask.digests_required = true,
            "other required" => self.ask.other_required = true,
            _ => match wish.strip_prefix("digests ") {
                Some(digests) => self.ask.digests = digests.as_bytes(),
                None => answer.lack("no such wish"),
            },
        }
    }
}

/// The wishes that stand there, if any does.
fn wishes_in<'a>(text: &'a str, answer: &mut Answer) -> Wishes<'a> {
    let mut wishes = Wishes::none();
    if text.is_empty() {
        return wishes;
    }
    for wish in &parts_of(text, " | ", answer) {
        wishes.add(wish, answer);
    }
    wishes
}

/// `outcome KIND | WISH ..`: what becomes of a document of that kind. The wishes are `encoding refused`, `digests LIST`,
/// `digest required` and `other required`.
fn say_outcome(rest: &str, answer: &mut Answer) {
    let mut arguments = Arguments::of(rest);
    let kind = kind_in(arguments.word(), answer);
    let wishes = wishes_in(arguments.rest, answer);
    answer.say(outcome_of(kind, wishes.is_refused, &wishes.ask).text());
}

/// Answers to the verb of outcomes; whether it is it.
pub fn answer(verb: &str, rest: &str, answer: &mut Answer) -> bool {
    match verb {
        "outcome" => say_outcome(rest, answer),
        _ => return false,
    }
    true
}
