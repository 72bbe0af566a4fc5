//! Chunked bodies that come in pieces.
use crate::told::say_told;
use as2_framing::{BodyPiece, ChunkedBody};
use as2_mic::Pieces;
use script_lines::{Answer, Trouble};
use std::alloc::Global;

/// A chunked body that is read, and what came of it.
#[derive(Drop)]
struct Reading {
    chunked: ChunkedBody,
    body: Pieces,
}

impl Reading {
    fn new(alloc: Global) -> Reading {
        Reading {
            chunked: ChunkedBody::new(alloc),
            body: Pieces::new(alloc),
        }
    }

    /// What the body comes to with a piece; bad, where memory runs out.
    fn feed(&mut self, piece: &[u8], answer: &mut Answer) -> BodyPiece {
        match self.chunked.feed(piece, &mut self.body) {
            Ok(fed) => fed,
            Err(_) => {
                answer.fail(Trouble::Memory);
                BodyPiece::Bad
            }
        }
    }

    /// Answers with what the body came to: it is open with the bytes that came, or whole with them, and the text that it takes.
    fn say(&self, fed: BodyPiece, before: usize, answer: &mut Answer) {
        let alloc = answer.alloc();
        let length = self.body.len();
        match fed {
            BodyPiece::Open => answer.say_made(format!(in alloc; "open {length}")),
            BodyPiece::Whole(used) => {
                let used = before.saturating_add(used);
                answer.say_made(format!(in alloc; "whole {length}, {used}"));
            }
            BodyPiece::Bad => answer.say("bad"),
            BodyPiece::TooLarge => answer.say("too large"),
        }
    }
}

/// Answers with what the pieces of a text come to, one after the other.
fn say_outcome(pieces: &[&[u8]], answer: &mut Answer) {
    let mut reading = Reading::new(answer.alloc());
    let mut outcome = BodyPiece::Open;
    let mut before = 0usize;
    for piece in pieces {
        outcome = reading.feed(piece, answer);
        if outcome != BodyPiece::Open {
            break;
        }
        before = before.saturating_add(piece.len());
    }
    reading.say(outcome, before, answer);
}

/// The same, once where that is what other pieces came to.
fn say_same_outcome(pieces: &[&[u8]], answer: &mut Answer) {
    let mut told = Answer::new(answer.alloc());
    say_outcome(pieces, &mut told);
    say_told(answer, &told);
}

/// The bytes of a text, each alone.
fn single_bytes<'a>(text: &'a [u8], answer: &mut Answer) -> Vec<&'a [u8]> {
    let mut single = Vec::new(answer.alloc());
    for byte in text.chunks(1) {
        answer.unless_memory(single.push(byte));
    }
    single
}

/// `chunked TEXT`: what a text comes to whole, in each cutting into two, and byte by byte. That is `open` and the bytes of body
/// that came, `whole` with the length of the body and where in the text it ends, `bad`, or `too large`.
fn chunked(rest: &str, answer: &mut Answer) {
    let text = answer.bytes_of(rest);
    let text = text.as_slice();
    let single = single_bytes(text, answer);
    say_same_outcome(&[text], answer);
    say_same_outcome(single.as_slice(), answer);
    for at in 0..text.len() {
        let (front, behind) = text.split_at(at);
        say_same_outcome(&[front, behind], answer);
    }
}

/// Answers with what the next piece comes to, behind what those before it came to.
fn say_next(reading: &mut Reading, piece: &str, answer: &mut Answer) {
    let piece = answer.bytes_of(piece);
    let fed = reading.feed(piece.as_slice(), answer);
    if !answer.is_empty() {
        answer.say("; ");
    }
    reading.say(fed, 0, answer);
}

/// `chunked-in-pieces PIECE | PIECE ..`: what each piece comes to, one after the other.
fn in_pieces(rest: &str, answer: &mut Answer) {
    let mut reading = Reading::new(answer.alloc());
    for piece in rest.split(" | ") {
        say_next(&mut reading, piece, answer);
    }
}

/// `chunked-body TEXT`: the body that a text comes to, each piece in which it is kept in brackets.
fn chunked_body(rest: &str, answer: &mut Answer) {
    let text = answer.bytes_of(rest);
    let mut reading = Reading::new(answer.alloc());
    reading.feed(text.as_slice(), answer);
    for at in 0..reading.body.count() {
        if let Some(piece) = reading.body.piece(at) {
            answer.say_in_brackets(piece);
        }
    }
}

/// Answers to the verbs of chunked bodies; whether it is one.
pub fn answer(verb: &str, rest: &str, answer: &mut Answer) -> bool {
    match verb {
        "chunked" => chunked(rest, answer),
        "chunked-in-pieces" => in_pieces(rest, answer),
        "chunked-body" => chunked_body(rest, answer),
        _ => return false,
    }
    true
}
