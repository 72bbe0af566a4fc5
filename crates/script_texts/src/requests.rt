//! Addresses, and what heads ask of receipts.
use crate::heads::head_of;
use as2_text::{How, ReceiptAsk, Url};
use script_lines::Answer;

/// `read-url TEXT`: the host with its port, and the target, that an address says.
fn read_url(rest: &str, answer: &mut Answer) {
    let text = answer.bytes_of(rest);
    match Url::parse(text.as_slice()) {
        Some(url) => {
            answer.say_bytes(url.authority());
            answer.say(", ");
            answer.say_bytes(url.target());
        }
        None => answer.say("nothing"),
    }
}

/// Answers with how a receipt is to come.
fn say_how(answer: &mut Answer, how: &How<'_>) {
    match how {
        How::NoReceipt => answer.say("no receipt"),
        How::Sync => answer.say("in the answer"),
        How::Async(url) => {
            answer.say("to ");
            answer.say_bytes(url.target())
        }
    }
}

/// How much something is asked for.
fn importance(is_required: bool) -> &'static str {
    if is_required { "required" } else { "optional" }
}

/// Answers with what is asked.
fn say_ask(answer: &mut Answer, ask: &ReceiptAsk<'_>) {
    say_how(answer, &ask.how);
    answer.say(", digests [");
    answer.say_bytes(ask.digests);
    answer.say("] ");
    answer.say(importance(ask.digests_required));
    answer.say(", others ");
    answer.say(importance(ask.other_required));
}

/// `read-ask FIELD ..`: what a head asks of the receipt: how it is to come, the digests that are listed, and whether one of these or
/// anything else is required.
fn read_ask(rest: &str, answer: &mut Answer) {
    let head = head_of(rest, answer);
    match ReceiptAsk::read(&head) {
        Ok(ask) => say_ask(answer, &ask),
        Err(fault) => answer.say_fault(&fault),
    }
}

/// Answers to the verbs of requests; whether it is one.
pub fn answer(verb: &str, rest: &str, answer: &mut Answer) -> bool {
    match verb {
        "read-url" => read_url(rest, answer),
        "read-ask" => read_ask(rest, answer),
        _ => return false,
    }
    true
}
