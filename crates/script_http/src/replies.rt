//! Replies as they are written (RFC 9112, section 4).
use as2_exchange::{Bytes, HttpAnswer, HttpBody, Line};
use as2_mdn::{Outcome, ReceiptOut, write_receipt};
use as2_messages::{Form, RequestFault, refusal, write_reply};
use as2_text::{AsName, Domain, MessageId, Moment};
use script_lines::{Answer, Trouble};

/// The form of a reply that a word names, or else the plain one.
fn form_in(word: &str, answer: &mut Answer) -> Form {
    let (closes, to_head) = match word {
        "plain" => (false, false),
        "closing" => (true, false),
        "to-head" => (false, true),
        "closing-to-head" => (true, true),
        _ => {
            answer.lack("no such form");
            (false, false)
        }
    };
    Form { closes, to_head }
}

/// The fault of a request that a word names.
fn fault_in(word: &str) -> Option<RequestFault> {
    match word {
        "BadHead" => Some(RequestFault::BadHead),
        "TransferCoding" => Some(RequestFault::TransferCoding),
        "BadLength" => Some(RequestFault::BadLength),
        "BadChunk" => Some(RequestFault::BadChunk),
        "TooLarge" => Some(RequestFault::TooLarge),
        "NoLength" => Some(RequestFault::NoLength),
        _ => None,
    }
}

/// The refusal of a request with the fault that a word names.
fn refusal_for(word: &str, answer: &mut Answer) -> Option<HttpAnswer> {
    let Some(fault) = fault_in(word) else {
        answer.lack("no such fault");
        return None;
    };
    Some(refusal(fault))
}

/// The answer that is the line which a word names.
fn line_answer(word: &str, answer: &mut Answer) -> Option<HttpAnswer> {
    let line = match word {
        "NoSuchPath" => Line::NoSuchPath,
        "OnlyPost" => Line::OnlyPost,
        _ => {
            answer.lack("no such line");
            return None;
        }
    };
    Some(line.answer())
}

/// An answer of that status without a body.
fn empty_answer(word: &str, answer: &mut Answer) -> Option<HttpAnswer> {
    let Ok(status) = word.parse::<u16>() else {
        answer.lack("no status");
        return None;
    };
    Some(HttpAnswer {
        status,
        body: HttpBody::Nothing,
    })
}

/// The report that `DOMAIN ID FROM TO` tells: the first one of the domain, of a document that couldn't be decompressed.
fn report_in(words: &str, answer: &mut Answer) -> Option<ReceiptOut> {
    let (domain, words) = answer.cut(words, " ", "no report");
    let (original_id, words) = answer.cut(words, " ", "no report");
    let (from, to) = answer.cut(words, " ", "no report");
    let Some(domain) = Domain::of(domain.as_bytes()) else {
        return None;
    };
    let Ok(from) = AsName::parse(from.as_bytes()) else {
        return None;
    };
    let Ok(to) = AsName::parse(to.as_bytes()) else {
        return None;
    };
    let Ok(original_id) = MessageId::parse(answer.alloc(), original_id.as_bytes()) else {
        return None;
    };
    Some(ReceiptOut {
        number: 1,
        domain,
        from,
        to,
        original_id,
        outcome: Outcome::DecompressionFailed,
        mic: None,
    })
}

/// An answer whose body is a report.
fn report_answer(words: &str, answer: &mut Answer) -> Option<HttpAnswer> {
    let Some(out) = report_in(words, answer) else {
        answer.lack("no report");
        return None;
    };
    match write_receipt(answer.alloc(), &out) {
        Ok(text) => Some(HttpAnswer {
            status: 200,
            body: HttpBody::Report {
                out,
                bytes: Bytes::of(text),
            },
        }),
        Err(_) => {
            answer.fail(Trouble::Memory);
            None
        }
    }
}

/// What is to be replied: `status NUMBER`, `line NAME`, `fault NAME` or `report DOMAIN ID FROM TO`.
fn answer_in(words: &str, answer: &mut Answer) -> Option<HttpAnswer> {
    let (kind, words) = answer.cut(words, " ", "nothing to reply");
    match kind {
        "status" => empty_answer(words, answer),
        "line" => line_answer(words, answer),
        "fault" => refusal_for(words, answer),
        "report" => report_answer(words, answer),
        _ => {
            answer.lack("nothing to reply");
            None
        }
    }
}

/// Answers with the reply of that form at a moment.
fn say_written(moment: Moment, form: Form, reply: &HttpAnswer, answer: &mut Answer) {
    match write_reply(answer.alloc(), moment, form, reply) {
        Ok(text) => answer.say_bytes(text.as_slice()),
        Err(_) => answer.fail(Trouble::Memory),
    }
}

/// `SECOND | FORM | WHAT`: answers with the reply.
fn say_reply(rest: &str, answer: &mut Answer) {
    let (second, rest) = answer.cut(rest, " | ", "no second");
    let (form, words) = answer.cut(rest, " | ", "no form");
    let Some(moment) = Moment::new(answer.number_in(second)) else {
        answer.lack("no such second");
        return;
    };
    let form = form_in(form, answer);
    if let Some(reply) = answer_in(words, answer) {
        say_written(moment, form, &reply, answer);
    }
}

/// Answers to the verb of replies over HTTP; whether it is that.
pub fn answer(verb: &str, rest: &str, answer: &mut Answer) -> bool {
    match verb {
        "write-reply" => say_reply(rest, answer),
        _ => return false,
    }
    true
}
