//! Posted documents.
use crate::arguments::{Arguments, parts_of, value_in};
use crate::told::{attempt_word, receipt_stage_word, say_due, say_how, say_mic};
use as2_exchange::{InEntry, Line, Posted};
use as2_posts::{Opened, document, first_entry, has_kept_mic, is_requeued, repeats};
use as2_text::{AsName, Head, HeadFault, MediaType};
use script_lines::{Answer, Trouble};

/// What the head of a post of Buyer to Supplier says that has that content type.
fn opened<'a>(content_type: &'a [u8], answer: &mut Answer) -> Option<Opened<'a>> {
    let Ok(media) = MediaType::parse(content_type) else {
        answer.lack("no media type");
        return None;
    };
    match (AsName::plain(b"Buyer"), AsName::plain(b"Supplier")) {
        (Ok(from), Ok(to)) => Some(Opened {
            from,
            to,
            media,
            content_type,
        }),
        _ => {
            answer.lack("no AS2 name");
            None
        }
    }
}

/// Adds the field that `NAME: VALUE` spells to a head.
fn add_field(head: &mut Head, field: &str, answer: &mut Answer) {
    let (name, value) = answer.cut(field, ": ", "no field");
    match head.append(name.as_bytes(), value.as_bytes()) {
        Ok(()) => {}
        Err(HeadFault::Memory) => answer.fail(Trouble::Memory),
        Err(_) => answer.lack("no field of a head"),
    }
}

/// The head of these fields.
fn head_of(fields: &str, answer: &mut Answer) -> Head {
    let mut head = Head::new(answer.alloc());
    for field in &parts_of(fields, " | ", answer) {
        add_field(&mut head, field, answer);
    }
    head
}

/// What the post of a document `TYPE | CONTENT | FIELD | ..` of Buyer to Supplier is read as.
fn read_post(text: &str, answer: &mut Answer) -> Option<Result<Posted, Line>> {
    let mut arguments = Arguments::of(text);
    let content_type = arguments.bytes(answer);
    let content = arguments.content(answer);
    let head = head_of(arguments.rest, answer);
    match opened(content_type.as_slice(), answer) {
        Some(opened) => { answer.unless_memory(document(answer.alloc(), opened, &head, content)) }
        None => None,
    }
}

/// The document that is posted so.
fn post_in(text: &str, answer: &mut Answer) -> Option<Posted> {
    match read_post(text, answer) {
        Some(Ok(posted)) => Some(posted),
        Some(Err(_)) => {
            answer.lack("a post that is refused");
            None
        }
        None => None,
    }
}

/// Answers with the names, the identifier, the type and the length of a document.
fn say_document(answer: &mut Answer, posted: &Posted) {
    answer.say_bytes(posted.sender.bytes());
    answer.say(" -> ");
    answer.say_bytes(posted.receiver.bytes());
    answer.say(", ");
    answer.say(posted.id.as_received());
    answer.say(", ");
    answer.say_bytes(posted.content_type.as_slice());
    answer.say(", ");
    answer.say_number(posted.content.len() as u64);
    answer.say(" bytes, ");
}

/// Answers with a document and what is made of it.
fn say_posted(answer: &mut Answer, posted: &Posted) {
    say_document(answer, posted);
    answer.say(posted.outcome.text());
    answer.say(", ");
    say_how(answer, &posted.how);
    answer.say(", ");
    say_mic(answer, &posted.mic)
}

/// `read-document TYPE | CONTENT | FIELD | ..`: what the post of a document is read as.
fn say_post(rest: &str, answer: &mut Answer) {
    match read_post(rest, answer) {
        Some(Ok(posted)) => say_posted(answer, &posted),
        Some(Err(line)) => answer.say_fault(&line),
        None => {}
    }
}

/// Answers whether the document that is posted so repeats that one, the entry of number 7 of records with that origin.
fn say_repeats(answer: &mut Answer, origin: u64, one: &Posted, text: &str) {
    if let Some(other) = post_in(text, answer) {
        answer.say_whether(repeats(origin, 7, one, &other));
    }
}

/// `repeats ORIGIN || DOCUMENT || DOCUMENT`: whether the second repeats the first, which is the entry of number 7 where the entries
/// below the origin were recorded by the first version of the tables.
fn say_whether_repeats(rest: &str, answer: &mut Answer) {
    let (origin, rest) = answer.cut(rest, " || ", "no origin");
    let origin = answer.number_in(origin);
    let (one, other) = answer.cut(rest, " || ", "no two documents");
    if let Some(one) = post_in(one, answer) {
        say_repeats(answer, origin, &one, other);
    }
}

/// `keeps-mic DOCUMENT || CONTENT`: whether that content has the MIC that is kept of the document.
fn say_whether_kept(rest: &str, answer: &mut Answer) {
    let (text, content) = answer.cut(rest, " || ", "no content");
    let content = Arguments::of(content).content(answer);
    if let Some(posted) = post_in(text, answer) {
        answer.say_whether(has_kept_mic(&Posted { content, ..posted }));
    }
}

/// Answers with an entry of the inbox, but for its document.
fn say_entry(answer: &mut Answer, entry: &InEntry) {
    answer.say_number(entry.number);
    answer.say(", receipt ");
    answer.say(receipt_stage_word(entry.receipt_stage));
    answer.say(", ");
    answer.say(attempt_word(entry.attempt));
    say_due(answer, entry.due);
    answer.say(if is_requeued(entry) {
        ", queued again"
    } else {
        ", not queued again"
    });
}

/// `first-entry NUMBER | MOMENT || DOCUMENT`: the entry of a document that is posted for the first time.
fn say_first_entry(rest: &str, answer: &mut Answer) {
    let (first, text) = answer.cut(rest, " || ", "no document");
    let mut arguments = Arguments::of(first);
    let number = arguments.number(answer);
    let Some(moment) = arguments.moment(answer) else {
        return;
    };
    if let Some(posted) = post_in(text, answer) {
        say_entry(answer, &first_entry(number, moment, posted));
    }
}

static LINES: [Line; 19] = [
    Line::BadNames,
    Line::BadVersion,
    Line::UnknownNames,
    Line::BadType,
    Line::UnreadableReceipt,
    Line::NoSuchMessage,
    Line::BadId,
    Line::BadAsk,
    Line::IdUsedBefore,
    Line::BadRequestHead,
    Line::UnsupportedCoding,
    Line::BadContentLength,
    Line::BadChunkedBody,
    Line::BodyTooLarge,
    Line::LengthRequired,
    Line::OnlyPost,
    Line::NoSuchPath,
    Line::StoreFailed,
    Line::StoreFull,
];

/// `status LINE`: the status of the answer that the line is.
fn say_status(rest: &str, answer: &mut Answer) {
    if let Some(line) = value_in(rest, &LINES, "no line", answer) {
        answer.say_number(u64::from(line.status()));
    }
}

/// Answers to the verbs of posts; whether it is one.
pub fn answer(verb: &str, rest: &str, answer: &mut Answer) -> bool {
    match verb {
        "read-document" => say_post(rest, answer),
        "repeats" => say_whether_repeats(rest, answer),
        "keeps-mic" => say_whether_kept(rest, answer),
        "first-entry" => say_first_entry(rest, answer),
        "status" => say_status(rest, answer),
        _ => return false,
    }
    true
}
