//! Lines that tell an event: the moment, its name and its numbers, and behind ` | ` what it brings.
//!
//! `post`, the replies and `submit` bring a content: a count of letters `a`, the name of a text, or a text without `:` and ` -> `. A
//! post and a reply have the fields `NAME: VALUE` of the text `CONTENT-fields`, where there is one, else of `post-fields`. A field of
//! the line stands in place of the one of its name, and is left out where it has no value. Each `OLD -> NEW` is a change in the content.
use crate::made::{change, copied, made};
use as2_exchange::{Event, TryAnswer};
use as2_mic::Pieces;
use as2_text::{AsName, Head, Moment};
use script_lines::{Answer, Settings, Trouble};

/// The parts of a line, by their kinds.
#[derive(Drop)]
struct LineParts<'a> {
    fields: Vec<(&'a str, &'a str)>,
    /// Changes in the body.
    changes: Vec<(&'a str, &'a str)>,
    /// The other parts: the event or a status, then what it names.
    texts: Vec<&'a str>,
}

impl<'a> LineParts<'a> {
    /// The text at that place, or an empty one.
    fn text_at(&self, place: usize) -> &'a str {
        self.texts.get(place).copied().unwrap_or("")
    }
}

/// Adds a part of a line to those of its kind.
fn add_part<'a>(parts: &mut LineParts<'a>, part: &'a str, answer: &mut Answer) {
    let is_added = if let Some(change) = part.split_once(" -> ") {
        parts.changes.push(change).is_ok()
    } else if let Some((name, value)) = part.split_once(":") {
        parts.fields.push((name, value.trim())).is_ok()
    } else {
        parts.texts.push(part.trim()).is_ok()
    };
    if !is_added {
        answer.fail(Trouble::Memory);
    }
}

/// The parts of a line, which stand between ` | `.
fn parts_of<'a>(line: &'a str, answer: &mut Answer) -> LineParts<'a> {
    let alloc = answer.alloc();
    let mut parts = LineParts {
        fields: Vec::new(alloc),
        changes: Vec::new(alloc),
        texts: Vec::new(alloc),
    };
    for part in line.split(" | ") {
        add_part(&mut parts, part, answer);
    }
    parts
}

/// The value of the field of that name among these: the first, where it stands twice.
fn value_of<'a>(fields: &[(&'a str, &'a str)], name: &str) -> Option<&'a str> {
    for (field, value) in fields {
        if *field == name {
            return Some(value);
        }
    }
    None
}

/// Adds a field, unless its value is empty.
pub fn add_field(head: &mut Head, name: &str, value: &str, answer: &mut Answer) {
    if value.is_empty() {
        return;
    }
    let value = answer.bytes_of(value);
    if head.append(name.as_bytes(), value.as_slice()).is_err() {
        answer.lack("no field");
    }
}

/// Adds the default fields, each with the value that the line gives it.
fn add_defaults<'a>(
    head: &mut Head,
    defaults: &[(&'a str, &'a str)],
    given: &[(&'a str, &'a str)],
    answer: &mut Answer,
) {
    for (name, value) in defaults {
        let value = value_of(given, name).unwrap_or(value);
        add_field(head, name, value, answer);
    }
}

/// Adds the line's fields that are not among the default ones.
fn add_given<'a>(
    head: &mut Head,
    defaults: &[(&'a str, &'a str)],
    given: &[(&'a str, &'a str)],
    answer: &mut Answer,
) {
    for (name, value) in given {
        if value_of(defaults, name).is_none() {
            add_field(head, name, value, answer);
        }
    }
}

/// The fields of the text `CONTENT-fields`, else of `post-fields`.
fn default_fields<'a>(settings: &'a Settings, content: &str, answer: &mut Answer) -> &'a str {
    let name = made(format!(in answer.alloc(); "{content}-fields"), answer);
    match settings.text(name.as_str()) {
        Some(fields) => fields,
        None => settings.text("post-fields").unwrap_or(""),
    }
}

/// The head that a line brings.
fn head_of(settings: &Settings, parts: &LineParts<'_>, answer: &mut Answer) -> Head {
    let defaults = default_fields(settings, parts.text_at(1), answer);
    let defaults = parts_of(defaults, answer);
    let (defaults, given) = (defaults.fields.as_slice(), parts.fields.as_slice());
    let mut head = Head::new(answer.alloc());
    add_defaults(&mut head, defaults, given, answer);
    add_given(&mut head, defaults, given, answer);
    head
}

/// The bytes as a body.
pub fn body_of(bytes: &[u8], answer: &mut Answer) -> Pieces {
    let mut body = Pieces::new(answer.alloc());
    if body.append(bytes).is_err() {
        answer.fail(Trouble::Memory);
    }
    body
}

/// A body of so many letters.
fn letters(count: usize, answer: &mut Answer) -> Pieces {
    let letters = made("a".repeat(answer.alloc(), count), answer);
    body_of(letters.as_bytes(), answer)
}

/// Makes changes in a text.
fn change_each(text: &mut String, changes: &[(&str, &str)], answer: &mut Answer) {
    for (old, new) in changes {
        change(text, old, new, answer);
    }
}

/// A body of a text with these changes.
fn changed(text: &str, changes: &[(&str, &str)], answer: &mut Answer) -> Pieces {
    let mut text = copied(text, answer);
    change_each(&mut text, changes, answer);
    let bytes = answer.bytes_of(text.as_str());
    body_of(bytes.as_slice(), answer)
}

/// The body that the word at that place tells.
fn body_at(
    settings: &Settings,
    parts: &LineParts<'_>,
    place: usize,
    answer: &mut Answer,
) -> Pieces {
    let word = parts.text_at(place);
    match word.parse::<usize>() {
        Ok(count) => letters(count, answer),
        Err(_) => {
            let text = settings.text(word).unwrap_or(word);
            changed(text, parts.changes.as_slice(), answer)
        }
    }
}

/// A name that a word spells.
pub fn name_in(word: &str, answer: &mut Answer) -> Option<AsName> {
    let name = answer.bytes_of(word);
    match AsName::plain(name.as_slice()) {
        Ok(name) => Some(name),
        Err(_) => {
            answer.lack("no name");
            None
        }
    }
}

/// The moment that a word spells, in seconds since 1970.
pub fn moment_in(word: &str, answer: &mut Answer) -> Option<Moment> {
    let moment = Moment::new(word.parse::<u64>().unwrap_or(u64::MAX));
    if moment.is_none() {
        answer.lack("no moment");
    }
    moment
}

/// What came of a try: nothing, where no status is told.
fn reply(
    settings: &Settings,
    parts: &LineParts<'_>,
    status: &str,
    answer: &mut Answer,
) -> TryAnswer {
    match status.parse::<u16>() {
        Ok(status) => TryAnswer::Reply {
            status,
            head: head_of(settings, parts, answer),
            body: body_at(settings, parts, 1, answer),
        },
        Err(_) => {
            if !status.is_empty() {
                answer.lack("no status");
            }
            TryAnswer::NoAnswer
        }
    }
}

/// The answer to a try that a line tells: a status, and behind it what is parts; nothing, where the line is empty.
pub fn try_answer(settings: &Settings, line: &str, answer: &mut Answer) -> TryAnswer {
    let parts = parts_of(line, answer);
    reply(settings, &parts, parts.text_at(0), answer)
}

/// The words of an event: its moment, its name, a number, and a status.
#[derive(Clone, Copy)]
struct Words<'a> {
    moment: &'a str,
    name: &'a str,
    number: &'a str,
    status: &'a str,
}

fn words_of(text: &str) -> Words<'_> {
    let mut words = text.split_whitespace();
    Words {
        moment: words.next().unwrap_or(""),
        name: words.next().unwrap_or(""),
        number: words.next().unwrap_or(""),
        status: words.next().unwrap_or(""),
    }
}

/// `MOMENT post | CONTENT | NAME: VALUE | OLD -> NEW`.
fn post(settings: &Settings, parts: &LineParts<'_>, moment: Moment, answer: &mut Answer) -> Event {
    Event::Post {
        head: head_of(settings, parts, answer),
        body: body_at(settings, parts, 1, answer),
        moment,
    }
}

/// `MOMENT submit | ORGANIZATION | PARTNER | CONTENT`.
fn submission(
    settings: &Settings,
    parts: &LineParts<'_>,
    moment: Moment,
    answer: &mut Answer,
) -> Option<Event> {
    let organization = name_in(parts.text_at(1), answer)?;
    let partner = name_in(parts.text_at(2), answer)?;
    Some(Event::Submit {
        organization,
        partner,
        content: body_at(settings, parts, 3, answer),
        moment,
    })
}

/// An event of a try, of a document or of a receipt, or a document that is to be sent anew.
fn try_event(
    settings: &Settings,
    parts: &LineParts<'_>,
    words: &Words<'_>,
    moment: Moment,
    answer: &mut Answer,
) -> Option<Event> {
    let number = answer.number_in(words.number);
    match words.name {
        "begin" => Some(Event::Begin { number, moment }),
        "resend" => Some(Event::Resend { number, moment }),
        "begin-mdn" => Some(Event::BeginReceipt { number, moment }),
        "reply" | "unanswered" => Some(Event::Outcome {
            number,
            answer: reply(settings, parts, words.status, answer),
            moment,
        }),
        "reply-mdn" | "unanswered-mdn" => Some(Event::OutcomeReceipt {
            number,
            answer: reply(settings, parts, words.status, answer),
            moment,
        }),
        _ => {
            answer.lack("no such event");
            None
        }
    }
}

/// The event that is told by what a line brings.
fn event_of(settings: &Settings, parts: &LineParts<'_>, answer: &mut Answer) -> Option<Event> {
    let words = words_of(parts.text_at(0));
    let moment = moment_in(words.moment, answer)?;
    match words.name {
        "" => {
            answer.lack("no event");
            None
        }
        "post" => Some(post(settings, parts, moment, answer)),
        "submit" => submission(settings, parts, moment, answer),
        "tick" => Some(Event::Tick { moment }),
        "begin"
        | "resend"
        | "begin-mdn"
        | "reply"
        | "unanswered"
        | "reply-mdn"
        | "unanswered-mdn" => try_event(settings, parts, &words, moment, answer),
        _ => {
            answer.lack("no such event");
            None
        }
    }
}

/// The event that a line tells.
pub fn event(settings: &Settings, line: &str, answer: &mut Answer) -> Option<Event> {
    let parts = parts_of(line, answer);
    event_of(settings, &parts, answer)
}
