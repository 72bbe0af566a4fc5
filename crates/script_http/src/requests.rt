//! Requests as they are read (RFC 9112, section 3), whole or in pieces.
use as2_messages::{Method, Parsed, Refused, Request, RequestParser, Target};
use as2_text::Once;
use script_lines::{Answer, Trouble};

/// What bytes begin with; of a request without its fields, and of its body the length alone.
#[derive(Clone, Copy, PartialEq, Eq)]
enum Seen {
    Request {
        method: Method,
        target: Target,
        body: usize,
        last: bool,
    },
    Refused(Refused),
    /// CR and LF alone, or nothing.
    Blank,
    /// Less than a request.
    Open,
}

/// What comes with a piece, and how many of its bytes that takes. It is as if the bytes went on where there is no memory.
fn next_of(parser: &mut RequestParser, piece: &[u8], answer: &mut Answer) -> (Seen, usize) {
    match parser.feed(piece) {
        Ok(Parsed::Request(request, used)) => (
            Seen::Request {
                method: request.method,
                target: request.target,
                body: request.body.len(),
                last: request.last,
            },
            used,
        ),
        Ok(Parsed::Refused(refused)) => (Seen::Refused(refused), piece.len()),
        Ok(Parsed::Open) if parser.is_blank() => (Seen::Blank, piece.len()),
        Ok(Parsed::Open) => (Seen::Open, piece.len()),
        Err(_) => {
            answer.fail(Trouble::Memory);
            (Seen::Open, piece.len())
        }
    }
}

/// What a text begins with that is given at once.
fn first_of(text: &[u8], answer: &mut Answer) -> Seen {
    let mut parser = RequestParser::new(answer.alloc());
    let (seen, _) = next_of(&mut parser, text, answer);
    seen
}

/// What is told of a method.
fn method_word(method: Method) -> &'static str {
    match method {
        Method::Post => "POST",
        Method::Head => "HEAD",
        Method::Other => "other",
    }
}

/// What is told of a target.
fn target_word(target: Target) -> &'static str {
    match target {
        Target::Station => "/as2",
        Target::Other => "elsewhere",
    }
}

/// Answers with what was seen.
fn say_seen(seen: Seen, answer: &mut Answer) {
    match seen {
        Seen::Request {
            method,
            target,
            body,
            last,
        } => {
            answer.say(method_word(method));
            answer.say(" ");
            answer.say(target_word(target));
            answer.say(", ");
            answer.say_number(body as u64);
            answer.say(if last { " bytes, last" } else { " bytes" });
        }
        Seen::Refused(Refused { reason, to_head }) => {
            answer.say_fault(&reason);
            answer.say(if to_head { " to HEAD" } else { "" });
        }
        Seen::Blank => answer.say("blank"),
        Seen::Open => answer.say("open"),
    }
}

/// Answers with what a text begins with that is given at once.
fn say_first(rest: &str, answer: &mut Answer) {
    let text = answer.bytes_of(rest);
    let seen = first_of(text.as_slice(), answer);
    say_seen(seen, answer);
}

/// Tells of each front of a text whether it is open.
fn say_each_front(text: &[u8], answer: &mut Answer) {
    let mut count = 0u64;
    for length in 1..text.len() {
        let (front, _) = text.split_at(length);
        let seen = first_of(front, answer);
        if seen != Seen::Open {
            answer.say("behind ");
            answer.say_number(length as u64);
            answer.say(" bytes ");
            say_seen(seen, answer);
            return;
        }
        count = count.saturating_add(1);
    }
    answer.say("open ");
    answer.say_number(count);
    answer.say(" times");
}

/// Reads each part that a text begins with, but the empty one and the whole: how many are open, if these are all.
fn say_fronts(rest: &str, answer: &mut Answer) {
    let text = answer.bytes_of(rest);
    say_each_front(text.as_slice(), answer);
}

/// Gives the bytes to a parser one by one, and tells what comes first.
fn say_behind_bytes(parser: &mut RequestParser, text: &[u8], answer: &mut Answer) {
    for (at, byte) in text.iter().enumerate() {
        let (seen, used) = next_of(parser, &[*byte], answer);
        if seen != Seen::Open && seen != Seen::Blank {
            say_seen(seen, answer);
            answer.say(" behind ");
            answer.say_number(at.saturating_add(used) as u64);
            answer.say(" bytes");
            return;
        }
    }
    answer.say("open");
}

/// Gives the bytes of a text one by one, up to what comes with them: what it is, and behind how many bytes.
fn say_byte_by_byte(rest: &str, answer: &mut Answer) {
    let text = answer.bytes_of(rest);
    let mut parser = RequestParser::new(answer.alloc());
    say_behind_bytes(&mut parser, text.as_slice(), answer);
}

/// Adds what comes with a piece. Nothing more is read behind a refusal.
fn add_seen(parser: &mut RequestParser, piece: &[u8], seen: &mut Vec<Seen>, answer: &mut Answer) {
    let mut rest = piece;
    for _ in 0..=piece.len() {
        if matches!(seen.last(), Some(Seen::Refused(_))) {
            return;
        }
        let (next, used) = next_of(parser, rest, answer);
        if next == Seen::Open || next == Seen::Blank {
            return;
        }
        if seen.push(next).is_err() {
            answer.fail(Trouble::Memory);
            return;
        }
        rest = rest.get(used..).unwrap_or(b"");
    }
}

/// What comes with three pieces.
fn seen_in(pieces: [&[u8]; 3], answer: &mut Answer) -> Vec<Seen> {
    let mut parser = RequestParser::new(answer.alloc());
    let mut seen = Vec::new(answer.alloc());
    for piece in pieces {
        add_seen(&mut parser, piece, &mut seen, answer);
    }
    seen
}

/// How many cuttings of the rest into two give what is wanted behind the first piece.
fn count_behind(first: &[u8], rest: &[u8], wanted: &[Seen], answer: &mut Answer) -> u64 {
    let mut count = 0u64;
    for at in 0..=rest.len() {
        let (second, third) = rest.split_at(at);
        let seen = seen_in([first, second, third], answer);
        if seen.as_slice() == wanted {
            count = count.saturating_add(1);
        }
    }
    count
}

/// How many cuttings of a text into three pieces give what is wanted.
fn count_cuttings(text: &[u8], wanted: &[Seen], answer: &mut Answer) -> u64 {
    let mut count = 0u64;
    for at in 0..=text.len() {
        let (first, rest) = text.split_at(at);
        count = count.saturating_add(count_behind(first, rest, wanted, answer));
    }
    count
}

/// Answers with what comes with a text, and in how many cuttings of it into three pieces the same comes.
fn say_cuttings(rest: &str, answer: &mut Answer) {
    let text = answer.bytes_of(rest);
    let whole = seen_in([text.as_slice(), b"", b""], answer);
    for seen in &whole {
        say_seen(*seen, answer);
        answer.say("; ");
    }
    let count = count_cuttings(text.as_slice(), whole.as_slice(), answer);
    answer.say("in ");
    answer.say_number(count);
    answer.say(" cuttings");
}

/// The request that a text begins with.
fn request_in(text: &str, answer: &mut Answer) -> Option<Request> {
    let text = answer.bytes_of(text);
    let mut parser = RequestParser::new(answer.alloc());
    match parser.feed(text.as_slice()) {
        Ok(Parsed::Request(request, _)) => return Some(request),
        Ok(_) => answer.lack("no request"),
        Err(_) => answer.fail(Trouble::Memory),
    }
    None
}

/// Answers with how many fields a request has, and with its body, between whose pieces a `|` stands.
fn say_content(rest: &str, answer: &mut Answer) {
    let Some(request) = request_in(rest, answer) else {
        return;
    };
    answer.say_number(request.fields.len() as u64);
    answer.say(" fields, ");
    for at in 0..request.body.count() {
        answer.say(if at > 0 { "|" } else { "" });
        answer.say_bytes(request.body.piece(at).unwrap_or(b""));
    }
}

/// Answers with the value of a field.
fn say_value(value: Once<'_>, answer: &mut Answer) {
    match value {
        Once::Absent => answer.say("nothing"),
        Once::One(value) => answer.say_bytes(value),
        Once::Twice => answer.say("twice"),
    }
}

/// `NAME | TEXT`: answers with the value that the request has in the field of that name.
fn say_field(rest: &str, answer: &mut Answer) {
    let (name, text) = answer.cut(rest, " | ", "no name and no text");
    if let Some(request) = request_in(text, answer) {
        say_value(request.fields.value(name.as_bytes()), answer);
    }
}

/// Answers to the verbs of requests over HTTP; whether it is one.
pub fn answer(verb: &str, rest: &str, answer: &mut Answer) -> bool {
    match verb {
        "read-request" => say_first(rest, answer),
        "request-content" => say_content(rest, answer),
        "request-field" => say_field(rest, answer),
        "read-each-front" => say_fronts(rest, answer),
        "read-byte-by-byte" => say_byte_by_byte(rest, answer),
        "read-each-cutting" => say_cuttings(rest, answer),
        _ => return false,
    }
    true
}
