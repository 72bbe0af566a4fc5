//! Multipart bodies and the fields of their parts.
use crate::told::say_told;
use as2_parts::{Field, Fields, Part, find_once, two_parts};
use script_lines::Answer;

/// Answers with the head and the content of a part, each in brackets.
fn say_part(answer: &mut Answer, part: Part<'_>) {
    answer.say_in_brackets(part.head);
    answer.say_in_brackets(part.content)
}

/// Answers with what a body comes to: the head and the content of each of two parts, or why it hasn't these.
fn say_parts(answer: &mut Answer, body: &[u8], boundary: &[u8]) {
    match two_parts(body, boundary) {
        Ok((first, second)) => {
            say_part(answer, first);
            say_part(answer, second);
        }
        Err(fault) => answer.say_fault(&fault),
    }
}

/// `two-parts BOUNDARY | BODY`: the first two parts of a body.
fn parts_of(rest: &str, answer: &mut Answer) {
    let (boundary, body) = answer.two_words(rest);
    let boundary = answer.bytes_of(boundary);
    let body = answer.bytes_of(body);
    say_parts(answer, body.as_slice(), boundary.as_slice());
}

/// Two lengths.
fn lengths_in(words: &str, answer: &mut Answer) -> (usize, usize) {
    let (least, most) = answer.cut(words, " ", "no two lengths");
    (answer.length_in(least), answer.length_in(most))
}

/// Answers with the first two parts of what stands at the front of a body.
fn say_parts_of_front(answer: &mut Answer, front: &[u8], boundary: &[u8]) {
    let mut told = Answer::new(answer.alloc());
    say_parts(&mut told, front, boundary);
    say_told(answer, &told);
}

/// `two-parts-of-fronts LEAST MOST | BOUNDARY | BODY`: the first two parts of what stands at the front of a body, for each length from
/// the least to the most.
fn parts_of_fronts(rest: &str, answer: &mut Answer) {
    let (lengths, behind) = answer.two_words(rest);
    let (least, most) = lengths_in(lengths, answer);
    let (boundary, body) = answer.two_words(behind);
    let boundary = answer.bytes_of(boundary);
    let body = answer.bytes_of(body);
    for length in least..=most {
        let Some(front) = body.as_slice().get(..length) else {
            answer.lack("no front of that length");
            break;
        };
        say_parts_of_front(answer, front, boundary.as_slice());
    }
}

/// Answers with the name and the value of a field, each in brackets, or with `nothing`.
fn say_field(answer: &mut Answer, field: Option<Field<'_>>) {
    match field {
        Some(field) => {
            answer.say_in_brackets(field.name);
            answer.say_in_brackets(field.value)
        }
        None if answer.is_empty() => answer.say("nothing"),
        None => answer.say(" nothing"),
    }
}

/// `read-fields TEXT`: the fields of a text.
fn read_fields(rest: &str, answer: &mut Answer) {
    let text = answer.bytes_of(rest);
    for field in Fields::of(text.as_slice()) {
        say_field(answer, Some(field));
    }
    if answer.is_empty() {
        answer.say("nothing");
    }
}

/// `next-fields COUNT | TEXT`: the next field of a text, asked for so many times.
fn next_fields(rest: &str, answer: &mut Answer) {
    let (count, text) = answer.two_words(rest);
    let count = answer.length_in(count);
    let text = answer.bytes_of(text);
    let mut fields = Fields::of(text.as_slice());
    for _ in 0..count {
        say_field(answer, fields.next());
    }
}

/// `find-field NAME | TEXT`: the only field of that name.
fn find_field(rest: &str, answer: &mut Answer) {
    let (name, text) = answer.two_words(rest);
    let name = answer.bytes_of(name);
    let text = answer.bytes_of(text);
    match find_once(text.as_slice(), name.as_slice()) {
        Ok(field) => say_field(answer, field),
        Err(fault) => answer.say_fault(&fault),
    }
}

/// `count-bytes TEXT`: how many bytes a text has.
fn count_bytes(rest: &str, answer: &mut Answer) {
    let text = answer.bytes_of(rest);
    answer.say_made(text.len().to_string(answer.alloc()));
}

/// Answers to the verbs of bodies and fields; whether it is one.
pub fn answer(verb: &str, rest: &str, answer: &mut Answer) -> bool {
    match verb {
        "two-parts" => parts_of(rest, answer),
        "two-parts-of-fronts" => parts_of_fronts(rest, answer),
        "read-fields" => read_fields(rest, answer),
        "next-fields" => next_fields(rest, answer),
        "find-field" => find_field(rest, answer),
        "count-bytes" => count_bytes(rest, answer),
        _ => return false,
    }
    true
}
