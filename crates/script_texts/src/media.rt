//! Media types.
use as2_media::MediaType;
use script_lines::Answer;

/// Answers with what a body of the type is, and its boundary.
fn say_type(answer: &mut Answer, media_type: &MediaType<'_>) {
    answer.say_name(&media_type.kind());
    answer.say(", ");
    answer.say_or_nothing(media_type.boundary());
}

/// `read-type TEXT`: what a body of the media type is and its boundary, or why the field is none.
fn read_type(rest: &str, answer: &mut Answer) {
    let text = answer.bytes_of(rest);
    match MediaType::parse(text.as_slice()) {
        Ok(media_type) => say_type(answer, &media_type),
        Err(fault) => answer.say_fault(&fault),
    }
}

/// `is-type TYPE | SUBTYPE | TEXT`: whether a media type is of that type and subtype.
fn is_type(rest: &str, answer: &mut Answer) {
    let (type_name, behind) = answer.two_words(rest);
    let (subtype, text) = answer.two_words(behind);
    let text = answer.bytes_of(text);
    match MediaType::parse(text.as_slice()) {
        Ok(media_type) => {
            let is = media_type.is_type(type_name.as_bytes(), subtype.as_bytes());
            answer.say_whether(is);
        }
        Err(fault) => answer.say_fault(&fault),
    }
}

/// Answers to the verbs of media types; whether it is one.
pub fn answer(verb: &str, rest: &str, answer: &mut Answer) -> bool {
    match verb {
        "read-type" => read_type(rest, answer),
        "is-type" => is_type(rest, answer),
        _ => return false,
    }
    true
}
