//! Message identifiers as they are read and compared.
use as2_names::{IdFault, MessageId, is_identifier, without_blanks};
use script_lines::{Answer, Trouble};

/// The identifier that a text spells, which must be one.
fn identifier_in(text: &str, answer: &mut Answer) -> Option<MessageId> {
    let text = answer.bytes_of(text);
    match MessageId::parse(answer.alloc(), text.as_slice()) {
        Ok(id) => Some(id),
        Err(fault) => {
            answer.fail(match fault {
                IdFault::Memory => Trouble::Memory,
                _ => Trouble::Unreadable("no identifier"),
            });
            None
        }
    }
}

/// Answers with the identifier as it was received, and with its value.
fn say_identifier(answer: &mut Answer, id: &MessageId) {
    answer.say(id.as_received());
    answer.say(", ");
    answer.say(id.value());
}

/// `read-identifier TEXT`: the identifier that a field holds and its value, or why it holds none.
fn read_identifier(rest: &str, answer: &mut Answer) {
    let text = answer.bytes_of(rest);
    match MessageId::parse(answer.alloc(), text.as_slice()) {
        Ok(id) => say_identifier(answer, &id),
        Err(fault) => answer.say_fault(&fault),
    }
}

/// `copy-identifier TEXT`: the copy of an identifier.
fn copy_identifier(rest: &str, answer: &mut Answer) {
    let Some(id) = identifier_in(rest, answer) else {
        return;
    };
    match id.clone() {
        Ok(copy) => answer.say(copy.as_received()),
        Err(_) => answer.fail(Trouble::Memory),
    }
}

/// `same-identifier TEXT | TEXT`: whether two identifiers have one value.
fn same_identifier(rest: &str, answer: &mut Answer) {
    let (left, right) = answer.two_words(rest);
    let left = identifier_in(left, answer);
    let right = identifier_in(right, answer);
    if let (Some(left), Some(right)) = (&left, &right) {
        answer.say_whether(left.same_value(right));
    }
}

/// `is-identifier TEXT`: whether a text is an identifier as it stands.
fn is_one(rest: &str, answer: &mut Answer) {
    let text = answer.bytes_of(rest);
    answer.say_whether(is_identifier(text.as_slice()));
}

/// `without-blanks TEXT`: the text without the blanks at its ends.
fn bare(rest: &str, answer: &mut Answer) {
    let text = answer.bytes_of(rest);
    answer.say_bytes(without_blanks(text.as_slice()));
}

/// Answers to the verbs of identifiers; whether it is one.
pub fn answer(verb: &str, rest: &str, answer: &mut Answer) -> bool {
    match verb {
        "read-identifier" => read_identifier(rest, answer),
        "copy-identifier" => copy_identifier(rest, answer),
        "same-identifier" => same_identifier(rest, answer),
        "is-identifier" => is_one(rest, answer),
        "without-blanks" => bare(rest, answer),
        _ => return false,
    }
    true
}
