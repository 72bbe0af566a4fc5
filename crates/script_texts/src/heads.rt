//! Heads of fields. A line spells a field as `NAME: VALUE`, and ` | ` stands between fields.
use as2_names::{Head, HeadFault, Once, lists};
use script_lines::{Answer, Trouble};

/// Adds a field to a head, which must take it.
fn add(head: &mut Head, name: &[u8], value: &[u8], answer: &mut Answer) {
    match head.append(name, value) {
        Ok(()) => {}
        Err(HeadFault::Memory) => answer.fail(Trouble::Memory),
        Err(_) => answer.lack("a field that no head takes"),
    }
}

/// Adds the field that is spelled so.
fn add_spelled(head: &mut Head, field: &str, answer: &mut Answer) {
    let (name, value) = answer.cut(field, ":", "no field");
    let name = answer.bytes_of(name);
    let value = answer.bytes_of(value.strip_prefix(" ").unwrap_or(value));
    add(head, name.as_slice(), value.as_slice(), answer);
}

/// The head of the fields that are spelled so.
pub fn head_of(fields: &str, answer: &mut Answer) -> Head {
    let mut head = Head::new(answer.alloc());
    if !fields.is_empty() {
        for field in fields.split(" | ") {
            add_spelled(&mut head, field, answer);
        }
    }
    head
}

/// Answers with what a head says of a name.
fn say_once(answer: &mut Answer, once: Once<'_>) {
    match once {
        Once::Absent => answer.say("nothing"),
        Once::One(value) => answer.say_bytes(value),
        Once::Twice => answer.say("twice"),
    }
}

/// Adds a field to a head, and answers with what became of it, how many there are then, and what the head says of the name.
fn say_added(head: &mut Head, name: &[u8], value: &[u8], answer: &mut Answer) {
    let alloc = answer.alloc();
    match head.append(name, value) {
        Ok(()) => answer.say("added"),
        Err(fault) => answer.say_fault(&fault),
    }
    answer.say_made(format!(in alloc; ", {}, ", head.len()));
    say_once(answer, head.value(name));
}

/// The first word, and what stands behind it, which may be nothing.
fn first_word(words: &str) -> (&str, &str) {
    words.split_once(" | ").unwrap_or((words, ""))
}

/// `add-field NAME | VALUE | FIELD ..`: adds a field behind these; whether it is added, how many fields there are then, and what the
/// head says of the name.
fn add_field(rest: &str, answer: &mut Answer) {
    let (name, behind) = answer.two_words(rest);
    let (value, fields) = first_word(behind);
    let name = answer.bytes_of(name);
    let value = answer.bytes_of(value);
    let mut head = head_of(fields, answer);
    say_added(&mut head, name.as_slice(), value.as_slice(), answer);
}

/// `head-value NAME | FIELD ..`: what a head says of a name.
fn head_value(rest: &str, answer: &mut Answer) {
    let (name, fields) = answer.two_words(rest);
    let name = answer.bytes_of(name);
    let head = head_of(fields, answer);
    say_once(answer, head.value(name.as_slice()));
}

/// `head-lists OPTION | NAME | FIELD ..`: whether a field of that name lists the option.
fn head_lists(rest: &str, answer: &mut Answer) {
    let (option, behind) = answer.two_words(rest);
    let (name, fields) = answer.two_words(behind);
    let option = answer.bytes_of(option);
    let name = answer.bytes_of(name);
    let head = head_of(fields, answer);
    answer.say_whether(head.lists(name.as_slice(), option.as_slice()));
}

/// `lists OPTION | VALUE`: whether a value lists the option.
fn value_lists(rest: &str, answer: &mut Answer) {
    let (option, value) = answer.two_words(rest);
    let option = answer.bytes_of(option);
    let value = answer.bytes_of(value);
    answer.say_whether(lists(value.as_slice(), option.as_slice()));
}

/// Answers to the verbs of heads; whether it is one.
pub fn answer(verb: &str, rest: &str, answer: &mut Answer) -> bool {
    match verb {
        "add-field" => add_field(rest, answer),
        "head-value" => head_value(rest, answer),
        "head-lists" => head_lists(rest, answer),
        "lists" => value_lists(rest, answer),
        _ => return false,
    }
    true
}
