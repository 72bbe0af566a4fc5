//! Names and domains as they are read and spelled.
use as2_names::{AsName, Domain};
use script_lines::{Answer, Trouble};

/// `read-name TEXT`: the name that a field spells, or why it spells none.
fn read_name(rest: &str, answer: &mut Answer) {
    let text = answer.bytes_of(rest);
    match AsName::parse(text.as_slice()) {
        Ok(name) => answer.say_bytes(name.bytes()),
        Err(fault) => answer.say_fault(&fault),
    }
}

/// `spell-name NAME`: how the name is written, or why it is none.
fn spell_name(rest: &str, answer: &mut Answer) {
    let text = answer.bytes_of(rest);
    match AsName::plain(text.as_slice()) {
        Ok(name) => answer.say(name.spelling().as_str()),
        Err(fault) => answer.say_fault(&fault),
    }
}

/// Answers with the copy of a name.
fn say_copy(name: &AsName, answer: &mut Answer) {
    match name.clone() {
        Ok(copy) => answer.say_bytes(copy.bytes()),
        Err(_) => answer.fail(Trouble::Memory),
    }
}

/// `copy-name NAME`: the copy of a name.
fn copy_name(rest: &str, answer: &mut Answer) {
    let text = answer.bytes_of(rest);
    match AsName::plain(text.as_slice()) {
        Ok(name) => say_copy(&name, answer),
        Err(fault) => answer.say_fault(&fault),
    }
}

/// `read-domain TEXT`: the domain that a text is.
fn read_domain(rest: &str, answer: &mut Answer) {
    let text = answer.bytes_of(rest);
    let domain = Domain::of(text.as_slice());
    answer.say_or_nothing(domain.as_ref().map(|domain| domain.bytes()));
}

/// `copy-domain TEXT`: the copy of a domain.
fn copy_domain(rest: &str, answer: &mut Answer) {
    let text = answer.bytes_of(rest);
    match Domain::of(text.as_slice()) {
        Some(domain) => match domain.clone() {
            Ok(copy) => answer.say_bytes(copy.bytes()),
            Err(_) => answer.fail(Trouble::Memory),
        },
        None => answer.say("nothing"),
    }
}

/// Answers to the verbs of names and domains; whether it is one.
pub fn answer(verb: &str, rest: &str, answer: &mut Answer) -> bool {
    match verb {
        "read-name" => read_name(rest, answer),
        "spell-name" => spell_name(rest, answer),
        "copy-name" => copy_name(rest, answer),
        "read-domain" => read_domain(rest, answer),
        "copy-domain" => copy_domain(rest, answer),
        _ => return false,
    }
    true
}
