//! Agreements as they are read: their values and members, and the first fault.
use crate::arguments::value_in;
use as2_agreement::{AgreementFault, Agreements, Key, Organization, Partner};
use as2_text::AsName;
use script_lines::Answer;

/// A fault of each kind, with a key where the kind has one.
static FAULTS: &[AgreementFault] = &[
    AgreementFault::NotToml,
    AgreementFault::Missing(Key::Domain),
    AgreementFault::WrongKind(Key::Receipt),
    AgreementFault::BadName,
    AgreementFault::NameTwice,
    AgreementFault::BadUrl(Key::ReturnUrl),
    AgreementFault::OutOfRange(Key::MaxTries),
    AgreementFault::NoReturnUrl,
    AgreementFault::TooMany,
    AgreementFault::Memory,
];

static KEYS: &[Key] = &[
    Key::Domain,
    Key::ReturnUrl,
    Key::Organization,
    Key::Partner,
    Key::Name,
    Key::Url,
    Key::Receipt,
    Key::Digest,
    Key::ContentType,
    Key::MaxTries,
    Key::RetrySeconds,
    Key::OverdueSeconds,
];

/// The agreements that a text spells, or their first fault.
fn read(text: &str, answer: &mut Answer) -> Result<Agreements, AgreementFault> {
    let bytes = answer.bytes_of(text);
    let text = answer.text_of(bytes.as_slice());
    Agreements::read(answer.alloc(), text)
}

/// Agreements that have no fault.
fn agreed(text: &str, answer: &mut Answer) -> Option<Agreements> {
    match read(text, answer) {
        Ok(agreements) => Some(agreements),
        Err(_) => {
            answer.lack("no agreements");
            None
        }
    }
}

/// Answers how many organizations and partners there are.
fn say_counts(answer: &mut Answer, agreements: &Agreements) {
    let (organizations, partners) = agreements.counts();
    answer.say_number(organizations);
    answer.say(", ");
    answer.say_number(partners);
}

/// Answers how many members a text's agreements have, or with the first fault.
fn say_read(text: &str, answer: &mut Answer) {
    match read(text, answer) {
        Ok(agreements) => say_counts(answer, &agreements),
        Err(fault) => answer.say_fault(&fault),
    }
}

/// Answers with the domain, and the address for receipts.
fn say_station(answer: &mut Answer, agreements: &Agreements) {
    answer.say_bytes(agreements.domain().bytes());
    answer.say(", ");
    match agreements.return_url() {
        Some(url) => answer.say(url.as_str()),
        None => answer.say("nothing"),
    }
}

/// `read-values TEXT`: the domain, and the address for receipts.
fn say_values(text: &str, answer: &mut Answer) {
    if let Some(agreements) = agreed(text, answer) {
        say_station(answer, &agreements);
    }
}

/// The name that a word spells.
fn name_in(word: &str, answer: &mut Answer) -> Option<AsName> {
    let name = answer.bytes_of(word);
    match AsName::plain(name.as_slice()) {
        Ok(name) => Some(name),
        Err(_) => {
            answer.lack("no name");
            None
        }
    }
}

fn say_organization(answer: &mut Answer, organization: Option<&Organization>) {
    match organization {
        Some(organization) => answer.say_bytes(organization.name.bytes()),
        None => answer.say("nothing"),
    }
}

/// Answers with a partner's terms: the way of its receipts, their digest, the content type, and three numbers.
fn say_terms(answer: &mut Answer, partner: &Partner) {
    answer.say(partner.url.as_str());
    answer.say(", ");
    answer.say_name(&partner.receipt);
    answer.say(", ");
    answer.say_name(&partner.digest);
    answer.say(", ");
    answer.say(partner.content_type.as_str());
    answer.say(", ");
    answer.say_number(partner.max_tries);
    answer.say(", ");
    answer.say_number(partner.retry_seconds);
    answer.say(", ");
    answer.say_number(partner.overdue_seconds);
}

fn say_partner(answer: &mut Answer, partner: Option<&Partner>) {
    match partner {
        Some(partner) => {
            answer.say_bytes(partner.name.bytes());
            answer.say(", ");
            say_terms(answer, partner);
        }
        None => answer.say("nothing"),
    }
}

/// Answers with the organization of a name.
fn find_organization(rest: &str, answer: &mut Answer) {
    let (name, text) = answer.cut(rest, " | ", "no text");
    let Some(name) = name_in(name, answer) else {
        return;
    };
    if let Some(agreements) = agreed(text, answer) {
        say_organization(answer, agreements.organization(&name));
    }
}

/// Answers with the partner of a name, and its terms.
fn find_partner(rest: &str, answer: &mut Answer) {
    let (name, text) = answer.cut(rest, " | ", "no text");
    let Some(name) = name_in(name, answer) else {
        return;
    };
    if let Some(agreements) = agreed(text, answer) {
        say_partner(answer, agreements.partner(&name));
    }
}

/// Answers with the words of the fault that is spelled so in a script: its word, and the key that it names.
fn word_fault(word: &str, answer: &mut Answer) {
    let Some(fault) = value_in(word, FAULTS, "no such fault", answer) else {
        return;
    };
    answer.say(fault.name());
    if let Some(key) = fault.key() {
        answer.say(" ");
        answer.say(key.name());
    }
}

/// Answers with a key as a file spells it, and as it is printed.
fn spell_key(word: &str, answer: &mut Answer) {
    if let Some(key) = value_in(word, KEYS, "no such key", answer) {
        answer.say(key.name());
        answer.say_made(format!(in answer.alloc(); ", printed {key}"));
    }
}

/// Answers to the verbs of agreements; whether it is one.
pub fn answer(verb: &str, rest: &str, answer: &mut Answer) -> bool {
    match verb {
        "read-agreements" => say_read(rest, answer),
        "read-values" => say_values(rest, answer),
        "find-organization" => find_organization(rest, answer),
        "find-partner" => find_partner(rest, answer),
        "word-fault" => word_fault(rest, answer),
        "spell-key" => spell_key(rest, answer),
        _ => return false,
    }
    true
}
