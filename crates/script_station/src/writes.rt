//! Calls of the records beside the machine: entries that are put in, found by their key and settled.
use crate::events::{add_field, body_of, moment_in, name_in};
use crate::records::{say_content, say_names, say_owed};
use crate::stage::Stage;
use as2_exchange::{Bytes, Evidence, InEntry, Posted, StoreFault};
use as2_mdn::Detail;
use as2_posts::{Opened, document, first_entry};
use as2_records::Records;
use as2_text::{AsName, Head, MediaType, MessageId, Moment};
use script_lines::{Answer, Trouble};
use script_values::{say_how, say_mic};

/// Every detail.
static DETAILS: [Detail; 14] = [
    Detail::New,
    Detail::Sending,
    Detail::Awaiting,
    Detail::Retry,
    Detail::Processed,
    Detail::NoReceiptAsked,
    Detail::Warning,
    Detail::NoMic,
    Detail::UnknownMic,
    Detail::NotProcessed,
    Detail::ErrorModifier,
    Detail::MicDiffers,
    Detail::TriesUsed,
    Detail::Overdue,
];

/// The detail of that name.
fn detail_in(name: &str, answer: &mut Answer) -> Option<Detail> {
    for detail in &DETAILS {
        if detail.name() == name {
            return Some(*detail);
        }
    }
    answer.lack("no detail");
    None
}

/// Answers whether a write was done.
fn say_done(answer: &mut Answer, done: Result<(), StoreFault>) {
    if answer.unless_fault(done).is_some() {
        answer.say("done");
    }
}

/// The head of the plain post under that identifier.
fn head_of(id: &str, answer: &mut Answer) -> Head {
    let options = "signed-receipt-micalg=optional, sha1";
    let mut head = Head::new(answer.alloc());
    add_field(&mut head, "Message-ID", id, answer);
    add_field(&mut head, "Content-Type", "application/edi-x12", answer);
    add_field(&mut head, "Disposition-Notification-To", "a@x", answer);
    add_field(
        &mut head,
        "Disposition-Notification-Options",
        options,
        answer,
    );
    head
}

/// What the head of a post says that Buyer posts to Supplier.
fn opened(answer: &mut Answer) -> Option<Opened<'static>> {
    let Ok(media) = MediaType::parse(b"application/edi-x12") else {
        answer.lack("no type");
        return None;
    };
    let from = name_in("Buyer", answer)?;
    let to = name_in("Supplier", answer)?;
    Some(Opened {
        from,
        to,
        media,
        content_type: b"application/edi-x12",
    })
}

/// The document that Buyer posts to Supplier under that identifier.
fn posted(id: &str, content: &str, answer: &mut Answer) -> Option<Posted> {
    let opened = opened(answer)?;
    let head = head_of(id, answer);
    let content = answer.bytes_of(content);
    let body = body_of(content.as_slice(), answer);
    match document(answer.alloc(), opened, &head, body) {
        Ok(Ok(posted)) => Some(posted),
        Ok(Err(_)) => {
            answer.lack("no document");
            None
        }
        Err(_) => {
            answer.fail(Trouble::Memory);
            None
        }
    }
}

/// The entry of a post by Buyer at 1000, by its number, its identifier and its content.
fn entry_in(rest: &str, answer: &mut Answer) -> Option<InEntry> {
    let (number, rest) = rest.split_once(" | ").unwrap_or((rest, ""));
    let (id, content) = rest.split_once(" | ").unwrap_or((rest, ""));
    let number = answer.number_in(number);
    let moment = moment_in("1000", answer)?;
    let posted = posted(id, content, answer)?;
    Some(first_entry(number, moment, posted))
}

/// `add NUMBER | IDENTIFIER | CONTENT` puts in the entry of a post by Buyer at 1000.
fn add<K: Records>(records: &mut K, rest: &str, answer: &mut Answer) {
    if let Some(entry) = entry_in(rest, answer) {
        say_done(answer, records.add_in(&entry));
    }
}

/// A receipt of the bytes `abc` at 2000.
fn evidence(answer: &mut Answer) -> Option<Evidence> {
    let moment = moment_in("2000", answer)?;
    Some(Evidence {
        moment,
        content_type: Bytes::of(answer.bytes_of("text/plain")),
        body: body_of(b"abc", answer),
    })
}

/// `settle NUMBER DETAIL` settles a document at 2000 by a receipt of the bytes `abc`.
fn settle<K: Records>(records: &mut K, rest: &str, answer: &mut Answer) {
    let (number, name) = rest.split_once(" ").unwrap_or((rest, ""));
    let number = answer.number_in(number);
    let Some(detail) = detail_in(name, answer) else {
        return;
    };
    if let Some(evidence) = evidence(answer) {
        say_done(answer, records.settle(number, detail, &evidence));
    }
}

/// `requeue NUMBER MOMENT` has a receipt sent again from that moment on.
fn requeue<K: Records>(records: &mut K, rest: &str, answer: &mut Answer) {
    let (number, moment) = rest.split_once(" ").unwrap_or((rest, ""));
    if let Some(moment) = moment_in(moment, answer) {
        let number = answer.number_in(number);
        say_done(answer, records.requeue_receipt(number, moment));
    }
}

/// `resend NUMBER MOMENT` has a document sent anew from that moment on.
fn resend<K: Records>(records: &mut K, rest: &str, answer: &mut Answer) {
    let (number, moment) = rest.split_once(" ").unwrap_or((rest, ""));
    if let Some(moment) = moment_in(moment, answer) {
        let number = answer.number_in(number);
        say_done(answer, records.resend(number, moment));
    }
}

/// Answers with what stands in a received document's head: its type, how a receipt was asked for, and the MIC; and with its outcome.
fn say_head(answer: &mut Answer, posted: &Posted) {
    answer.say_bytes(posted.content_type.as_slice());
    answer.say(", ");
    say_how(answer, &posted.how);
    answer.say(", ");
    say_mic(answer, &posted.mic);
    answer.say(", ");
    answer.say_small(&posted.outcome);
    answer.say(", ");
}

/// Answers with a received document: its number, its names, its identifier, when it came, what its head said, how its receipt stands,
/// and its content.
fn say_received(answer: &mut Answer, entry: &InEntry) {
    answer.say_number(entry.number);
    answer.say(" ");
    say_names(
        answer,
        entry.posted.sender.bytes(),
        entry.posted.receiver.bytes(),
    );
    answer.say(entry.posted.id.as_received());
    answer.say(" at ");
    answer.say_number(entry.moment.seconds());
    answer.say(", ");
    say_head(answer, &entry.posted);
    say_owed(answer, entry);
    answer.say(": ");
    say_content(answer, &entry.posted.content);
}

/// The same, where it is found.
fn say_found(answer: &mut Answer, found: Result<Option<InEntry>, StoreFault>) {
    if let Some(entry) = answer.unless_absent(found) {
        say_received(answer, &entry);
    }
}

/// By what a received document is found.
#[derive(Drop)]
struct Key {
    partner: AsName,
    organization: AsName,
    id: MessageId,
}

/// A document of a partner to Supplier, by an identifier.
fn key_in(rest: &str, answer: &mut Answer) -> Option<Key> {
    let (partner, id) = rest.split_once(" | ").unwrap_or((rest, ""));
    let Ok(partner) = AsName::plain(partner.as_bytes()) else {
        answer.lack("no partner");
        return None;
    };
    let organization = name_in("Supplier", answer)?;
    match MessageId::parse(answer.alloc(), id.as_bytes()) {
        Ok(id) => Some(Key {
            partner,
            organization,
            id,
        }),
        Err(_) => {
            answer.lack("no identifier");
            None
        }
    }
}

/// `received PARTNER | IDENTIFIER` finds a document of that partner to Supplier by the value of that identifier.
fn received<K: Records>(records: &mut K, rest: &str, answer: &mut Answer) {
    if let Some(key) = key_in(rest, answer) {
        let id = key.id.value();
        let found = records.find_in(answer.alloc(), &key.partner, &key.organization, id);
        say_found(answer, found);
    }
}

/// `received-number NUMBER` finds a received document.
fn received_number<K: Records>(records: &mut K, rest: &str, answer: &mut Answer) {
    let number = answer.number_in(rest);
    say_found(answer, records.find_in_number(answer.alloc(), number));
}

/// Answers with a number that was found.
fn say_number(answer: &mut Answer, found: Result<Option<u64>, StoreFault>) {
    if let Some(number) = answer.unless_absent(found) {
        answer.say_number(number);
    }
}

/// Answers with the least number of the documents, or of the receipts, that are due at a moment: `due-document MOMENT`; or
/// `due-document MOMENT | NUMBER`, behind that number.
fn due<K: Records>(records: &mut K, verb: &str, rest: &str, answer: &mut Answer) {
    let (moment, behind) = match rest.split_once(" | ") {
        Some((moment, number)) => (moment, Some(answer.number_in(number))),
        None => (rest, None),
    };
    let Some(moment) = moment_in(moment, answer) else {
        return;
    };
    if verb == "due-document" {
        say_number(answer, records.due_out(moment, behind));
    } else {
        say_number(answer, records.due_receipt(moment, behind));
    }
}

/// Answers to one of these verbs over the records.
fn call<K: Records>(records: &mut K, verb: &str, rest: &str, answer: &mut Answer) {
    match verb {
        "add" => add(records, rest, answer),
        "settle" => settle(records, rest, answer),
        "requeue" => requeue(records, rest, answer),
        "resend" => resend(records, rest, answer),
        "received" => received(records, rest, answer),
        "received-number" => received_number(records, rest, answer),
        _ => due(records, verb, rest, answer),
    }
}

/// Whether the verb is one of these.
fn is_known(verb: &str) -> bool {
    matches!(
        verb,
        "add"
            | "settle"
            | "requeue"
            | "resend"
            | "received"
            | "received-number"
            | "due-document"
            | "due-receipt"
    )
}

/// Answers to the verbs of calls of the records; whether it is one.
pub fn answer(stage: &mut Stage, verb: &str, rest: &str, answer: &mut Answer) -> bool {
    if !is_known(verb) {
        return false;
    }
    if let Some(mut records) = stage.played.take_records(&stage.settings, answer) {
        call(&mut records, verb, rest, answer);
        stage.played.put(records);
    }
    true
}
