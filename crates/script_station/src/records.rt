//! How documents, receipts and what waits stand in the records.
use crate::stage::Stage;
use crate::station::state_in;
use as2_audit::{Unwatched, Verification, verify};
use as2_exchange::{Evidence, InEntry, OutEntry, StoreFault};
use as2_kept::Kept;
use as2_mdn::Detail;
use as2_mic::Pieces;
use as2_records::{InRow, NextNumbers, OutRow, Records};
use script_lines::Answer;

/// Answers with the moment when something is due, or `-`.
fn say_due(answer: &mut Answer, due: Option<u64>) {
    answer.say(", due ");
    match due {
        Some(due) => answer.say_number(due),
        None => answer.say("-"),
    }
}

/// Answers with a number of tries.
fn say_tries(answer: &mut Answer, tries: u64) {
    answer.say(", tries ");
    answer.say_number(tries);
    answer.say(", ");
}

/// Answers with a detail and its state.
fn say_detail(answer: &mut Answer, detail: Detail) {
    answer.say(detail.name());
    answer.say(" ");
    answer.say_name(&detail.class());
}

/// How a document to a partner stands: its detail and state, its tries, whether one is open, when it is due, and whether a receipt
/// has settled it.
fn say_document(answer: &mut Answer, document: &OutEntry) {
    say_detail(answer, document.detail);
    say_tries(answer, document.tries);
    answer.say_small(&document.attempt);
    say_due(answer, document.due);
    answer.say(if document.evidence.is_some() {
        ", receipt"
    } else {
        ", no receipt"
    });
}

/// How the receipt of a received document stands.
pub fn say_owed(answer: &mut Answer, entry: &InEntry) {
    answer.say_small(&entry.receipt_stage);
    say_tries(answer, entry.tries);
    answer.say_small(&entry.attempt);
    say_due(answer, entry.due);
}

/// Answers with a content.
pub fn say_content(answer: &mut Answer, content: &Pieces) {
    for at in 0..content.count() {
        answer.say_bytes(content.piece(at).unwrap_or(b""));
    }
}

/// Answers with the receipt that settled a document: its moment, its type and its bytes.
fn say_evidence(answer: &mut Answer, evidence: &Evidence) {
    answer.say_number(evidence.moment.seconds());
    answer.say(" ");
    answer.say_bytes(evidence.content_type.as_slice());
    answer.say("\r\n");
    say_content(answer, &evidence.body);
}

/// Answers with whom an entry is from and to.
pub fn say_names(answer: &mut Answer, from: &[u8], to: &[u8]) {
    answer.say_bytes(from);
    answer.say(" -> ");
    answer.say_bytes(to);
    answer.say(" ");
}

/// Answers with a document's number, its names, its identifier, its content and its moment.
fn say_submitted(answer: &mut Answer, document: &OutEntry) {
    answer.say_number(document.number);
    answer.say(" ");
    say_names(
        answer,
        document.organization.bytes(),
        document.partner.bytes(),
    );
    answer.say(document.id.as_received());
    answer.say(" at ");
    answer.say_number(document.moment.seconds());
    answer.say(": ");
    say_content(answer, &document.content);
}

/// Answers with what stands between things that are told in turn: nothing before the first.
pub fn say_between(answer: &mut Answer, at: usize, between: &str) {
    if at > 0 {
        answer.say(between);
    }
}

/// Answers with how long a content is and when it came.
fn say_size(answer: &mut Answer, length: u64, seconds: u64) {
    answer.say(", ");
    answer.say_number(length);
    answer.say(" bytes at ");
    answer.say_number(seconds);
    answer.say(", ");
}

/// Answers with the row of a received document.
fn say_in_row(answer: &mut Answer, row: &InRow) {
    answer.say_number(row.number);
    answer.say(" ");
    say_names(answer, row.sender.bytes(), row.receiver.bytes());
    answer.say(row.id.as_received());
    say_size(answer, row.length, row.moment.seconds());
    answer.say_small(&row.outcome);
    answer.say(", ");
    answer.say_small(&row.receipt_stage);
    say_tries(answer, row.tries);
    answer.say_small(&row.attempt);
    say_due(answer, row.due);
}

/// Answers with the row of a document to a partner.
fn say_out_row(answer: &mut Answer, row: &OutRow) {
    answer.say_number(row.number);
    answer.say(" ");
    say_names(answer, row.organization.bytes(), row.partner.bytes());
    answer.say(row.id.as_received());
    say_size(answer, row.length, row.moment.seconds());
    say_detail(answer, row.detail);
    say_tries(answer, row.tries);
    answer.say_small(&row.attempt);
    say_due(answer, row.due);
}

/// Answers with the numbers of the received documents, and how the receipt of each stands.
fn say_inbox(answer: &mut Answer, listed: Result<Vec<InRow>, StoreFault>) {
    let Some(rows) = answer.unless_fault(listed) else {
        return;
    };
    for (at, row) in rows.iter().enumerate() {
        say_between(answer, at, ", ");
        answer.say_number(row.number);
        answer.say(" ");
        answer.say_small(&row.receipt_stage);
    }
}

/// Answers with the row of each received document, without its content.
fn say_inbox_rows(answer: &mut Answer, listed: Result<Vec<InRow>, StoreFault>) {
    let Some(rows) = answer.unless_fault(listed) else {
        return;
    };
    for (at, row) in rows.iter().enumerate() {
        say_between(answer, at, "; ");
        say_in_row(answer, row);
    }
}

/// Answers with the numbers of documents to partners.
fn say_outbox(answer: &mut Answer, listed: Result<Vec<OutRow>, StoreFault>) {
    let Some(rows) = answer.unless_fault(listed) else {
        return;
    };
    for (at, row) in rows.iter().enumerate() {
        say_between(answer, at, ", ");
        answer.say_number(row.number);
    }
}

/// Answers with the row of each document to a partner, without its content.
fn say_outbox_rows(answer: &mut Answer, listed: Result<Vec<OutRow>, StoreFault>) {
    let Some(rows) = answer.unless_fault(listed) else {
        return;
    };
    for (at, row) in rows.iter().enumerate() {
        say_between(answer, at, "; ");
        say_out_row(answer, row);
    }
}

/// Answers with the next number of a receipt and that of a document.
fn say_numbers(answer: &mut Answer, next: Result<NextNumbers, StoreFault>) {
    if let Some(next) = answer.unless_fault(next) {
        answer.say_number(next.receipt);
        answer.say(" ");
        answer.say_number(next.document);
    }
}

/// Answers with numbers, with that between them.
fn say_each(answer: &mut Answer, numbers: &[u64], between: &str) {
    for (at, number) in numbers.iter().enumerate() {
        say_between(answer, at, between);
        answer.say_number(*number);
    }
}

/// Answers with the numbers of the documents that a receipt has settled.
fn say_settled(answer: &mut Answer, settled: Result<Vec<u64>, StoreFault>) {
    if let Some(numbers) = answer.unless_fault(settled) {
        say_each(answer, numbers.as_slice(), ", ");
    }
}

/// Answers with the receipt that settled a document, where there is one.
fn say_settling(answer: &mut Answer, found: Result<Option<Evidence>, StoreFault>) {
    if let Some(evidence) = answer.unless_absent(found) {
        say_evidence(answer, &evidence);
    }
}

/// Answers with how the receipt of a received document stands, where it is found.
fn say_receipt(answer: &mut Answer, found: Result<Option<InEntry>, StoreFault>) {
    if let Some(entry) = answer.unless_absent(found) {
        say_owed(answer, &entry);
    }
}

/// Answers with a document to a partner, whole or how it stands, where it is found.
fn say_found(answer: &mut Answer, found: Result<Option<OutEntry>, StoreFault>, is_whole: bool) {
    let Some(document) = answer.unless_absent(found) else {
        return;
    };
    if is_whole {
        say_submitted(answer, &document);
    } else {
        say_document(answer, &document);
    }
}

/// Answers whether a try of a document to a partner ever began, where it is found.
fn say_begun(answer: &mut Answer, found: Result<Option<OutEntry>, StoreFault>) {
    if let Some(document) = answer.unless_absent(found) {
        answer.say_whether(document.begun);
    }
}

/// Answers with the number below which receipts were recorded by the first version of the tables.
fn say_origin(answer: &mut Answer, origin: Result<u64, StoreFault>) {
    if let Some(number) = answer.unless_fault(origin) {
        answer.say_number(number);
    }
}

/// Answers with what a look through the records finds.
fn say_verified(answer: &mut Answer, came: Result<Verification, StoreFault>) {
    if let Some(verification) = answer.unless_fault(came) {
        answer.say_bytes(verification.text.as_slice());
    }
}

/// What is asked of the records.
#[derive(Clone, Copy)]
enum Asked {
    Numbers,
    Origin,
    Counts,
    Settled,
    Inbox,
    InboxRows,
    Outbox,
    OutboxRows,
    Identified,
    IdentifiedWhole,
    Document,
    Submitted,
    Begun,
    Receipt,
    Verified,
}

/// What a verb asks.
fn asked_by(verb: &str) -> Option<Asked> {
    match verb {
        "numbers" => Some(Asked::Numbers),
        "origin" => Some(Asked::Origin),
        "counts" => Some(Asked::Counts),
        "settled" => Some(Asked::Settled),
        "inbox" => Some(Asked::Inbox),
        "inbox-rows" => Some(Asked::InboxRows),
        "outbox" => Some(Asked::Outbox),
        "outbox-rows" => Some(Asked::OutboxRows),
        "identified" => Some(Asked::Identified),
        "identified-whole" => Some(Asked::IdentifiedWhole),
        "document" => Some(Asked::Document),
        "submitted" => Some(Asked::Submitted),
        "begun" => Some(Asked::Begun),
        "receipt" => Some(Asked::Receipt),
        "verified" => Some(Asked::Verified),
        _ => None,
    }
}

/// Answers with the five counts of what is outstanding, in the order in which a station shows them.
fn look_at_counts<K: Records>(records: &mut K, answer: &mut Answer) {
    if let Some(counts) = answer.unless_fault(records.counts(answer.alloc())) {
        let counts = [
            counts.not_sent,
            counts.in_retry,
            counts.awaited,
            counts.in_error,
            counts.to_send,
        ];
        say_each(answer, &counts, " ");
    }
}

/// Answers with the numbers of the documents to partners, of that state or of all.
fn look_out<K: Records>(records: &mut K, letter: &str, answer: &mut Answer) {
    let state = match letter {
        "" => None,
        letter => state_in(letter, answer),
    };
    say_outbox(answer, records.list_out(answer.alloc(), state));
}

/// Answers with what is asked of that number.
fn look_at<K: Records>(records: &mut K, asked: Asked, number: u64, answer: &mut Answer) {
    let alloc = answer.alloc();
    match asked {
        Asked::Receipt => say_receipt(answer, records.find_in_number(alloc, number)),
        Asked::Submitted => say_found(answer, records.find_out(alloc, number), true),
        Asked::Begun => say_begun(answer, records.find_out(alloc, number)),
        _ => say_found(answer, records.find_out(alloc, number), false),
    }
}

/// Answers with what is asked.
fn look<K: Records>(records: &mut K, asked: Asked, rest: &str, answer: &mut Answer) {
    let alloc = answer.alloc();
    match asked {
        Asked::Numbers => say_numbers(answer, records.next_numbers()),
        Asked::Origin => say_origin(answer, records.origin()),
        Asked::Counts => look_at_counts(records, answer),
        Asked::Settled => say_settled(answer, records.settled(alloc)),
        Asked::Verified => say_verified(answer, verify(records, alloc, &mut Unwatched)),
        Asked::Inbox => say_inbox(answer, records.list_in(alloc)),
        Asked::InboxRows => say_inbox_rows(answer, records.list_in(alloc)),
        Asked::Outbox => look_out(records, rest, answer),
        Asked::OutboxRows => say_outbox_rows(answer, records.list_out(alloc, None)),
        Asked::Identified => {
            say_found(
                answer,
                records.find_out_by_id(alloc, rest.as_bytes()),
                false,
            );
        }
        Asked::IdentifiedWhole => {
            say_found(answer, records.find_out_by_id(alloc, rest.as_bytes()), true);
        }
        _ => look_at(records, asked, answer.number_in(rest), answer),
    }
}

/// Answers with the evidence of the document of that number, as the store alone tells it.
fn look_at_evidence(stage: &mut Stage, rest: &str, answer: &mut Answer) {
    let Some(records) = stage.played.take_records(&stage.settings, answer) else {
        return;
    };
    let mut store = records.into_store();
    let number = answer.number_in(rest);
    say_settling(answer, store.evidence(answer.alloc(), number));
    stage.played.put(Kept::new(store));
}

/// Answers to the verbs of records; whether it is one.
pub fn answer(stage: &mut Stage, verb: &str, rest: &str, answer: &mut Answer) -> bool {
    if verb == "evidence" {
        look_at_evidence(stage, rest, answer);
        return true;
    }
    let Some(asked) = asked_by(verb) else {
        return false;
    };
    if let Some(mut records) = stage.played.take_records(&stage.settings, answer) {
        look(&mut records, asked, rest, answer);
        stage.played.put(records);
    }
    true
}
