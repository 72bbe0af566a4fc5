//! A line for each try, for whoever looks on.

use as2_exchange::{Next, Refusal, StoreFault};
use as2_front::Log;
use as2_live::EndedTry;
use as2_sending::{is_hinted, line};
use as2_station::Became;
use std::alloc::Global;

/// What is said of a try whose outcome is not recorded: a receipt was asked for again by a repeat of its post, or a document was sent again by
/// `resend`, while the last try was still open. It is due anew.
const QUEUED_AGAIN: &str = "queued again meanwhile";

/// The name of what is tried.
fn subject(alloc: Global, what: Next) -> String {
    let text = match what {
        Next::Receipt(number) => format!(in alloc; "receipt {number}"),
        Next::Document(number) => format!(in alloc; "document {number}"),
    };
    text.unwrap_or(String::new(alloc))
}

/// The name of a reason.
fn reason_name(reason: Refusal) -> &'static str {
    match reason {
        Refusal::UnknownOrganization => "UnknownOrganization",
        Refusal::UnknownPartner => "UnknownPartner",
        Refusal::NoSuchNumber => "NoSuchNumber",
        Refusal::NotDue => "NotDue",
        Refusal::AllSettled => "AllSettled",
        Refusal::NoOpenTry => "NoOpenTry",
        Refusal::TriesUsed => "TriesUsed",
        Refusal::TooLarge => "TooLarge",
    }
}

/// Adds a line of what is tried, which says that.
fn note(log: &Log, alloc: Global, what: Next, says: &str) {
    let subject = subject(alloc, what);
    let subject = subject.as_str();
    if let Ok(line) = format!(in alloc; "sent {subject}: {says}") {
        log.add(line.as_str().as_bytes());
    }
}

/// A try was refused.
pub(crate) fn note_refused(log: &Log, alloc: Global, what: Next, reason: Refusal) {
    let name = reason_name(reason);
    if let Ok(says) = format!(in alloc; "refused: {name}") {
        note(log, alloc, what, says.as_str());
    }
}

/// The records failed.
pub(crate) fn note_failed(log: &Log, alloc: Global, what: Next, _fault: StoreFault) {
    note(log, alloc, what, "the store failed");
}

/// A receipt goes nowhere, since its address isn't among those that receipts may be sent to.
pub(crate) fn note_barred(log: &Log, alloc: Global, what: Next, authority: &str) {
    if let Ok(says) = format!(in alloc; "{authority} isn't among '--receipts-to'") {
        note(log, alloc, what, says.as_str());
    }
}

/// What became of a try, and why it failed, where it did.
fn note_became(log: &Log, alloc: Global, ended: &EndedTry, became: Became) {
    let line = line(ended.what, became);
    let mut text = Vec::new(alloc);
    let _ = text.extend_from_slice(b"sent ");
    let _ = text.extend_from_slice(line.as_str().as_bytes());
    let mut hints = Vec::new(alloc);
    if is_hinted(ended.what, became, ended.why, &mut hints) {
        let _ = text.extend_from_slice(&hints);
    }
    for line in text.split(|byte| *byte == b'\n') {
        if !line.is_empty() {
            log.add(line);
        }
    }
}

/// A try has ended.
pub(crate) fn note_ended(log: &Log, alloc: Global, ended: &EndedTry) {
    match ended.said {
        Ok(Ok(became)) => note_became(log, alloc, ended, became),
        Ok(Err(Refusal::NoOpenTry)) => note(log, alloc, ended.what, QUEUED_AGAIN),
        Ok(Err(reason)) => note_refused(log, alloc, ended.what, reason),
        Err(fault) => note_failed(log, alloc, ended.what, fault),
    }
}
