//! Listings, made of rows.
use crate::arguments::{Arguments, parts_of};
use crate::rows::{document_of, evidence_in, in_row, out_row};
use as2_exchange::OutEntry;
use as2_records::{Counts, InRow, OutRow};
use as2_views::{
    add_counts, add_document, add_in_line, add_in_lines, add_out_line, add_out_lines,
    keep_outstanding,
};
use script_lines::Answer;

/// `received-line ROW`: the line of a received document.
fn received_line(rest: &str, answer: &mut Answer) {
    if let Some(row) = in_row(rest, answer) {
        let added = add_in_line(&mut answer.bytes, &row);
        answer.unless_memory(added);
    }
}

/// Adds the row of a received document.
fn add_in_row(rows: &mut Vec<InRow>, text: &str, answer: &mut Answer) {
    if let Some(row) = in_row(text, answer) {
        let pushed = rows.push(row);
        answer.unless_memory(pushed);
    }
}

/// `list-received ROW || ..`: the lines of received documents.
fn list_received(rest: &str, answer: &mut Answer) {
    let mut rows = Vec::new(answer.alloc());
    for text in &parts_of(rest, " || ", answer) {
        add_in_row(&mut rows, text, answer);
    }
    let added = add_in_lines(&mut answer.bytes, rows.as_slice());
    answer.unless_memory(added);
}

/// `settled-line ROW`: the line of a document that is sent, which a receipt has settled.
fn settled_line(rest: &str, answer: &mut Answer) {
    if let Some(row) = out_row(rest, answer) {
        let added = add_out_line(&mut answer.bytes, &row, true);
        answer.unless_memory(added);
    }
}

/// Adds the row of a document that is sent.
fn add_out_row(rows: &mut Vec<OutRow>, text: &str, answer: &mut Answer) {
    if let Some(row) = out_row(text, answer) {
        let pushed = rows.push(row);
        answer.unless_memory(pushed);
    }
}

/// The rows that stand there, parted by ` || `.
fn out_rows(text: &str, answer: &mut Answer) -> Vec<OutRow> {
    let mut rows = Vec::new(answer.alloc());
    for text in &parts_of(text, " || ", answer) {
        add_out_row(&mut rows, text, answer);
    }
    rows
}

/// The numbers that stand there, parted by blanks.
fn numbers_in(text: &str, answer: &mut Answer) -> Vec<u64> {
    let mut numbers = Vec::new(answer.alloc());
    for word in &parts_of(text, " ", answer) {
        let pushed = numbers.push(answer.number_in(word));
        answer.unless_memory(pushed);
    }
    numbers
}

/// `list-sent NUMBER .. || ROW || ..`: the lines of documents that are sent, of which those with these numbers are settled.
fn list_sent(rest: &str, answer: &mut Answer) {
    let mut parts = Arguments::of(rest);
    let settled = numbers_in(parts.part(), answer);
    let rows = out_rows(parts.rest, answer);
    let added = add_out_lines(&mut answer.bytes, rows.as_slice(), settled.as_slice());
    answer.unless_memory(added);
}

/// `list-outstanding MOMENT || ROW || ..`: the lines of the documents that are outstanding at that moment, none of them settled.
fn list_outstanding(rest: &str, answer: &mut Answer) {
    let mut parts = Arguments::of(rest);
    let Some(moment) = Arguments::of(parts.part()).moment(answer) else {
        return;
    };
    let mut rows = out_rows(parts.rest, answer);
    keep_outstanding(&mut rows, moment);
    let added = add_out_lines(&mut answer.bytes, rows.as_slice(), &[]);
    answer.unless_memory(added);
}

/// `write-counts NOT-SENT | IN-RETRY | AWAITED | IN-ERROR | TO-SEND`: the lines of how much is outstanding.
fn say_counts(rest: &str, answer: &mut Answer) {
    let mut arguments = Arguments::of(rest);
    let counts = Counts {
        not_sent: arguments.number(answer),
        in_retry: arguments.number(answer),
        awaited: arguments.number(answer),
        in_error: arguments.number(answer),
        to_send: arguments.number(answer),
    };
    let added = add_counts(&mut answer.bytes, counts);
    answer.unless_memory(added);
}

/// Answers with a document in full.
fn say_document(answer: &mut Answer, document: &OutEntry) {
    let added = add_document(&mut answer.bytes, document);
    answer.unless_memory(added);
}

/// `write-document ROW || EVIDENCE || CONTENT`: the document of that row and content, which that receipt has settled, in full.
fn show(rest: &str, answer: &mut Answer) {
    let mut parts = Arguments::of(rest);
    let Some(row) = out_row(parts.part(), answer) else {
        return;
    };
    let evidence = evidence_in(parts.part(), answer);
    let content = Arguments::of(parts.part()).content(answer);
    say_document(answer, &document_of(row, content, evidence));
}

/// Answers to the verbs of listings; whether it is one.
pub fn answer(verb: &str, rest: &str, answer: &mut Answer) -> bool {
    match verb {
        "received-line" => received_line(rest, answer),
        "list-received" => list_received(rest, answer),
        "settled-line" => settled_line(rest, answer),
        "list-sent" => list_sent(rest, answer),
        "list-outstanding" => list_outstanding(rest, answer),
        "write-counts" => say_counts(rest, answer),
        "write-document" => show(rest, answer),
        _ => return false,
    }
    true
}
