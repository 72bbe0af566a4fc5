//! Rows of the station's tables, made of values.
use crate::arguments::{Arguments, parts_of};
use crate::told::{attempt_word, receipt_stage_word, say_due};
use as2_exchange::{Address, Attempt, Evidence, InEntry, OutEntry, ReceiptDelivery};
use as2_mdn::ReceiptMic;
use as2_mic::{Alg, MicText, Pieces};
use as2_records::{InRow, OutRow};
use as2_rows::{
    EvidenceRow, RowFault, attempt_code, attempt_of_code, content_in, detail_code, detail_of_code,
    digest_of, how_code, mic_of, outcome_code, outcome_of_code, read_in_row, read_out_row,
    receipt_stage_code, receipt_stage_of_code, url_of,
};
use as2_text::{AsName, MessageId, Moment, Url};
use script_lines::{Answer, Trouble};
use sqlite::Row;
use sqlite::types::ValueRef;
use sqlite_exec::work::FromRow;
use sqlite_value::row::Row as Values;

/// The whole number that a word spells.
fn integer_in(word: &str, answer: &mut Answer) -> i64 {
    match word.parse::<i64>() {
        Ok(number) => number,
        Err(_) => {
            answer.lack("no whole number");
            0
        }
    }
}

/// The number that a word spells.
fn real_in(word: &str, answer: &mut Answer) -> f64 {
    match word.parse::<f64>() {
        Ok(number) => number,
        Err(_) => {
            answer.lack("no number");
            0.0
        }
    }
}

/// Adds a value.
fn add(values: &mut Values, value: ValueRef<'_>, answer: &mut Answer) {
    let pushed = values.push(value);
    answer.unless_memory(pushed);
}

/// Adds a value that is a text.
fn add_text(values: &mut Values, text: &str, answer: &mut Answer) {
    let bytes = answer.bytes_of(text);
    add(values, ValueRef::Text(bytes.as_slice()), answer);
}

/// Adds a value that is bytes.
fn add_blob(values: &mut Values, text: &str, answer: &mut Answer) {
    let bytes = answer.bytes_of(text);
    add(values, ValueRef::Blob(bytes.as_slice()), answer);
}

/// Adds the value that a word spells: `null`, `int N`, `real N`, `text TEXT` or `blob TEXT`.
fn add_value(values: &mut Values, word: &str, answer: &mut Answer) {
    let (kind, text) = word.split_once(" ").unwrap_or((word, ""));
    match kind {
        "null" => add(values, ValueRef::Null, answer),
        "int" => add(values, ValueRef::Int(integer_in(text, answer)), answer),
        "real" => add(values, ValueRef::Real(real_in(text, answer)), answer),
        "text" => add_text(values, text, answer),
        "blob" => add_blob(values, text, answer),
        _ => answer.lack("no value"),
    }
}

/// The row that shows the values of these words, as a query hands it over.
fn row_with(words: &[&str], answer: &mut Answer) -> Option<Row> {
    let mut values = Values::new(answer.alloc());
    for word in words {
        add_value(&mut values, word, answer);
    }
    answer.unless_memory(Row::from_row(answer.alloc(), &values))
}

/// The row that shows these values.
fn row_of(text: &str, answer: &mut Answer) -> Option<Row> {
    let words = parts_of(text, " | ", answer);
    row_with(words.as_slice(), answer)
}

/// The row that shows these values, but in the column of that number, from 0, another one.
fn row_but<'a>(text: &'a str, column: usize, other: &'a str, answer: &mut Answer) -> Option<Row> {
    let mut words = parts_of(text, " | ", answer);
    if let Some(word) = words.get_mut(column) {
        *word = other;
    }
    row_with(words.as_slice(), answer)
}

/// The row that `VALUES` describes, or `VALUES || COLUMN VALUE`, with another value in a column.
fn row_in(text: &str, answer: &mut Answer) -> Option<Row> {
    let Some((values, other)) = text.split_once(" || ") else {
        return row_of(text, answer);
    };
    let (column, other) = answer.cut(other, " ", "no column and value");
    let column = answer.length_in(column);
    row_but(values, column, other, answer)
}

/// Answers that a row is none that an entry is written as, unless memory ran out.
fn say_fault(answer: &mut Answer, fault: RowFault) {
    match fault {
        RowFault::Memory => answer.fail(Trouble::Memory),
        RowFault::NotAnEntry => answer.say_fault(&fault),
    }
}

/// What a row is read as, which has to be that of an entry.
fn entry_of<T: Drop>(
    read: Result<T, RowFault>,
    lacks: &'static str,
    answer: &mut Answer,
) -> Option<T> {
    match read {
        Ok(entry) => Some(entry),
        Err(RowFault::Memory) => {
            answer.fail(Trouble::Memory);
            None
        }
        Err(RowFault::NotAnEntry) => {
            answer.lack(lacks);
            None
        }
    }
}

/// Answers with the two values of how a receipt is asked for.
fn say_how(answer: &mut Answer, how: &ReceiptDelivery) {
    answer.say_made(how_code(how).to_string(answer.alloc()));
    answer.say(", ");
    answer.say_bytes(url_of(how).unwrap_or(b"nothing"));
}

/// Answers with the two values of a MIC.
fn say_mic(answer: &mut Answer, mic: &Option<ReceiptMic>) {
    answer.say(digest_of(mic).unwrap_or("nothing"));
    answer.say(", ");
    answer.say_bytes(mic_of(mic).unwrap_or(b"nothing"));
}

/// Answers with the number, names and identifier of an entry.
fn say_names(answer: &mut Answer, number: u64, from: &AsName, to: &AsName, id: &MessageId) {
    answer.say_number(number);
    answer.say(": ");
    answer.say_bytes(from.bytes());
    answer.say(" -> ");
    answer.say_bytes(to.bytes());
    answer.say(", ");
    answer.say(id.as_received());
}

/// Answers with how many bytes there are, and the moment.
fn say_size(answer: &mut Answer, length: u64, moment: Moment) {
    answer.say(", ");
    answer.say_number(length);
    answer.say(" bytes, at ");
    answer.say_number(moment.seconds());
}

/// Answers with how what is tried stands.
fn say_tries(answer: &mut Answer, state: &str, tries: u64, attempt: Attempt, due: Option<u64>) {
    answer.say(state);
    answer.say(", ");
    answer.say_number(tries);
    answer.say(" tries, ");
    answer.say(attempt_word(attempt));
    say_due(answer, due);
    answer.say("\n")
}

/// Answers with a row of the inbox.
fn say_in_row(answer: &mut Answer, row: &InRow) {
    say_names(answer, row.number, &row.sender, &row.receiver, &row.id);
    answer.say(", ");
    answer.say_bytes(row.content_type.as_slice());
    say_size(answer, row.length, row.moment);
    answer.say("\n");
    answer.say(row.outcome.text());
    answer.say("; receipt ");
    say_how(answer, &row.how);
    answer.say("; MIC ");
    say_mic(answer, &row.mic);
    answer.say("\nreceipt ");
    let state = receipt_stage_word(row.receipt_stage);
    say_tries(answer, state, row.tries, row.attempt, row.due)
}

/// `read-received VALUES`: what a row of the inbox is read as.
fn read_received(rest: &str, answer: &mut Answer) {
    let Some(row) = row_in(rest, answer) else {
        return;
    };
    match read_in_row(answer.alloc(), &row) {
        Ok(row) => say_in_row(answer, &row),
        Err(fault) => say_fault(answer, fault),
    }
}

/// Answers with a row of the outbox.
fn say_out_row(answer: &mut Answer, row: &OutRow) {
    say_names(answer, row.number, &row.organization, &row.partner, &row.id);
    say_size(answer, row.length, row.moment);
    answer.say("\n");
    let state = row.detail.name();
    say_tries(answer, state, row.tries, row.attempt, row.due)
}

/// `read-sent VALUES`: what a row of the outbox is read as.
fn read_sent(rest: &str, answer: &mut Answer) {
    if let Some(row) = row_in(rest, answer) {
        match read_out_row(answer.alloc(), &row) {
            Ok(row) => say_out_row(answer, &row),
            Err(fault) => say_fault(answer, fault),
        }
    }
}

/// Answers with the receipt that settled a document.
fn say_evidence(answer: &mut Answer, row: &EvidenceRow) {
    answer.say_number(row.number);
    answer.say(": ");
    answer.say_bytes(row.evidence.content_type.as_slice());
    let length = row.evidence.body.len() as u64;
    say_size(answer, length, row.evidence.moment)
}

/// `read-evidence VALUES`: what a row of the receipts that settled documents is read as.
fn read_evidence(rest: &str, answer: &mut Answer) {
    let Some(row) = row_in(rest, answer) else {
        return;
    };
    match EvidenceRow::read(answer.alloc(), &row) {
        Ok(row) => say_evidence(answer, &row),
        Err(fault) => say_fault(answer, fault),
    }
}

/// The row of the inbox that these values are read as.
pub fn in_row(text: &str, answer: &mut Answer) -> Option<InRow> {
    let row = row_of(text, answer)?;
    let read = read_in_row(answer.alloc(), &row);
    entry_of(read, "no row of an entry", answer)
}

/// The row of the outbox that these values are read as.
pub fn out_row(text: &str, answer: &mut Answer) -> Option<OutRow> {
    let row = row_of(text, answer)?;
    let read = read_out_row(answer.alloc(), &row);
    entry_of(read, "no row of a document", answer)
}

/// The receipt that these values are read as.
pub fn evidence_in(text: &str, answer: &mut Answer) -> Option<Evidence> {
    let row = row_of(text, answer)?;
    let read = EvidenceRow::read(answer.alloc(), &row);
    let row = entry_of(read, "no row of a receipt", answer)?;
    Some(row.evidence)
}

/// Answers with an entry of the inbox.
fn say_in_entry(answer: &mut Answer, entry: &InEntry) {
    answer.say_number(entry.number);
    answer.say(": ");
    answer.say_number(entry.posted.content.len() as u64);
    answer.say(" bytes, ");
    answer.say(entry.posted.id.value());
    say_due(answer, entry.due);
}

/// `received-entry VALUES || CONTENT`: the entry of a row and that content.
fn received_entry(rest: &str, answer: &mut Answer) {
    let mut parts = Arguments::of(rest);
    let values = parts.part();
    let content = parts.content(answer);
    if let Some(row) = in_row(values, answer) {
        say_in_entry(answer, &row.with_content(content));
    }
}

/// Answers with an entry of the outbox.
fn say_out_entry(answer: &mut Answer, entry: &OutEntry) {
    answer.say_number(entry.number);
    answer.say(": ");
    answer.say_number(entry.content.len() as u64);
    answer.say(if entry.evidence.is_some() {
        " bytes, with a receipt"
    } else {
        " bytes, without a receipt"
    });
}

/// The document of a row, with a content and a receipt. It was begun where it was tried.
pub fn document_of(row: OutRow, content: Pieces, evidence: Option<Evidence>) -> OutEntry {
    let begun = row.tries >= 1;
    row.with_content(begun, content, evidence)
}

/// `sent-entry VALUES || CONTENT`: the entry of a row and that content, without a receipt.
fn sent_entry(rest: &str, answer: &mut Answer) {
    let mut parts = Arguments::of(rest);
    let values = parts.part();
    let content = parts.content(answer);
    if let Some(row) = out_row(values, answer) {
        say_out_entry(answer, &document_of(row, content, None));
    }
}

/// Answers with the length of a content, its number of pieces, and the last of these.
fn say_pieces(answer: &mut Answer, content: &Pieces) {
    let count = content.count();
    answer.say_number(content.len() as u64);
    answer.say(" bytes in ");
    answer.say_number(count as u64);
    answer.say(" pieces");
    if let Some(piece) = content.piece(count.saturating_sub(1)) {
        answer.say(", the last ");
        answer.say_bytes(piece);
    }
}

/// Adds the row that shows these values.
fn add_row(rows: &mut Vec<Row>, text: &str, answer: &mut Answer) {
    if let Some(row) = row_of(text, answer) {
        let pushed = rows.push(row);
        answer.unless_memory(pushed);
    }
}

/// The rows that show these values.
fn rows_in(texts: &[&str], answer: &mut Answer) -> Vec<Row> {
    let mut rows = Vec::new(answer.alloc());
    for text in texts {
        add_row(&mut rows, text, answer);
    }
    rows
}

/// Answers with the content of entry 1, of that size, whose pieces have these rows.
fn say_joined(answer: &mut Answer, rows: &[Row], size: u64) {
    match content_in(answer.alloc(), rows, 1, size) {
        Ok(content) => say_pieces(answer, &content),
        Err(fault) => say_fault(answer, fault),
    }
}

/// `join-pieces SIZE || VALUES || ..`: the content of entry 1, of that size, whose pieces have these rows.
fn join_pieces(rest: &str, answer: &mut Answer) {
    let parts = parts_of(rest, " || ", answer);
    if let Some((size, texts)) = parts.as_slice().split_first() {
        let size = answer.number_in(size);
        let rows = rows_in(texts, answer);
        say_joined(answer, rows.as_slice(), size);
    }
}

/// What a code in a column stands for, and its code; None where it is no code.
fn meaning(column: &str, code: i64, answer: &mut Answer) -> Option<(&'static str, i64)> {
    match column {
        "outcome" => outcome_of_code(code).map(|x| (x.text(), outcome_code(x))),
        "detail" => detail_of_code(code).map(|x| (x.name(), detail_code(x))),
        "receipt" => receipt_stage_of_code(code).map(|x| (
            receipt_stage_word(x),
            receipt_stage_code(x),
        )),
        "attempt" => attempt_of_code(code).map(|x| (attempt_word(x), attempt_code(x))),
        _ => {
            answer.lack("no column of codes");
            None
        }
    }
}

/// `code COLUMN CODE`: what a code of that column stands for, and the code of that.
fn say_code(rest: &str, answer: &mut Answer) {
    let (column, code) = answer.cut(rest, " ", "no column and code");
    let code = integer_in(code, answer);
    match meaning(column, code, answer) {
        Some((name, code)) => {
            answer.say(name);
            answer.say(", ");
            answer.say_made(code.to_string(answer.alloc()));
        }
        None => answer.say("nothing"),
    }
}

/// How a receipt is asked for at that address.
fn later_in(word: &str, answer: &mut Answer) -> Option<ReceiptDelivery> {
    if Url::parse(word.as_bytes()).is_none() {
        answer.lack("no address");
        return None;
    }
    match Address::keep(answer.alloc(), word.as_bytes()) {
        Ok(address) => Some(ReceiptDelivery::Async(address)),
        Err(_) => {
            answer.fail(Trouble::Memory);
            None
        }
    }
}

/// `receipt-values HOW`: the code and the address of how a receipt is asked for, `no receipt`, `at once` or an address.
fn say_how_values(rest: &str, answer: &mut Answer) {
    let how = match rest {
        "no receipt" => Some(ReceiptDelivery::NoReceipt),
        "at once" => Some(ReceiptDelivery::Sync),
        _ => later_in(rest, answer),
    };
    if let Some(how) = how {
        say_how(answer, &how);
    }
}

/// The MIC of that digest and text; none where it is `nothing`.
fn mic_in(word: &str, answer: &mut Answer) -> Option<ReceiptMic> {
    let (digest, text) = word.split_once(" ")?;
    match (Alg::named(digest.as_bytes()), MicText::of(text.as_bytes())) {
        (Some(digest), Some(text)) => Some(ReceiptMic { digest, text }),
        _ => {
            answer.lack("no MIC");
            None
        }
    }
}

/// `mic-values DIGEST TEXT` or `mic-values nothing`: the name of the digest, and the text.
fn say_mic_values(rest: &str, answer: &mut Answer) {
    let mic = mic_in(rest, answer);
    say_mic(answer, &mic);
}

/// Answers to the verbs of values; whether it is one.
fn answer_values(verb: &str, rest: &str, answer: &mut Answer) -> bool {
    match verb {
        "code" => say_code(rest, answer),
        "receipt-values" => say_how_values(rest, answer),
        "mic-values" => say_mic_values(rest, answer),
        _ => return false,
    }
    true
}

/// Answers to the verbs of rows; whether it is one.
pub fn answer(verb: &str, rest: &str, answer: &mut Answer) -> bool {
    match verb {
        "read-received" => read_received(rest, answer),
        "read-sent" => read_sent(rest, answer),
        "read-evidence" => read_evidence(rest, answer),
        "received-entry" => received_entry(rest, answer),
        "sent-entry" => sent_entry(rest, answer),
        "join-pieces" => join_pieces(rest, answer),
        _ => return answer_values(verb, rest, answer),
    }
    true
}
