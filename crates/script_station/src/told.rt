//! What is said to an event, as a line tells it.
use crate::made::{change, copied, made};
use as2_exchange::{Answer as Said, HttpAnswer, HttpBody, Job, StoreFault};
use as2_mdn::ReceiptOut;
use script_lines::{Answer, Settings};

/// The MIC of a report and its digest, or `-`.
fn say_mic(answer: &mut Answer, out: &ReceiptOut) {
    match &out.mic {
        Some(mic) => {
            answer.say_bytes(mic.text.bytes());
            answer.say(", ");
            answer.say(mic.digest.name());
        }
        None => answer.say("-"),
    }
}

/// Puts the MIC of a report into the text of reports: the line of it that tells the MIC is left out where the report has none.
fn put_mic(text: &mut String, out: &ReceiptOut, answer: &mut Answer) {
    if out.mic.is_none() {
        change(text, "Received-content-MIC: @mic\\r\\n", "", answer);
        return;
    }
    let mut mic = Answer::new(answer.alloc());
    say_mic(&mut mic, out);
    change(text, "@mic", answer.text_of(mic.bytes.as_slice()), answer);
}

/// Puts what a report says into the text of reports.
fn put_report(text: &mut String, out: &ReceiptOut, answer: &mut Answer) {
    let number = made(out.number.to_string(answer.alloc()), answer);
    change(text, "@number", number.as_str(), answer);
    change(
        text,
        "@organization",
        answer.text_of(out.from.bytes()),
        answer,
    );
    change(text, "@outcome", out.outcome.text(), answer);
    change(text, "@id", out.original_id.as_received(), answer);
    put_mic(text, out, answer);
}

/// Whether the bytes of a report are those of the text `report-text`.
fn is_by_text(settings: &Settings, answer: &mut Answer, out: &ReceiptOut, bytes: &[u8]) -> bool {
    let Some(text) = settings.text("report-text") else {
        answer.lack("no text report-text");
        return false;
    };
    let mut text = copied(text, answer);
    put_report(&mut text, out, answer);
    answer.bytes_of(text.as_str()).as_slice() == bytes
}

/// Whom a report is from and to.
fn say_names(answer: &mut Answer, out: &ReceiptOut) {
    answer.say("> from ");
    answer.say_bytes(out.from.bytes());
    answer.say(" to ");
    answer.say_bytes(out.to.bytes());
    answer.say(" on ");
}

/// What a report says, if its bytes are those of the text of reports.
fn say_report(settings: &Settings, answer: &mut Answer, out: &ReceiptOut, bytes: &[u8]) {
    if !is_by_text(settings, answer, out, bytes) {
        answer.say("a report of other bytes");
        return;
    }
    answer.say("report <mdn-");
    answer.say_number(out.number);
    answer.say("@");
    answer.say_bytes(out.domain.bytes());
    say_names(answer, out);
    answer.say(out.original_id.as_received());
    answer.say(": ");
    answer.say(out.outcome.text());
    answer.say("; ");
    say_mic(answer, out);
}

fn say_http(settings: &Settings, answer: &mut Answer, said: &HttpAnswer) {
    answer.say_number(u64::from(said.status));
    match &said.body {
        HttpBody::Nothing => {}
        HttpBody::Words(line) => {
            answer.say(" ");
            answer.say(line.text());
        }
        HttpBody::Report { out, bytes } => {
            answer.say(" ");
            say_report(settings, answer, out, bytes.as_slice());
        }
    }
}

/// A request that is to be sent: its address and its bytes.
pub(crate) fn say_job(answer: &mut Answer, job: &Job) {
    answer.say("job ");
    answer.say_bytes(job.authority.as_slice());
    answer.say("\r\n");
    answer.say_bytes(job.bytes.as_slice());
}

/// An answer that is a word, or a word and what it says.
fn say_words(answer: &mut Answer, said: &Said) {
    match said {
        Said::Submitted(number) => {
            answer.say("submitted ");
            answer.say_number(*number);
        }
        Said::Settled(detail) => {
            answer.say("settled ");
            answer.say(detail.name());
        }
        Said::Ticked(count) => {
            answer.say("ticked ");
            answer.say_number(*count);
        }
        Said::Refused(reason) => {
            answer.say("refused ");
            answer.say_name(reason);
        }
        Said::Delivered => answer.say("delivered"),
        Said::TryFailed => answer.say("try failed"),
        Said::Resent => answer.say("resent"),
        _ => answer.say("already settled"),
    }
}

/// What is said to an event.
pub fn say(settings: &Settings, answer: &mut Answer, said: &Result<Said, StoreFault>) {
    match said {
        Err(fault) => answer.say_fault(fault),
        Ok(Said::Http(said)) => say_http(settings, answer, said),
        Ok(Said::Job(job)) => say_job(answer, job),
        Ok(said) => say_words(answer, said),
    }
}

/// Answers with the bytes of the report that is said to a post.
pub fn say_report_bytes(answer: &mut Answer, said: &Result<Said, StoreFault>) {
    match said {
        Ok(
            Said::Http(
                HttpAnswer {
                    body: HttpBody::Report { bytes, .. },
                    ..
                },
            ),
        ) => answer.say_bytes(bytes.as_slice()),
        _ => answer.lack("no report"),
    }
}
