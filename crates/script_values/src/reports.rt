//! Reports as they are read and written.
use crate::arguments::Arguments;
use crate::outcomes::outcome_in;
use as2_mdn::{
    MicPart, Receipt, ReceiptMic, ReceiptOut, read_report, write_head_fields, write_receipt,
};
use as2_mic::{Alg, Compared, mic_of};
use as2_text::{Domain, MediaType};
use script_lines::Answer;

/// What a receipt's MIC is, beside a content.
fn mic_word(mic: &MicPart<'_>, content: &[u8]) -> &'static str {
    match mic {
        MicPart::Missing => "no MIC",
        MicPart::Unreadable => "unreadable MIC",
        MicPart::Given(field) => match field.compare(content) {
            Compared::Same => "same MIC",
            Compared::Differs => "other MIC",
            Compared::UnknownAlg => "unknown digest",
        },
    }
}

/// Answers with what a receipt says.
fn say_receipt(answer: &mut Answer, receipt: &Receipt<'_>, content: &[u8]) {
    answer.say_bytes(receipt.original_id);
    answer.say(if receipt.disposition.is_processed() {
        ", processed, "
    } else {
        ", not processed, "
    });
    if receipt.disposition.modifier().is_some() {
        answer.say("modified, ");
    }
    answer.say(mic_word(&receipt.mic, content));
}

/// Answers with what a report of that type, and its MIC beside that content, is read as.
fn say_reading(answer: &mut Answer, media: &MediaType<'_>, body: &[u8], content: &[u8]) {
    match read_report(media, body) {
        Ok(receipt) => say_receipt(answer, &receipt, content),
        Err(fault) => answer.say_fault(&fault),
    }
}

/// The media type that is spelled so.
fn media_in<'a>(content_type: &'a [u8], answer: &mut Answer) -> Option<MediaType<'a>> {
    match MediaType::parse(content_type) {
        Ok(media) => Some(media),
        Err(_) => {
            answer.lack("no media type");
            None
        }
    }
}

/// `read-report TYPE | BODY | CONTENT`: the document that it is of, whether it was processed, and whether the MIC is that of the
/// content.
fn say_whole_reading(rest: &str, answer: &mut Answer) {
    let mut arguments = Arguments::of(rest);
    let content_type = arguments.bytes(answer);
    let body = arguments.bytes(answer);
    let content = arguments.bytes(answer);
    if let Some(media) = media_in(content_type.as_slice(), answer) {
        say_reading(answer, &media, body.as_slice(), content.as_slice());
    }
}

/// Answers with a line for what is read of so many bytes, where it is another than what is read of one byte less.
fn say_change(answer: &mut Answer, length: usize, read: &Answer, last: &Answer) {
    match read.whole() {
        Ok(bytes) if bytes == last.bytes.as_slice() => {}
        Ok(bytes) => {
            answer.say_number(length as u64);
            answer.say(" bytes: ");
            answer.say_bytes(bytes);
            answer.say("\n");
        }
        Err(trouble) => answer.fail(trouble),
    }
}

/// Answers with what is read of the first bytes of a body, of none, one, two and so on up to all of them. There is a line for each
/// number of bytes that is read otherwise than one byte less.
fn say_cut_readings(answer: &mut Answer, media: &MediaType<'_>, body: &[u8], content: &[u8]) {
    let mut last = Answer::new(answer.alloc());
    for length in 0..=body.len() {
        let (first, _) = body.split_at(length);
        let mut read = Answer::new(answer.alloc());
        say_reading(&mut read, media, first, content);
        say_change(answer, length, &read, &last);
        last = read;
    }
}

/// `read-cut-report TYPE | BODY | CONTENT`: the same of each start of the body.
fn say_each_reading(rest: &str, answer: &mut Answer) {
    let mut arguments = Arguments::of(rest);
    let content_type = arguments.bytes(answer);
    let body = arguments.bytes(answer);
    let content = arguments.bytes(answer);
    if let Some(media) = media_in(content_type.as_slice(), answer) {
        say_cut_readings(answer, &media, body.as_slice(), content.as_slice());
    }
}

/// The MIC that `DIGEST CONTENT` asks for; none where it is `nothing`.
fn mic_for(word: &str, answer: &mut Answer) -> Option<ReceiptMic> {
    if word == "nothing" {
        return None;
    }
    let (digest, content) = word.split_once(" ").unwrap_or((word, ""));
    let Some(digest) = Alg::named(digest.as_bytes()) else {
        answer.lack("no digest");
        return None;
    };
    let content = answer.bytes_of(content);
    Some(ReceiptMic {
        digest,
        text: mic_of(digest, content.as_slice()),
    })
}

/// The domain of that name.
fn domain_in(word: &str, answer: &mut Answer) -> Option<Domain> {
    let domain = Domain::of(word.as_bytes());
    if domain.is_none() {
        answer.lack("no domain");
    }
    domain
}

/// The report that `NUMBER | DOMAIN | FROM | TO | IDENTIFIER | OUTCOME | MIC` describes.
fn report_in(arguments: &mut Arguments<'_>, answer: &mut Answer) -> Option<ReceiptOut> {
    let number = arguments.number(answer);
    let domain = domain_in(arguments.word(), answer)?;
    let from = arguments.name(answer)?;
    let to = arguments.name(answer)?;
    let original_id = arguments.identifier(answer)?;
    Some(ReceiptOut {
        number,
        domain,
        from,
        to,
        original_id,
        outcome: outcome_in(arguments.word(), answer),
        mic: mic_for(arguments.word(), answer),
    })
}

/// `write-report NUMBER | DOMAIN | FROM | TO | IDENTIFIER | OUTCOME | MIC`: the body of the report.
fn say_report(rest: &str, answer: &mut Answer) {
    let Some(out) = report_in(&mut Arguments::of(rest), answer) else {
        return;
    };
    let body = write_receipt(answer.alloc(), &out);
    if let Some(body) = answer.unless_memory(body) {
        answer.say_bytes(body.as_slice());
    }
}

/// `write-fields LENGTH | NUMBER | DOMAIN | FROM | TO | IDENTIFIER | OUTCOME | MIC | BEFORE`: the head fields of the report, of a body
/// of so many bytes, behind what was there before.
fn say_fields(rest: &str, answer: &mut Answer) {
    let mut arguments = Arguments::of(rest);
    let length = arguments.length(answer);
    let Some(out) = report_in(&mut arguments, answer) else {
        return;
    };
    let mut text = arguments.bytes(answer);
    let written = write_head_fields(answer.alloc(), &mut text, &out, length);
    answer.unless_memory(written);
    answer.say_bytes(text.as_slice());
}

/// Answers to the verbs of reports; whether it is one.
pub fn answer(verb: &str, rest: &str, answer: &mut Answer) -> bool {
    match verb {
        "read-report" => say_whole_reading(rest, answer),
        "read-cut-report" => say_each_reading(rest, answer),
        "write-report" => say_report(rest, answer),
        "write-fields" => say_fields(rest, answer),
        _ => return false,
    }
    true
}
