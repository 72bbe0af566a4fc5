//! Receipts: their dispositions, what they say of a document, and the details that come of it.
use crate::arguments::{Arguments, pieces_of, value_in};
use as2_mdn::{Detail, DetailClass, Disposition, MicPart, Receipt, verdict, verdict_pieces};
use as2_mic::MicField;
use script_lines::Answer;

static DETAILS: [Detail; 14] = [
    Detail::New,
    Detail::Sending,
    Detail::Awaiting,
    Detail::Retry,
    Detail::Processed,
    Detail::NoReceiptAsked,
    Detail::Warning,
    Detail::NoMic,
    Detail::UnknownMic,
    Detail::NotProcessed,
    Detail::ErrorModifier,
    Detail::MicDiffers,
    Detail::TriesUsed,
    Detail::Overdue,
];

/// Answers with what a disposition says.
fn say_disposition(answer: &mut Answer, disposition: &Disposition<'_>) {
    let is_processed = disposition.is_processed();
    answer.say(if is_processed {
        "processed"
    } else {
        "not processed"
    });
    if let Some(modifier) = disposition.modifier() {
        answer.say(", modifier ");
        answer.say_bytes(modifier);
    }
}

/// `read-disposition VALUE`: whether the type is `processed`, and the modifier.
fn read_disposition(rest: &str, answer: &mut Answer) {
    let value = answer.bytes_of(rest);
    match Disposition::parse(value.as_slice()) {
        Ok(disposition) => say_disposition(answer, &disposition),
        Err(fault) => answer.say_fault(&fault),
    }
}

/// The MIC of a field's value; `nothing` where there is no field.
fn mic_in(value: &[u8]) -> MicPart<'_> {
    if value == b"nothing".as_slice() {
        return MicPart::Missing;
    }
    match MicField::parse(value) {
        Some(field) => MicPart::Given(field),
        None => MicPart::Unreadable,
    }
}

/// The receipt of that document, with that disposition and MIC.
fn receipt_in<'a>(
    id: &'a [u8],
    value: &'a [u8],
    mic: &'a [u8],
    answer: &mut Answer,
) -> Option<Receipt<'a>> {
    match Disposition::parse(value) {
        Ok(disposition) => Some(Receipt {
            original_id: id,
            disposition,
            mic: mic_in(mic),
        }),
        Err(_) => {
            answer.lack("no disposition");
            None
        }
    }
}

/// Answers with the verdict on a content, and with that on the same in pieces where it is another.
fn say_verdict(answer: &mut Answer, receipt: &Receipt<'_>, content: &[u8]) {
    let whole = verdict(receipt, content);
    answer.say(whole.name());
    let pieces = pieces_of(content, answer);
    let in_pieces = verdict_pieces(receipt, &pieces);
    if in_pieces != whole {
        answer.say(", in pieces ");
        answer.say(in_pieces.name());
    }
}

/// `verdict DISPOSITION | MIC | CONTENT`: what a receipt of these says of the document of that content.
fn judge(rest: &str, answer: &mut Answer) {
    let mut arguments = Arguments::of(rest);
    let value = arguments.bytes(answer);
    let mic = arguments.bytes(answer);
    let content = arguments.bytes(answer);
    let id = b"<out-1@station.example>";
    if let Some(receipt) = receipt_in(id, value.as_slice(), mic.as_slice(), answer) {
        say_verdict(answer, &receipt, content.as_slice());
    }
}

/// `receipt-is-of IDENTIFIER | VALUE`: whether a receipt of that identifier is of the document whose identifier has that value.
fn is_receipt_of(rest: &str, answer: &mut Answer) {
    let mut arguments = Arguments::of(rest);
    let id = arguments.bytes(answer);
    let processed = b"automatic-action/MDN-sent-automatically; processed";
    if let Some(receipt) = receipt_in(id.as_slice(), processed, b"nothing", answer) {
        answer.say_whether(receipt.names(arguments.word()));
    }
}

/// The letter of a state.
fn letter(state: DetailClass) -> &'static str {
    match state {
        DetailClass::P => "P",
        DetailClass::R => "R",
        DetailClass::S => "S",
        DetailClass::W => "W",
        DetailClass::E => "E",
    }
}

/// `detail DETAIL`: the name that is written, and the state that the detail belongs to.
fn say_detail(rest: &str, answer: &mut Answer) {
    if let Some(detail) = value_in(rest, &DETAILS, "no detail", answer) {
        answer.say(detail.name());
        answer.say(", ");
        answer.say(letter(detail.class()));
    }
}

/// Answers to the verbs of receipts; whether it is one.
pub fn answer(verb: &str, rest: &str, answer: &mut Answer) -> bool {
    match verb {
        "read-disposition" => read_disposition(rest, answer),
        "verdict" => judge(rest, answer),
        "receipt-is-of" => is_receipt_of(rest, answer),
        "detail" => say_detail(rest, answer),
        _ => return false,
    }
    true
}
