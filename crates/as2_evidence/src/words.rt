//! What the pages say in words.
ghost use Rattle.std.specs.Prelude.{◌≡◌, ◌++◌, IfOk, OnOk, option_map};
ghost use Rattle.as2_evidence.specs.Words.{detail_words, disposition_words, read_mic_words, own_mic_words, receipt_stage_words, modifier_words, printing_byte, printing_text, taken_words};
ghost use Rattle.as2_mdn.specs.Receipts.{mic_of};

use as2_exchange::{ReceiptDelivery, ReceiptStage};
use as2_mdn::{Detail, Disposition, MicPart, ReceiptMic};
use std::alloc::{AllocError, Global};

/// What a detail says.
pub fn detail_words(detail: Detail) -> &'static str
    ensures { result.now ≡ detail_words detail }
{
    match detail {
        Detail::New => "no try has begun since it was submitted or sent anew",
        Detail::Sending => "a try is open, or was cut off; the partner may have it",
        Detail::Awaiting => "delivered, as the partner's answer says; the receipt is to come",
        Detail::Retry => "the last try failed, and another is to come; the partner may have it",
        Detail::Processed => {
            "a receipt says \"processed\" without modifier, and carries the integrity check (MIC) of this content"
        }
        Detail::NoReceiptAsked => "delivered, as the partner's answer says; no receipt is agreed",
        Detail::Warning =>
            "a receipt says \"processed\" with a modifier that is no error and no failure; it doesn't confirm this content",
        Detail::NoMic => "a receipt says \"processed\", and carries no integrity check (MIC)",
        Detail::UnknownMic => {
            "a receipt says \"processed\", and its integrity check (MIC) can't be read, or is by a digest that isn't known"
        }
        Detail::NotProcessed => "a receipt says other than \"processed\"",
        Detail::ErrorModifier => "a receipt says \"processed\" with an error or a failure",
        Detail::MicDiffers => {
            "a receipt says \"processed\", and the integrity check (MIC) that it carries isn't this content's"
        }
        Detail::TriesUsed =>
            "no try since it was last to be sent was answered as it is agreed; the partner may have it",
        Detail::Overdue => "delivered, as the partner's answer says; no receipt came in time",
    }
}

/// Whether a receipt that is sent by a request of its own was taken.
fn taken_words(receipt_stage: ReceiptStage) -> &'static str
    ensures { result.now ≡ taken_words receipt_stage }
{
    match receipt_stage {
        ReceiptStage::Sent => "by a request of its own, which was taken",
        ReceiptStage::Unasked | ReceiptStage::Pending => {
            "by a request of its own, which wasn't taken since it was last to be sent"
        }
    }
}

/// How the receipt of a received document stands.
pub fn receipt_stage_words(how: &ReceiptDelivery, receipt_stage: ReceiptStage) -> &'static str
    ensures { result.now ≡ receipt_stage_words how.now receipt_stage }
{
    match how {
        ReceiptDelivery::NoReceipt => "none was asked for",
        ReceiptDelivery::Sync => "in the answer to the post; whether that arrived isn't known",
        ReceiptDelivery::Async(_) => taken_words(receipt_stage),
    }
}

/// A byte, where it prints, or a question mark.
fn printing_byte(byte: u8) -> u8
    ensures { result ≡ printing_byte byte }
{
    if 32 <= byte && byte <= 126 {
        return byte;
    }
    b'?'
}

/// A text that somebody else wrote, with `?` for each byte that doesn't print: it is one line.
pub fn printing_text(alloc: Global, text: &[u8]) -> Result<Vec<u8>, AllocError>
    ensures { IfOk result (λ shown. shown.items ≡ printing_text text.now) }
{
    let mut shown = Vec::new(alloc);
    for byte in text {
        shown.push(printing_byte(*byte))?;
    }
    Ok(shown)
}

/// Appends a disposition's modifier, where there is one.
fn add_modifier(text: &mut Vec<u8>, modifier: Option<&[u8]>) -> Result<(), AllocError>
    ensures { OnOk result (text.new.items ≡ text.old.items ++ modifier_words (option_map (λ m. m.now) modifier.entry)) }
{
    let Some(modifier) = modifier else {
        return Ok(());
    };
    text.extend_from_slice(b"/")?;
    text.extend_from_slice(modifier)
}

/// A disposition's type and modifier, as they are spelled.
pub fn disposition_words(
    alloc: Global,
    disposition: &Disposition<'_>,
) -> Result<Vec<u8>, AllocError>
    ensures { IfOk result (λ text. text.items ≡ disposition_words disposition.now) }
{
    let mut text = Vec::from_slice(alloc, disposition.disposition_type())?;
    add_modifier(&mut text, disposition.modifier())?;
    Ok(text)
}

/// The MIC that a receipt gives.
pub fn read_mic_words(alloc: Global, mic: &MicPart<'_>) -> Result<Vec<u8>, AllocError>
    ensures { IfOk result (λ text. text.items ≡ read_mic_words (mic_of mic.now)) }
{
    let field = match mic {
        MicPart::Missing => return Vec::from_slice(alloc, b"-"),
        MicPart::Unreadable => return Vec::from_slice(alloc, b"can't be read"),
        MicPart::Given(field) => field,
    };
    let mut text = Vec::from_slice(alloc, field.mic())?;
    text.extend_from_slice(b", ")?;
    text.extend_from_slice(field.digest())?;
    Ok(text)
}

/// The MIC that the receipt of a received document gives, where there is one.
pub fn own_mic_words(alloc: Global, mic: Option<ReceiptMic>) -> Result<Vec<u8>, AllocError>
    ensures { IfOk result (λ text. text.items ≡ own_mic_words mic) }
{
    let Some(mic) = mic else {
        return Vec::from_slice(alloc, b"-");
    };
    let mut text = Vec::from_slice(alloc, mic.text.bytes())?;
    text.extend_from_slice(b", ")?;
    text.extend_from_slice(mic.digest.name().as_bytes())?;
    Ok(text)
}
