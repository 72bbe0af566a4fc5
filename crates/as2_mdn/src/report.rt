//! The report that answers a document: its body and its head fields.
ghost use Rattle.std.specs.Prelude.{◌≡◌, ◌<◌, ◌^◌, ◌++◌, IfOk, OnOk, OnErr, codes};
ghost use Rattle.as2_names.specs.Identifiers.{IsIdentifier};
ghost use Rattle.as2_names.specs.Names.{IsName, name_spelling};
ghost use Rattle.as2_mic.specs.Mic.{IsMicText};
ghost use Rattle.as2_mdn.specs.Laws.{HasMicText, IsItsReport, IsOut};
ghost use Rattle.as2_mdn.specs.Reports.{as2_fields_text, boundary_text, content_type_text, explanation_text, head_fields_of, crlf_line, mic_line, mic_with_digest, notification_text, receipt_id_text, receipt_text};

use crate::outcome::Outcome;
use as2_mic::{Alg, MicText};
use as2_text::{AsName, Domain, Memory, MessageId};
use itoa::Buffer;
use std::alloc::{AllocError, Global};

/// A message integrity check, and the digest that it was made with.
#[derive(Clone, Copy)]
pub struct ReceiptMic {
    /// The digest, whose name stands behind the text.
    pub digest: Alg,
    /// The base64 text of the digest's value (RFC 4130, section 7.3.1).
    pub text: MicText,
}

/// What a report tells of the document that it answers (RFC 8098, section 3.2).
#[derive(Drop)]
pub struct ReceiptOut {
    /// The number of the receipt.
    pub number: u64,
    /// The domain of the report's own message identifier.
    pub domain: Domain,
    /// The organization, which received the document and sends the report.
    pub from: AsName,
    /// The partner, which sent the document.
    pub to: AsName,
    /// The identifier of the document, which is written as it was received.
    pub original_id: MessageId,
    /// What became of the document.
    pub outcome: Outcome,
    /// The MIC of the document's content; there is one where the document was processed.
    pub mic: Option<ReceiptMic>,
}

/// Appends a line: its start, its value and CRLF. Where memory runs out, a part of it may be appended.
pub fn add_line(text: &mut Vec<u8>, start: &[u8], value: &[u8]) -> Result<(), AllocError>
    ensures { OnOk result (text.new.items ≡ text.old.items ++ crlf_line start.now value.now) }
{
    text.extend_from_slice(start)?;
    text.extend_from_slice(value)?;
    text.extend_from_slice(b"\r\n")?;
    Ok(())
}

/// Appends a line whose value is a name as it is spelled.
fn add_name(text: &mut Vec<u8>, start: &[u8], name: &AsName) -> Result<(), AllocError>
    ensures added { OnOk result (text.new.items ≡ text.old.items ++ crlf_line start.now (name_spelling name.now)) }
    ensures name { IsName name.now }
{
    add_line(text, start, name.spelling().as_str().as_bytes())
}

fn boundary(alloc: Global, number: u64) -> Result<Vec<u8>, AllocError>
    ensures text { IfOk result (λ text. text.items ≡ boundary_text number) }
    ensures number { number < 2 ^ 64 }
{
    let mut text = Vec::from_slice(alloc, b"as2-mdn-")?;
    text.extend_from_slice(Buffer::new().format(number).as_bytes())?;
    Ok(text)
}

fn content_type(alloc: Global, number: u64) -> Result<Vec<u8>, AllocError>
    ensures { IfOk result (λ text. text.items ≡ content_type_text number) }
{
    let mut text = Vec::from_slice(
        alloc,
        b"multipart/report; report-type=disposition-notification; boundary=\"",
    )?;
    text.extend_from_slice(&boundary(alloc, number)?)?;
    text.extend_from_slice(b"\"")?;
    Ok(text)
}

fn report_id(alloc: Global, number: u64, domain: &Domain) -> Result<Vec<u8>, AllocError>
    ensures { IfOk result (λ text. text.items ≡ receipt_id_text number domain.now) }
{
    let mut text = Vec::from_slice(alloc, b"<mdn-")?;
    text.extend_from_slice(Buffer::new().format(number).as_bytes())?;
    text.extend_from_slice(b"@")?;
    text.extend_from_slice(domain.bytes())?;
    text.extend_from_slice(b">")?;
    Ok(text)
}

/// The part that people read.
fn explanation(alloc: Global, number: u64, outcome: Outcome) -> Result<Vec<u8>, AllocError>
    ensures { IfOk result (λ text. text.items ≡ explanation_text number outcome) }
{
    let mut text = Vec::from_slice(alloc, b"Content-Type: text/plain\r\n\r\nReceipt ")?;
    text.extend_from_slice(Buffer::new().format(number).as_bytes())?;
    text.extend_from_slice(b" for the message named below.\r\n")?;
    add_line(&mut text, b"Outcome: ", outcome.text().as_bytes())?;
    Ok(text)
}

/// A MIC and the name of its digest.
fn mic_value(alloc: Global, mic: ReceiptMic) -> Result<Vec<u8>, AllocError>
    ensures text { IfOk result (λ text. text.items ≡ mic_with_digest mic) }
    ensures mic { IfOk result (λ text. IsMicText mic.text) }
{
    let mut text = Vec::from_slice(alloc, mic.text.bytes())?;
    text.extend_from_slice(b", ")?;
    text.extend_from_slice(mic.digest.name().as_bytes())?;
    Ok(text)
}

/// Appends the line of a MIC, where there is one.
fn add_mic_line(
    alloc: Global,
    text: &mut Vec<u8>,
    mic: Option<ReceiptMic>,
) -> Result<(), AllocError>
    ensures added { OnOk result (text.new.items ≡ text.old.items ++ mic_line mic) }
    ensures mic { OnOk result (HasMicText mic) }
{
    match mic {
        Some(mic) => add_line(text, b"Received-content-MIC: ", &mic_value(alloc, mic)?),
        None => Ok(()),
    }
}

/// Appends the line of the document's identifier, with its angle brackets where it was received with them.
fn add_identifier(text: &mut Vec<u8>, id: &MessageId) -> Result<(), AllocError>
    ensures added { OnOk result (text.new.items ≡ text.old.items ++ crlf_line (codes "Original-Message-ID: ") id.now) }
    ensures identifier { IsIdentifier id.now }
{
    add_line(text, b"Original-Message-ID: ", id.as_received().as_bytes())
}

/// The part that programs read.
fn notification(alloc: Global, out: &ReceiptOut) -> Result<Vec<u8>, AllocError>
    ensures text { IfOk result (λ text. text.items ≡ notification_text out.now) }
    ensures from { IfOk result (λ text. IsName out.now.from) }
    ensures identifier { IfOk result (λ text. IsIdentifier out.now.original_id) }
    ensures mic { IfOk result (λ text. HasMicText out.now.mic) }
{
    let mut text = Vec::from_slice(
        alloc,
        b"Content-Type: message/disposition-notification\r\n\r\nReporting-UA: as2-station\r\n",
    )?;
    add_name(&mut text, b"Final-Recipient: rfc822; ", &out.from)?;
    add_identifier(&mut text, &out.original_id)?;
    add_line(
        &mut text,
        b"Disposition: automatic-action/MDN-sent-automatically; ",
        out.outcome.text().as_bytes(),
    )?;
    add_mic_line(alloc, &mut text, out.mic)?;
    Ok(text)
}

fn report_body(alloc: Global, out: &ReceiptOut) -> Result<Vec<u8>, AllocError>
    ensures text { IfOk result (λ text. text.items ≡ receipt_text out.now) }
    ensures out { IfOk result (λ text. IsOut out.now) }
{
    let boundary = boundary(alloc, out.number)?;
    let mut text = Vec::new(alloc);
    add_line(&mut text, b"--", &boundary)?;
    text.extend_from_slice(&explanation(alloc, out.number, out.outcome)?)?;
    add_line(&mut text, b"\r\n--", &boundary)?;
    text.extend_from_slice(&notification(alloc, out)?)?;
    text.extend_from_slice(b"\r\n--")?;
    text.extend_from_slice(&boundary)?;
    text.extend_from_slice(b"--\r\n")?;
    Ok(text)
}

/// The body of a report (RFC 6522, section 3), all its lines with their CRLF.
pub fn write_receipt(alloc: Global, out: &ReceiptOut) -> Result<Vec<u8>, Memory>
    // The text.
    ensures text { IfOk result (λ text. text.items ≡ receipt_text out.now) }
    // It is read as a receipt with the document's identifier, the disposition of the outcome, and the MIC.
    ensures own { IfOk result (λ text. IsItsReport out.now text.items) }
{
    Ok(report_body(alloc, out)?)
}

/// The head fields of AS2 (RFC 4130, section 6).
fn as2_fields(alloc: Global, out: &ReceiptOut) -> Result<Vec<u8>, AllocError>
    ensures { IfOk result (λ text. text.items ≡ as2_fields_text out.now) }
{
    let mut text = Vec::from_slice(alloc, b"AS2-Version: 1.0\r\n")?;
    add_name(&mut text, b"AS2-From: ", &out.from)?;
    add_name(&mut text, b"AS2-To: ", &out.to)?;
    Ok(text)
}

fn head_fields(alloc: Global, out: &ReceiptOut, length: usize) -> Result<Vec<u8>, AllocError>
    ensures { IfOk result (λ text. text.items ≡ head_fields_of out.now length) }
{
    let mut text = as2_fields(alloc, out)?;
    add_line(
        &mut text,
        b"Message-ID: ",
        &report_id(alloc, out.number, &out.domain)?,
    )?;
    add_line(
        &mut text,
        b"Content-Type: ",
        &content_type(alloc, out.number)?,
    )?;
    add_line(
        &mut text,
        b"Content-Length: ",
        Buffer::new().format(length).as_bytes(),
    )?;
    Ok(text)
}

/// Appends the head fields of a report whose body has `length` bytes (RFC 4130, sections 6.1, 6.2 and 7.3), or nothing
/// where there is no memory for them.
pub fn write_head_fields(
    alloc: Global,
    text: &mut Vec<u8>,
    out: &ReceiptOut,
    length: usize,
) -> Result<(), Memory>
    ensures added { OnOk result (text.new.items ≡ text.old.items ++ head_fields_of out.now length) }
    ensures refused { OnErr result (text.new.items ≡ text.old.items) }
{
    let fields = head_fields(alloc, out, length)?;
    text.extend_from_slice(&fields)?;
    Ok(())
}
