//! The report that answers a document, read.
ghost use Rattle.std.specs.Prelude.{◌≡◌, IfOk, Ok};
ghost use Rattle.as2_media.specs.MediaTypes.{media_type_reading as type_reading};
ghost use Rattle.as2_parts.specs.Parts.{part_text};
ghost use Rattle.as2_mdn.specs.Receipts.{ReceiptRead, mic_of};
ghost use Rattle.as2_mdn.specs.ReportReading.{IsReport, body_reading, content_reading, receipt_with_disposition, identified_receipt, is_plain_encoding, is_media_of_notification, is_type_of_notification, leaves_content, mic_once, once_in, once_of, part_reading, receipt_reading};

use crate::{Disposition, MicPart, Receipt};
use as2_mic::MicField;
use as2_text::{Kind, MediaType, Part, find_once, is_identifier, two_parts};

/// Why a body is no report that can be read: the first that fits in the order `NotReport`, `Parts`, `NotNotification`,
/// `Encoded`, `Twice`, `NoId`, `NoDisposition`, `BadDisposition`.
#[derive(Clone, Copy, Debug, PartialEq, Eq)]
pub enum ReportFault {
    /// The media type is no report of a disposition notification, or has no boundary.
    NotReport,
    /// The body hasn't two parts.
    Parts,
    /// The second part hasn't exactly one `Content-Type`, or this is no `message/disposition-notification`.
    NotNotification,
    /// The second part has two encodings, or one other than `7bit`, `8bit` and `binary`.
    Encoded,
    /// There is no `Original-Message-ID`, or it is no identifier.
    NoId,
    /// There is no `Disposition`.
    NoDisposition,
    /// The `Disposition` is none.
    BadDisposition,
    /// `Original-Message-ID` or `Disposition` stands there twice.
    Twice,
}

/// The fields of a name in a text.
#[derive(Clone, Copy)]
enum Found<'a> {
    Absent,
    One(&'a [u8]),
    Twice,
}

/// The fields of that name, in whichever case it is written.
fn once_in<'a>(text: &'a [u8], name: &[u8]) -> Found<'a>
    ensures { once_of result ≡ once_in text.now name.now }
{
    match find_once(text, name) {
        Ok(None) => Found::Absent,
        Ok(Some(field)) => Found::One(field.value),
        Err(_) => Found::Twice,
    }
}

/// Whether the transfer encoding leaves a content as it is (RFC 2045, section 6.2).
pub fn is_plain_encoding(encoding: &[u8]) -> bool
    ensures { result ≡ is_plain_encoding encoding.now }
{
    encoding.eq_ignore_ascii_case(b"7bit")
        || encoding.eq_ignore_ascii_case(b"8bit")
        || encoding.eq_ignore_ascii_case(b"binary")
}

/// Whether the text is the media type of a notification (RFC 8098, section 3.1).
fn is_notification(text: &[u8]) -> bool
    ensures { result ≡ is_media_of_notification (type_reading text.now) }
{
    match MediaType::parse(text) {
        Ok(media) => media.is_type(b"message", b"disposition-notification"),
        Err(_) => false,
    }
}

/// Whether the type of a part is that of a notification.
fn is_type_of_notification(content_type: Found<'_>) -> bool
    ensures { result ≡ is_type_of_notification (once_of content_type.entry) }
{
    match content_type {
        Found::One(text) => is_notification(text),
        Found::Absent | Found::Twice => false,
    }
}

/// Whether the encoding of a part leaves its content as it is.
fn leaves_content(encoding: Found<'_>) -> bool
    ensures { result ≡ leaves_content (once_of encoding.entry) }
{
    match encoding {
        Found::Absent => true,
        Found::One(encoding) => is_plain_encoding(encoding),
        Found::Twice => false,
    }
}

/// The MIC that a field gives.
fn mic_part(mic: Found<'_>) -> MicPart<'_>
    ensures { mic_of result ≡ mic_once (once_of mic.entry) }
{
    match mic {
        Found::Absent => MicPart::Missing,
        Found::One(value) => match MicField::parse(value) {
            Some(field) => MicPart::Given(field),
            None => MicPart::Unreadable,
        },
        Found::Twice => MicPart::Unreadable,
    }
}

/// The receipt of that identifier and MIC, where the disposition can be read.
fn disposed<'a>(
    original_id: &'a [u8],
    disposition: Found<'a>,
    mic: MicPart<'a>,
) -> Result<Receipt<'a>, ReportFault>
    ensures { result ≡ receipt_with_disposition original_id.now (mic_of mic.entry) (once_of disposition.entry) }
{
    let Found::One(value) = disposition else {
        return Err(ReportFault::NoDisposition);
    };
    let disposition = Disposition::parse(value).map_err(|_| ReportFault::BadDisposition)?;
    Ok(Receipt {
        original_id,
        disposition,
        mic,
    })
}

/// The receipt that a notification's content tells.
fn read_content(content: &[u8]) -> Result<Receipt<'_>, ReportFault>
    ensures { result ≡ content_reading content.now }
{
    let id = once_in(content, b"original-message-id");
    let disposition = once_in(content, b"disposition");
    match (id, disposition) {
        (Found::Twice, _) | (_, Found::Twice) => Err(ReportFault::Twice),
        (Found::One(id), disposition) if is_identifier(id) => {
            let mic = mic_part(once_in(content, b"received-content-mic"));
            disposed(id, disposition, mic)
        }
        _ => Err(ReportFault::NoId),
    }
}

/// The receipt that a part tells.
fn read_part(part: Part<'_>) -> Result<Receipt<'_>, ReportFault>
    ensures { result ≡ part_reading (part_text part.entry) }
{
    if !is_type_of_notification(once_in(part.head, b"content-type")) {
        return Err(ReportFault::NotNotification);
    }
    if !leaves_content(once_in(part.head, b"content-transfer-encoding")) {
        return Err(ReportFault::Encoded);
    }
    read_content(part.content)
}

/// The receipt that a body of that media type tells.
fn read<'a>(media: &MediaType<'_>, body: &'a [u8]) -> Result<Receipt<'a>, ReportFault>
    ensures { result ≡ receipt_reading media.now body.now }
{
    if media.kind() != Kind::Report {
        return Err(ReportFault::NotReport);
    }
    let boundary = media.boundary().ok_or(ReportFault::NotReport)?;
    let (_, second) = two_parts(body, boundary).map_err(|_| ReportFault::Parts)?;
    read_part(second)
}

/// Reads the report that answers a document (RFC 6522, section 3; RFC 8098, section 3; RFC 4130, section 7.4). Its first
/// part isn't read, nor is anything behind its second.
pub fn read_report<'a>(media: &MediaType<'_>, body: &'a [u8]) -> Result<Receipt<'a>, ReportFault>
    // What is read stands in the report.
    ensures found { IfOk result (IsReport media.now body.now) }
    // What stands in the report is read.
    ensures only { (receipt : ReceiptRead) → IsReport media.now body.now receipt → result ≡ Ok receipt }
    // Which fault it is.
    ensures exact { result ≡ receipt_reading media.now body.now }
{
    read(media, body)
}
