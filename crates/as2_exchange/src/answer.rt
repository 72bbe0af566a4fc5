//! What the machine answers to an event.

ghost use Rattle.std.specs.Prelude.{◌≡◌};
ghost use Rattle.as2_exchange.specs.Lines.{line_text, refusal, status_of};

use crate::bytes::Bytes;
use as2_mdn::{Detail, Outcome, ReceiptOut};

/// Why an event is refused. A refusal changes nothing.
#[derive(Clone, Copy, Debug, PartialEq, Eq)]
pub enum Refusal {
    /// The sender is no organization of the agreements.
    UnknownOrganization,
    /// The receiver is no partner of the agreements.
    UnknownPartner,
    /// No entry has the number.
    NoSuchNumber,
    /// A try may begin only later, or not at all as things stand.
    NotDue,
    /// Nothing is left to send.
    AllSettled,
    /// No try is open.
    NoOpenTry,
    /// There were as many tries as are agreed.
    TriesUsed,
    /// The content has more than 1,048,576 bytes.
    TooLarge,
}

/// The line of text that is an answer to a request.
#[derive(Clone, Copy, Debug, PartialEq, Eq)]
pub enum Line {
    /// `AS2-From` or `AS2-To` is absent, given twice or unreadable.
    BadNames,
    /// `AS2-Version` is given twice or isn't known.
    BadVersion,
    /// The agreements don't have the names.
    UnknownNames,
    /// `Content-Type` is given twice or unreadable.
    BadType,
    /// The body of a report can't be read.
    UnreadableReceipt,
    /// The report names no document that was begun.
    NoSuchMessage,
    /// `Message-ID` is absent, given twice or unreadable.
    BadId,
    /// The request for a receipt is unreadable.
    BadAsk,
    /// Another document was posted under the identifier.
    IdUsedBefore,
    /// The document wasn't processed, and no receipt was asked for.
    NotProcessed(Outcome),
    /// The bytes aren't the head of a request.
    BadRequestHead,
    /// The body comes in a transfer coding.
    UnsupportedCoding,
    /// `Content-Length` is given twice or unreadable.
    BadContentLength,
    /// The bytes of a chunked body can't become one.
    BadChunkedBody,
    /// The body has more than 1,048,576 bytes.
    BodyTooLarge,
    /// A body comes without its length.
    LengthRequired,
    /// The method isn't POST.
    OnlyPost,
    /// The target isn't the station's path.
    NoSuchPath,
    /// The store failed.
    StoreFailed,
    /// No number is left.
    StoreFull,
}

impl Line {
    /// The status that goes with it (RFC 9110, section 15).
    pub fn status(self) -> u16
        ensures { result ≡ status_of self }
    {
        match self {
            Line::UnknownNames => 403,
            Line::NoSuchMessage | Line::NoSuchPath => 404,
            Line::OnlyPost => 405,
            Line::IdUsedBefore => 409,
            Line::LengthRequired => 411,
            Line::BodyTooLarge => 413,
            Line::UnsupportedCoding => 501,
            Line::StoreFailed | Line::StoreFull => 503,
            Line::BadNames
            | Line::BadVersion
            | Line::BadType
            | Line::UnreadableReceipt
            | Line::BadId
            | Line::BadAsk
            | Line::BadRequestHead
            | Line::BadContentLength
            | Line::BadChunkedBody
            | Line::NotProcessed(_) => 400,
        }
    }

    /// The text, without a line end.
    pub fn text(self) -> &'static str
        ensures { result.now ≡ line_text self }
    {
        match self {
            Line::BadNames => "bad AS2 names",
            Line::BadVersion => "bad AS2-Version",
            Line::UnknownNames => "unknown AS2 names",
            Line::BadType => "bad Content-Type",
            Line::UnreadableReceipt => "unreadable receipt",
            Line::NoSuchMessage => "no such message",
            Line::BadId => "bad Message-ID",
            Line::BadAsk => "bad receipt request",
            Line::IdUsedBefore => "message identifier used before",
            Line::NotProcessed(outcome) => outcome.text(),
            Line::BadRequestHead => "bad request head",
            Line::UnsupportedCoding => "transfer coding not supported",
            Line::BadContentLength => "bad Content-Length",
            Line::BadChunkedBody => "bad chunk",
            Line::BodyTooLarge => "body too large",
            Line::LengthRequired => "length required",
            Line::OnlyPost => "only POST",
            Line::NoSuchPath => "no such path",
            Line::StoreFailed => "store fault",
            Line::StoreFull => "store is full",
        }
    }

    /// The answer that it is.
    pub fn answer(self) -> HttpAnswer
        ensures { result ≡ refusal self }
    {
        HttpAnswer {
            status: self.status(),
            body: HttpBody::Words(self),
        }
    }
}

/// The body of an answer to a request.
#[derive(Drop)]
pub enum HttpBody {
    /// No byte.
    Nothing,
    /// A line of text.
    Words(Line),
    /// A report.
    Report {
        /// What it is made of.
        out: ReceiptOut,
        /// Its bytes.
        bytes: Bytes,
    },
}

/// The answer to a request.
#[derive(Drop)]
pub struct HttpAnswer {
    /// The status (RFC 9110, section 15).
    pub status: u16,
    /// The body.
    pub body: HttpBody,
}

/// A request that is to be sent.
#[derive(Drop)]
pub struct Job {
    /// The host, and its port where it has one, that the request is sent to.
    pub authority: Bytes,
    /// The bytes of the request.
    pub bytes: Bytes,
}

/// What is answered to an event.
#[derive(Drop)]
pub enum Answer {
    /// To a post.
    Http(HttpAnswer),
    /// A document was taken in, under this number.
    Submitted(u64),
    /// A try has begun: this is to be sent.
    Job(Job),
    /// A receipt has settled the document so.
    Settled(Detail),
    /// The document or the receipt arrived.
    Delivered,
    /// The try failed.
    TryFailed,
    /// It was settled before; nothing has changed.
    AlreadySettled,
    /// The document is to be sent anew.
    Resent,
    /// So many documents have become overdue or used up their tries.
    Ticked(u64),
    /// The event is refused; nothing has changed.
    Refused(Refusal),
}
