//! What the fields of a head say of the bytes behind it (RFC 9112, sections 6 and 9.6).
ghost use Rattle.std.specs.Prelude.{◌≡◌, codes};
ghost use Rattle.as2_names.specs.Heads.{values};
ghost use Rattle.as2_messages.specs.Requests.{is_head};
ghost use Rattle.as2_messages.specs.Framing.{coded_framing, content_length, is_chunked};

use as2_framing::{BODY_LIMIT, BodyFraming};
use as2_text::{Head, Once, decimal_value, is_number};

/// The method of a request, of those that an answer depends on (RFC 9110, section 9.3).
#[derive(Clone, Copy, Debug, PartialEq, Eq)]
pub enum Method {
    /// `POST`, by which documents and receipts come.
    Post,
    /// `HEAD`, whose reply has no body.
    Head,
    /// Any other.
    Other,
}

impl Method {
    /// The reply has no body (RFC 9110, section 9.3.2).
    pub fn is_head(self) -> bool
        ensures { result ≡ is_head self }
    {
        self == Method::Head
    }
}

/// The target of a request (RFC 9112, section 3.2).
#[derive(Clone, Copy, Debug, PartialEq, Eq)]
pub enum Target {
    /// The station's path, `/as2`.
    Station,
    /// Any other.
    Other,
}

/// Why no request can be read.
#[derive(Clone, Copy, Debug, PartialEq, Eq)]
pub enum RequestFault {
    /// The bytes are no head of a request, or it is too long.
    BadHead,
    /// The body has a transfer coding other than `chunked`.
    TransferCoding,
    /// `Content-Length` stands there twice, beside a transfer coding, or is no number.
    BadLength,
    /// What came of a chunked body can't become one.
    BadChunk,
    /// The body has more than 1,048,576 bytes.
    TooLarge,
    /// A POST says nothing of its body's length.
    NoLength,
}

/// A refused request: none can be read from here on.
#[derive(Clone, Copy, Debug, PartialEq, Eq)]
pub struct Refused {
    /// Why it is refused.
    pub reason: RequestFault,
    /// The head was read, and its method is HEAD, whose reply has no body.
    pub to_head: bool,
}

/// How a body ends whose one `Content-Length` has this value (RFC 9110, section 8.6).
pub fn content_length(value: &[u8]) -> Result<BodyFraming, RequestFault>
    ensures { result ≡ content_length value.now }
{
    if !is_number(value) {
        return Err(RequestFault::BadLength);
    }
    match decimal_value(value) {
        Some(length) if length <= BODY_LIMIT as u64 => Ok(BodyFraming::Length(length as usize)),
        _ => Err(RequestFault::TooLarge),
    }
}

/// The body is chunked, in this version 1.x, whose one transfer coding has this value (RFC 9112, sections 6.1 and 7.1).
fn is_chunked(minor: u8, coding: &[u8]) -> bool
    ensures { result ≡ is_chunked minor coding.now }
{
    minor == 1 && coding.eq_ignore_ascii_case(b"chunked")
}

/// How a body ends that has this one transfer coding, in version 1.x.
pub fn coded_framing(minor: u8, coding: &[u8], fields: &Head) -> Result<BodyFraming, RequestFault>
    ensures { result ≡ coded_framing (is_chunked minor coding.now) (values (codes "content-length") fields.now) }
{
    if !is_chunked(minor, coding) {
        return Err(RequestFault::TransferCoding);
    }
    if fields.value(b"content-length") != Once::Absent {
        return Err(RequestFault::BadLength);
    }
    Ok(BodyFraming::Chunked)
}
