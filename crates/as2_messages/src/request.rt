//! The request that a text begins with.
ghost use Rattle.std.specs.Prelude.{◌≡◌, ◌≤◌, List, ℕ, length, map, codes, All, IfOk, Some, None, Ok, Err, []};
ghost use Rattle.httparse.specs.Grammar.{RequestHead};
ghost use Rattle.httparse.specs.Spans.{IsHeaderWithin, header_bytes};
ghost use Rattle.as2_messages.specs.Requests.{Fields, IsHead, fields_behind, method_of, target_of, body_framing, framing_by_lengths, is_last_request};
ghost use Rattle.as2_names.specs.Heads.{values};
ghost use Rattle.as2_messages.specs.Reading.{Judges};

use crate::framing::{Method, RequestFault, Target, coded_framing, content_length};
use as2_framing::BodyFraming;
use as2_mic::Pieces;
use as2_text::{Head, HeadFault, Once};
use httparse::Status;
use httparse::spans::{EMPTY_HEADER_SPAN, HeaderSpan, parse_request};
use std::alloc::Global;

/// A request, as far as its answer depends on it (RFC 9112, section 3).
#[derive(Drop)]
pub struct Request {
    /// Its method, of those that an answer depends on.
    pub method: Method,
    /// Its target: the station's path or another.
    pub target: Target,
    /// The fields of its head.
    pub fields: Head,
    /// Its body, without what chunks it.
    pub body: Pieces,
    /// No further request is read behind this one.
    pub last: bool,
}

/// What a head says.
#[derive(Drop)]
pub struct Judged {
    /// The method of the request.
    pub method: Method,
    /// The target of the request.
    pub target: Target,
    /// The fields of the head.
    pub fields: Head,
    /// How the body ends that follows, or why none can be read.
    pub framing: Result<BodyFraming, RequestFault>,
    /// No further request is read behind this one.
    pub last: bool,
}

/// Why the bytes give no head.
#[derive(Clone, Copy, Debug, PartialEq, Eq)]
pub enum NotJudged {
    /// They are no head of a request.
    BadHead,
    /// Memory for the fields wasn't there.
    Memory,
}

fn method_of(bytes: &[u8]) -> Method
    ensures { result ≡ method_of bytes.now }
{
    match bytes {
        b"POST" => Method::Post,
        b"HEAD" => Method::Head,
        _ => Method::Other,
    }
}

fn target_of(bytes: &[u8]) -> Target
    ensures { result ≡ target_of bytes.now }
{
    if bytes == b"/as2".as_slice() {
        Target::Station
    } else {
        Target::Other
    }
}

/// How a body ends that has no transfer coding.
fn framing_by_length(method: Method, fields: &Head) -> Result<BodyFraming, RequestFault>
    ensures { result ≡ framing_by_lengths method (values (codes "content-length") fields.now) }
{
    match fields.value(b"content-length") {
        Once::Absent if method == Method::Post => Err(RequestFault::NoLength),
        Once::Absent => Ok(BodyFraming::Length(0)),
        Once::One(value) => content_length(value),
        Once::Twice => Err(RequestFault::BadLength),
    }
}

/// How the body ends that follows a head of version 1.x.
fn body_framing(minor: u8, method: Method, fields: &Head) -> Result<BodyFraming, RequestFault>
    ensures { result ≡ body_framing minor method fields.now }
{
    match fields.value(b"transfer-encoding") {
        Once::Absent => framing_by_length(method, fields),
        Once::One(coding) => coded_framing(minor, coding, fields),
        Once::Twice => Err(RequestFault::TransferCoding),
    }
}

/// No further request is read behind this one.
fn is_last(minor: u8, fields: &Head) -> bool
    ensures { result ≡ is_last_request minor fields.now }
{
    minor == 0 || fields.lists(b"connection", b"close")
}

/// The fields of a head.
pub(crate) fn fields_of(alloc: Global, text: &[u8], spans: &[HeaderSpan]) -> Result<Head, NotJudged>
    requires within { All (IsHeaderWithin (length text.now)) spans.now }
    ensures found { IfOk result (λ fields. fields_behind [] (map (header_bytes text.now) spans.now) ≡ Some fields) }
    ensures none { result ≡ Err NotJudged.BadHead → fields_behind [] (map (header_bytes text.now) spans.now) ≡ None }
{
    let mut fields = Head::new(alloc);
    for span in spans {
        match fields.append(span.name.of(text), span.value.of(text)) {
            Ok(()) => {}
            Err(HeadFault::Memory) => return Err(NotJudged::Memory),
            Err(_) => return Err(NotJudged::BadHead),
        }
    }
    Ok(fields)
}

/// Parses the bytes of a head, and judges what it says.
pub fn judge(alloc: Global, text: &[u8]) -> Result<Judged, NotJudged>
    ensures found { IfOk result (Judges text.now) }
    ensures none { result ≡ Err NotJudged.BadHead → (head : RequestHead) (fields : Fields)
        → ¬ (IsHead text.now head fields) }
{
    let mut spans = [EMPTY_HEADER_SPAN; 64];
    let Ok(Status::Complete(head)) = parse_request(text, &mut spans) else {
        return Err(NotJudged::BadHead);
    };
    if head.len != text.len() {
        return Err(NotJudged::BadHead);
    }
    let method = method_of(head.method.of(text));
    let fields = fields_of(alloc, text, &spans[..head.headers])?;
    Ok(Judged {
        method,
        target: target_of(head.path.of(text)),
        framing: body_framing(head.version, method, &fields),
        last: is_last(head.version, &fields),
        fields,
    })
}
