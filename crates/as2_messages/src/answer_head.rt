//! The head of an answer, and where its body ends (RFC 9112, sections 4 and 6.3).
ghost use Rattle.std.specs.Prelude.{◌≡◌, IfOk, Err, codes};
ghost use Rattle.as2_names.specs.Heads.{values};
ghost use Rattle.httparse.specs.Grammar.{ResponseHead};
ghost use Rattle.as2_messages.specs.Requests.{Fields};
ghost use Rattle.as2_messages.specs.Answering.{IsAnswerHead, body_end, end_by_coding, end_by_lengths, has_no_body};
ghost use Rattle.as2_messages.specs.Framing.{coded_framing, is_chunked};
ghost use Rattle.as2_messages.specs.AnswerPieces.{JudgesAnswer};

use crate::framing::{coded_framing, content_length};
use crate::request::{NotJudged, fields_of};
use as2_framing::BodyFraming;
use as2_text::{Head, Once};
use httparse::Status;
use httparse::spans::{EMPTY_HEADER_SPAN, parse_response};
use std::alloc::Global;

/// Where the body of an answer ends (RFC 9112, section 6.3).
#[derive(Clone, Copy, Debug, PartialEq, Eq)]
pub enum BodyEnd {
    /// Where the head says.
    Framing(BodyFraming),
    /// With the input.
    WithInput,
}

/// A body of no bytes.
const NO_BODY: BodyEnd = BodyEnd::Framing(BodyFraming::Length(0));

/// What the head of an answer says.
#[derive(Drop)]
pub struct JudgedAnswer {
    /// The status code.
    pub status: u16,
    /// The fields of the head.
    pub fields: Head,
    /// Where the body ends, if one can be read.
    pub end: Option<BodyEnd>,
}

/// The status says that there is no body (RFC 9110, section 6.4.1).
fn has_no_body(status: u16) -> bool
    ensures { result ≡ has_no_body status }
{
    status == 204 || status == 304
}

/// Where a body ends that has no transfer coding, if one can be read.
fn end_by_length(fields: &Head) -> Option<BodyEnd>
    ensures { result ≡ end_by_lengths (values (codes "content-length") fields.now) }
{
    match fields.value(b"content-length") {
        Once::Absent => Some(BodyEnd::WithInput),
        Once::One(value) => match content_length(value) {
            Ok(framing) => Some(BodyEnd::Framing(framing)),
            Err(_) => None,
        },
        Once::Twice => None,
    }
}

/// Where a body ends that has this one transfer coding, if one can be read.
fn end_by_coding(status: u16, minor: u8, coding: &[u8], fields: &Head) -> Option<BodyEnd>
    ensures { result
        ≡ end_by_coding status
        (coded_framing (is_chunked minor coding.now) (values (codes "content-length") fields.now)) }
{
    match coded_framing(minor, coding, fields) {
        Ok(_) if has_no_body(status) => Some(NO_BODY),
        Ok(framing) => Some(BodyEnd::Framing(framing)),
        Err(_) => None,
    }
}

/// Where the body of an answer of version 1.x ends, if one can be read.
fn body_end(status: u16, minor: u8, fields: &Head) -> Option<BodyEnd>
    ensures { result ≡ body_end status minor fields.now }
{
    // Below 200 another answer is still to come.
    if status < 200 {
        return None;
    }
    match fields.value(b"transfer-encoding") {
        Once::Absent if has_no_body(status) => Some(NO_BODY),
        Once::Absent => end_by_length(fields),
        Once::One(coding) => end_by_coding(status, minor, coding, fields),
        Once::Twice => None,
    }
}

/// Parses the bytes of the head of an answer, and judges what it says.
pub fn judge_answer(alloc: Global, text: &[u8]) -> Result<JudgedAnswer, NotJudged>
    ensures found { IfOk result (JudgesAnswer text.now) }
    ensures none { result ≡ Err NotJudged.BadHead → (head : ResponseHead) (fields : Fields)
        → ¬ (IsAnswerHead text.now head fields) }
{
    let mut spans = [EMPTY_HEADER_SPAN; 64];
    let Ok(Status::Complete(head)) = parse_response(text, &mut spans) else {
        return Err(NotJudged::BadHead);
    };
    if head.len != text.len() {
        return Err(NotJudged::BadHead);
    }
    let fields = fields_of(alloc, text, &spans[..head.headers])?;
    Ok(JudgedAnswer {
        status: head.code,
        end: body_end(head.code, head.version, &fields),
        fields,
    })
}
