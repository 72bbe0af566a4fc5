//! The texts of replies (RFC 9112, section 4).
ghost use Rattle.std.specs.Prelude.{◌≡◌, ◌++◌, List, ℕ, [], if◌then◌else◌, length, IfOk, OnOk};
ghost use Rattle.as2_exchange.specs.Lines.{refusal};
ghost use Rattle.as2_messages.specs.Replies.{IsDateOf, IsReply, content, body_fields, line_fields, phrase, refusal_line, reply, reply_start, status_line};

use crate::framing::RequestFault;
use as2_exchange::{HttpAnswer, HttpBody, Line};
use as2_mdn::{add_line, write_head_fields};
use as2_text::{Memory, Moment};
use http::StatusCode;
use httpdate::HttpDate;
use itoa::Buffer;
use std::alloc::{AllocError, Global};

/// What the request asks of the form of its reply.
#[derive(Clone, Copy, Debug, PartialEq, Eq)]
pub struct Form {
    /// The stream ends with a refusal, and the reply says so.
    pub closes: bool,
    /// The request's method is HEAD: the body is left out (RFC 9110, section 9.3.2).
    pub to_head: bool,
}

/// The date of a moment, as HTTP writes it (RFC 9110, section 5.6.7).
pub fn date_of(moment: Moment) -> [u8; 29]
    ensures { IsDateOf moment result }
{
    HttpDate::from_unix_secs(moment.seconds())
        .unwrap()
        .to_bytes()
}

/// The reason phrase of a status, where it has one.
fn phrase(status: u16) -> &'static str
    ensures { result.now ≡ phrase status }
{
    match StatusCode::from_u16(status) {
        Ok(code) => code.canonical_reason().unwrap_or(""),
        Err(_) => "",
    }
}

/// Appends the bytes where the condition holds.
fn add_if(text: &mut Vec<u8>, condition: bool, bytes: &[u8]) -> Result<(), AllocError>
    ensures { OnOk result (text.new.items ≡ text.old.items ++ (if condition then bytes.now else [])) }
{
    if condition {
        text.extend_from_slice(bytes)?;
    }
    Ok(())
}

/// The status line.
fn status_line(alloc: Global, status: u16) -> Result<Vec<u8>, AllocError>
    ensures { IfOk result (λ text. text.items ≡ status_line status) }
{
    let mut text = Vec::from_slice(alloc, b"HTTP/1.1 ")?;
    text.extend_from_slice(Buffer::new().format(status).as_bytes())?;
    text.extend_from_slice(b" ")?;
    text.extend_from_slice(phrase(status).as_bytes())?;
    text.extend_from_slice(b"\r\n")?;
    Ok(text)
}

/// What stands before the body's fields.
fn start(alloc: Global, date: &[u8], closes: bool, status: u16) -> Result<Vec<u8>, AllocError>
    ensures { IfOk result (λ text. text.items ≡ reply_start date.now closes status) }
{
    let mut text = status_line(alloc, status)?;
    add_line(&mut text, b"Date: ", date)?;
    add_if(&mut text, closes, b"Connection: close\r\n")?;
    add_if(&mut text, status == 405, b"Allow: POST\r\n")?;
    Ok(text)
}

/// Appends the head fields of a line of that many bytes.
fn add_line_fields(text: &mut Vec<u8>, size: usize) -> Result<(), AllocError>
    ensures { OnOk result (text.new.items ≡ text.old.items ++ line_fields size) }
{
    add_line(
        text,
        b"Content-Type: text/plain\r\nContent-Length: ",
        Buffer::new().format(size).as_bytes(),
    )
}

/// Appends the head fields of a body.
fn add_fields(alloc: Global, text: &mut Vec<u8>, body: &HttpBody) -> Result<(), Memory>
    ensures { OnOk result (text.new.items ≡ text.old.items ++ body_fields body.now) }
{
    match body {
        HttpBody::Nothing => text.extend_from_slice(b"Content-Length: 0\r\n")?,
        HttpBody::Words(line) => add_line_fields(text, line.text().len() + 1)?,
        HttpBody::Report { out, bytes } => write_head_fields(
            alloc,
            text,
            out,
            bytes.as_slice().len(),
        )?,
    }
    Ok(())
}

/// Appends the bytes of a body.
fn add_content(text: &mut Vec<u8>, body: &HttpBody) -> Result<(), AllocError>
    ensures { OnOk result (text.new.items ≡ text.old.items ++ content body.now) }
{
    match body {
        HttpBody::Nothing => {}
        HttpBody::Words(line) => {
            text.extend_from_slice(line.text().as_bytes())?;
            text.extend_from_slice(b"\n")?;
        }
        HttpBody::Report { bytes, .. } => text.extend_from_slice(bytes.as_slice())?,
    }
    Ok(())
}

/// The reply that an answer is at a moment.
pub fn write_reply(
    alloc: Global,
    moment: Moment,
    form: Form,
    answer: &HttpAnswer,
) -> Result<Vec<u8>, Memory>
    ensures { IfOk result (λ text. IsReply moment form answer.now text.items) }
{
    let mut text = start(alloc, &date_of(moment), form.closes, answer.status)?;
    add_fields(alloc, &mut text, &answer.body)?;
    text.extend_from_slice(b"\r\n")?;
    if !form.to_head {
        add_content(&mut text, &answer.body)?;
    }
    Ok(text)
}

/// The answer to bytes that no request begins with.
pub fn refusal(reason: RequestFault) -> HttpAnswer
    ensures { result ≡ refusal (refusal_line reason) }
{
    let line = match reason {
        RequestFault::BadHead => Line::BadRequestHead,
        RequestFault::TransferCoding => Line::UnsupportedCoding,
        RequestFault::BadLength => Line::BadContentLength,
        RequestFault::BadChunk => Line::BadChunkedBody,
        RequestFault::TooLarge => Line::BodyTooLarge,
        RequestFault::NoLength => Line::LengthRequired,
    };
    line.answer()
}
