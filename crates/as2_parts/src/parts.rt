//! The two parts of a report (RFC 2046, section 5.1).

ghost use Rattle.std.specs.Prelude.{◌≡◌, IfOk, Ok};
ghost use Rattle.as2_parts.specs.Lines.{without_line_end};
ghost use Rattle.std.specs.Result.{result_err};
ghost use Rattle.as2_parts.specs.Parts.{IsTwoParts, PartText, part_in, parts_reading, part_fault, part_text, parts_result};

use crate::lines::{first_line, is_empty_line, without_line_end};
use crate::marks::{has_closing, is_closing, next_mark};

/// A part of a multipart body (RFC 2046, section 5.1): slices of the body.
#[derive(Clone, Copy, Debug, PartialEq, Eq)]
pub struct Part<'a> {
    /// The text before the first empty line, all of the part where it has none.
    pub head: &'a [u8],
    /// The text behind that line.
    pub content: &'a [u8],
}

/// Why a body hasn't two parts: the first that fits in the order `NoDelimiter`, `NotClosed`, `OnePart`.
#[derive(Clone, Copy, Debug, PartialEq, Eq)]
pub enum PartFault {
    /// No delimiter stands before the closing line.
    NoDelimiter,
    /// One delimiter alone stands before the closing line.
    OnePart,
    /// There is no closing line.
    NotClosed,
}

/// The part that is written in a text.
pub fn part_in(text: &[u8]) -> Part<'_>
    ensures { part_text result ≡ part_in text.now }
{
    let mut length = 0;
    let mut rest = text;
    while !rest.is_empty() {
        let (line, after) = first_line(rest);
        if is_empty_line(line) {
            return Part {
                head: &text[..length],
                content: after,
            };
        }
        length += line.len();
        rest = after;
    }
    Part {
        head: text,
        content: rest,
    }
}

/// The first two parts of a body, or its first fault.
fn read_parts<'a>(body: &'a [u8], boundary: &[u8]) -> Result<(Part<'a>, Part<'a>), PartFault>
    ensures { parts_result result ≡ parts_reading boundary.now body.now }
{
    let Some(opening) = next_mark(body, boundary) else {
        return Err(PartFault::NoDelimiter);
    };
    if is_closing(opening.line, boundary) {
        return Err(PartFault::NoDelimiter);
    }
    let Some(between) = next_mark(opening.after, boundary) else {
        return Err(PartFault::NotClosed);
    };
    if is_closing(between.line, boundary) {
        return Err(PartFault::OnePart);
    }
    let Some(end) = next_mark(between.after, boundary) else {
        return Err(PartFault::NotClosed);
    };
    if !is_closing(end.line, boundary) && !has_closing(end.after, boundary) {
        return Err(PartFault::NotClosed);
    }
    Ok((
        part_in(without_line_end(between.before)),
        part_in(without_line_end(end.before)),
    ))
}

/// The first two parts of a multipart body (RFC 2046, section 5.1.1). The boundary is any bytes, and is read literally.
/// Only what stands before the first closing line counts; the line end before a delimiter belongs to the delimiter.
pub fn two_parts<'a>(body: &'a [u8], boundary: &[u8]) -> Result<(Part<'a>, Part<'a>), PartFault>
    // What is found are the parts of the body.
    ensures found { IfOk result (λ parts. IsTwoParts boundary.now body.now (part_text parts.0) (part_text parts.1)) }
    // Where the body has two parts, they are found.
    ensures only { (first second : PartText) → IsTwoParts boundary.now body.now first second
        → parts_result result ≡ Ok (first, second) }
    // The fault is the first in the order NoDelimiter, NotClosed, OnePart.
    ensures fault { result_err result ≡ part_fault boundary.now body.now }
    // The answer is the one that the function gives.
    ensures exact { parts_result result ≡ parts_reading boundary.now body.now }
{
    read_parts(body, boundary)
}
