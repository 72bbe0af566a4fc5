//! The delimiters and the closing line of a multipart body (RFC 2046, section 5.1.1).
ghost use Rattle.std.specs.Prelude.{◌≡◌, ◌∷◌, [], option_map, Some, IfSome, IfNone};
ghost use Rattle.std.specs.List.{concat, list_all, list_any};
ghost use Rattle.as2_names.specs.Blanks.{is_blank};
ghost use Rattle.as2_parts.specs.Lines.{lines, behind, behind_boundary, is_hyphens, is_delimiter, is_closing, is_mark};
ghost use Rattle.as2_parts.specs.Parts.{before_mark, from_mark};

use crate::lines::{first_line, without_line_end};
use as2_names::is_blank;

/// What stands behind that front of a text that begins so.
fn behind<'a>(text: &'a [u8], front: &[u8]) -> Option<&'a [u8]>
    ensures { option_map (λ rest. rest.now) result ≡ behind front.now text.now }
{
    text.strip_prefix(front)
}

/// What stands behind `--boundary` in a line that begins so, without its line end.
fn behind_boundary<'a>(line: &'a [u8], boundary: &[u8]) -> Option<&'a [u8]>
    ensures { option_map (λ rest. rest.now) result ≡ behind_boundary boundary.now line.now }
{
    match behind(without_line_end(line), b"--") {
        Some(rest) => behind(rest, boundary),
        None => None,
    }
}

/// Whether the text is blanks, or empty.
fn is_blanks(text: &[u8]) -> bool
    ensures { result ≡ list_all is_blank text.now }
{
    text.iter().all(|b| is_blank(*b))
}

/// Whether the text is `--` and blanks.
fn is_hyphens(text: &[u8]) -> bool
    ensures { result ≡ is_hyphens (Some text.now) }
{
    match text {
        [b'-', b'-', blanks @ ..] => is_blanks(blanks),
        _ => false,
    }
}

/// Whether the line is `--boundary` and blanks.
fn is_delimiter(line: &[u8], boundary: &[u8]) -> bool
    ensures { result ≡ is_delimiter boundary.now line.now }
{
    match behind_boundary(line, boundary) {
        Some(rest) => is_blanks(rest),
        None => false,
    }
}

/// Whether the line is `--boundary--` and blanks.
pub fn is_closing(line: &[u8], boundary: &[u8]) -> bool
    ensures { result ≡ is_closing boundary.now line.now }
{
    match behind_boundary(line, boundary) {
        Some(rest) => is_hyphens(rest),
        None => false,
    }
}

/// A delimiter or the closing line.
fn is_mark(line: &[u8], boundary: &[u8]) -> bool
    ensures { result ≡ is_mark boundary.now line.now }
{
    is_delimiter(line, boundary) || is_closing(line, boundary)
}

/// Where a delimiter or the closing line stands in a text.
#[derive(Clone, Copy)]
pub struct Mark<'a> {
    /// What stands before that line.
    pub before: &'a [u8],
    /// The line.
    pub line: &'a [u8],
    /// What stands behind it.
    pub after: &'a [u8],
}

/// The first delimiter or closing line of a text.
pub fn next_mark<'a>(text: &'a [u8], boundary: &[u8]) -> Option<Mark<'a>>
    ensures found { IfSome result (λ m. from_mark boundary.now (lines text.now) ≡ m.line.now ∷ lines m.after.now) }
    ensures front { IfSome result (λ m. concat (before_mark boundary.now (lines text.now)) ≡ m.before.now) }
    ensures none { IfNone result (from_mark boundary.now (lines text.now) ≡ []) }
{
    let mut length = 0;
    let mut rest = text;
    while !rest.is_empty() {
        let (line, after) = first_line(rest);
        if is_mark(line, boundary) {
            return Some(Mark {
                before: &text[..length],
                line,
                after,
            });
        }
        length += line.len();
        rest = after;
    }
    None
}

/// Whether a line of the text is a closing line.
pub fn has_closing(text: &[u8], boundary: &[u8]) -> bool
    ensures { result ≡ list_any (is_closing boundary.now) (lines text.now) }
{
    let mut rest = text;
    while !rest.is_empty() {
        let (line, after) = first_line(rest);
        if is_closing(line, boundary) {
            return true;
        }
        rest = after;
    }
    false
}
