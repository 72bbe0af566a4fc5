//! Texts without the blanks and line ends at their ends.

ghost use Rattle.std.specs.Prelude.{◌≡◌};
ghost use Rattle.as2_names.specs.Trim.{falls_off, without_front, without_back, trimmed_text};

use crate::blanks::is_blank;

/// The text behind the blanks and line ends that it begins with.
fn without_front(text: &[u8]) -> &[u8]
    ensures { result.now ≡ without_front text.now }
{
    let mut rest = text;
    while let [b, behind @ ..] = rest {
        if !falls_off(*b, behind) {
            break;
        }
        rest = behind;
    }
    rest
}

/// The text up to the blanks and line ends that it ends with.
fn without_back(text: &[u8]) -> &[u8]
    ensures { result.now ≡ without_back text.now }
{
    let mut end = 0;
    for i in 0..text.len() {
        if !falls_off(text[i], &text[i + 1..]) {
            end = i + 1;
        }
    }
    &text[..end]
}

/// Whether the byte, with that text behind it, is a blank or is of a line end.
fn falls_off(b: u8, behind: &[u8]) -> bool
    ensures { result ≡ falls_off b behind.now }
{
    is_blank(b) || b == b'\n' || (b == b'\r' && behind.first() == Some(&b'\n'))
}

/// The part of a text without the blanks and line ends at its two ends (RFC 5322, section 2.2). A line end is LF, with
/// the CR just before it if there is one.
pub fn without_blanks_and_line_ends(text: &[u8]) -> &[u8]
    ensures { result.now ≡ trimmed_text text.now }
{
    without_back(without_front(text))
}
