//! Texts without the blanks at their ends (RFC 9110, section 5.6.3).

ghost use Rattle.std.specs.Prelude.{◌≡◌, reverse};
ghost use Rattle.as2_names.specs.Blanks.{is_blank, skip_blanks, without_blanks};

/// A space or a tab.
pub fn is_blank(b: u8) -> bool
    ensures { result ≡ is_blank b }
{
    b == b' ' || b == b'\t'
}

fn without_leading(mut text: &[u8]) -> &[u8]
    ensures { result.now ≡ skip_blanks text.now }
{
    while let [first, rest @ ..] = text
        && is_blank(*first)
    {
        text = rest;
    }
    text
}

fn without_trailing(mut text: &[u8]) -> &[u8]
    ensures { result.now ≡ reverse (skip_blanks (reverse text.now)) }
{
    while let [rest @ .., last] = text
        && is_blank(*last)
    {
        text = rest;
    }
    text
}

/// The part of a text without the blanks, spaces and tabs, at its two ends (RFC 9110, section 5.6.3).
pub fn without_blanks(text: &[u8]) -> &[u8]
    ensures { result.now ≡ without_blanks text.now }
{
    without_trailing(without_leading(text))
}
