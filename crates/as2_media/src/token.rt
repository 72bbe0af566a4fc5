//! Tokens (RFC 2045, section 5.1).

// Tokens and the classes of bytes that values are made of.
ghost use Rattle.std.specs.Prelude.{◌≡◌};
ghost use Rattle.std.specs.List.{list_all};
ghost use Rattle.as2_media.specs.Bytes.{is_token_byte, is_token, is_line_byte, is_bare_byte};

fn is_token_byte(b: u8) -> bool
    ensures { result ≡ is_token_byte b }
{
    b > b' ' && b <= b'~' && !b"()<>@,;:\\\"/[]?=".contains(&b)
}

fn all_token_bytes(text: &[u8]) -> bool
    ensures { result ≡ list_all is_token_byte text.now }
{
    text.iter().all(|b| is_token_byte(*b))
}

/// Whether the text is a token: one or more visible bytes, none of them a mark that may stand in quotes only (RFC 2045,
/// section 5.1).
pub fn is_token(text: &[u8]) -> bool
    ensures { result ≡ is_token text.now }
{
    !text.is_empty() && all_token_bytes(text)
}

/// CR or LF, of which neither stands in a value.
pub(crate) fn is_line_byte(b: u8) -> bool
    ensures { result ≡ is_line_byte b }
{
    b == b'\r' || b == b'\n'
}

fn is_bare_byte(b: u8) -> bool
    ensures { result ≡ is_bare_byte b }
{
    b != b';' && b != b'"' && !is_line_byte(b)
}

pub(crate) fn all_bare_bytes(text: &[u8]) -> bool
    ensures { result ≡ list_all is_bare_byte text.now }
{
    text.iter().all(|b| is_bare_byte(*b))
}
