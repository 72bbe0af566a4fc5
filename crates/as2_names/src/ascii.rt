//! Bytes of US-ASCII by their kinds.

// Classes of bytes.
ghost use Rattle.std.specs.Prelude.{◌≡◌};
ghost use Rattle.std.specs.List.{list_all};
ghost use Rattle.as2_names.specs.Ascii.{is_printable};

/// Whether the byte is a printable ASCII byte.
pub(crate) fn is_printable(b: u8) -> bool
    ensures { result ≡ is_printable b }
{
    matches!(b, b' '..=b'~')
}

/// Whether each byte is a printable ASCII byte: the space or a visible one.
pub fn all_printable(bytes: &[u8]) -> bool
    ensures { result ≡ list_all is_printable bytes.now }
{
    bytes.iter().all(|b| is_printable(*b))
}
