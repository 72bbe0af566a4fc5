//! What a body is by its media type: a document, a report, or one that is secured.

/// What a body is, told by its media type.
#[derive(Clone, Copy, Debug, PartialEq, Eq)]
pub enum Kind {
    /// A document, neither wrapped nor a report.
    Document,
    /// An enveloped body (RFC 8551, section 3.3).
    Enveloped,
    /// A compressed body (RFC 8551, section 3.6).
    Compressed,
    /// A signed body (RFC 8551, section 3.5).
    Signed,
    /// A report of a disposition notification (RFC 6522, section 3; RFC 8098, section 3).
    Report,
}
