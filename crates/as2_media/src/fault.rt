//! Why a text is no media type.

/// Why a text is no media type: the first fault, those of the type and subtype before those of the parameters, which
/// count from the left (RFC 2045, section 5.1).
#[derive(Clone, Copy, Debug, PartialEq, Eq)]
pub enum TypeFault {
    /// There is no `/` before the first `;`.
    NoSlash,
    /// The text before the first `;` isn't two tokens with `/` between them.
    BadToken,
    /// A parameter isn't a token, `=` and a value.
    BadParameter,
    /// There are more than eight parameters.
    TooMany,
}
