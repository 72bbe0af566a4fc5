//! What is to be sent next.

/// What is to be sent next.
#[derive(Clone, Copy, Debug, PartialEq, Eq)]
pub enum Next {
    /// The receipt of this number.
    Receipt(u64),
    /// The document of this number.
    Document(u64),
}
