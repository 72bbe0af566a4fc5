//! A partner, and what was agreed with it.

use crate::texts::{ContentType, UrlText};
use as2_mic::Alg;
use as2_text::AsName;

/// How a partner is asked for receipts (RFC 4130, section 7.3).
#[derive(Clone, Copy, Debug, PartialEq, Eq)]
pub enum Asked {
    /// It isn't.
    NoReceipt,
    /// In the answer to the document.
    Sync,
    /// Later, by a request of its own.
    Async,
}

/// An organization: one of the station's own names.
#[derive(Drop)]
pub struct Organization {
    /// The AS2 name.
    pub name: AsName,
}

/// A partner and the terms agreed with it.
#[derive(Drop)]
pub struct Partner {
    /// The AS2 name.
    pub name: AsName,
    /// The address at which it takes documents.
    pub url: UrlText,
    /// How it is asked for receipts.
    pub receipt: Asked,
    /// The digest that its receipts are asked to use.
    pub digest: Alg,
    /// The content type of documents for it.
    pub content_type: ContentType,
    /// How often a document is tried: 1 to 99.
    pub max_tries: u64,
    /// The seconds from a try to the next one: 1 to 31,536,000.
    pub retry_seconds: u64,
    /// The seconds after which a receipt that was to come later is overdue: 1 to 31,536,000.
    pub overdue_seconds: u64,
}
