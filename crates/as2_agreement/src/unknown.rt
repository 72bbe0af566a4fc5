//! Keys that no agreement has, which an operator is warned of.

// Keys of a text that agreements don't have.
ghost use Rattle.std.specs.Prelude.{◌≡◌, false, IfSome, string_bytes};
ghost use Rattle.as2_agreement.specs.Unknown.{IsUnknown, is_known};

use crate::agreements::Agreements;
use crate::key::Key;
use crate::values::value_at;
use std::alloc::Global;
use toml::{Table, Value};

/// The keys of a document.
const OF_DOCUMENT: [Key; 4] = [Key::Domain, Key::ReturnUrl, Key::Organization, Key::Partner];

/// The keys of an organization.
const OF_ORGANIZATION: [Key; 1] = [Key::Name];

/// The keys of a partner.
const OF_PARTNER: [Key; 8] = [
    Key::Name,
    Key::Url,
    Key::Receipt,
    Key::Digest,
    Key::ContentType,
    Key::MaxTries,
    Key::RetrySeconds,
    Key::OverdueSeconds,
];

/// What a key stands in.
#[derive(Clone, Copy, Debug, PartialEq, Eq)]
pub enum Holder {
    /// The document itself.
    Document,
    /// The organization of this number, from 1.
    Organization(usize),
    /// The partner of this number, from 1.
    Partner(usize),
}

/// A key that agreements don't have, so that it is ignored.
#[derive(Drop)]
pub struct Unknown {
    /// The key.
    pub key: String,
    /// What it stands in.
    pub holder: Holder,
}

/// Whether the text is one of the keys.
fn is_known(known: &[Key], text: &str) -> bool
    ensures { result ≡ is_known known.now text.now }
{
    known.iter().any(|key| key.name() == text)
}

/// The first key of a table that is none of these; None also where memory was wanting.
fn unknown_among(alloc: Global, known: &[Key], table: &Table) -> Option<String>
    ensures { IfSome result (λ key. is_known known.now (string_bytes key) ≡ false) }
{
    for key in table.keys() {
        if !is_known(known, key.as_str()) {
            return String::from_str(alloc, key.as_str()).ok();
        }
    }
    None
}

/// The first such key in the entries of an array, with the number of its entry.
fn unknown_in(alloc: Global, known: &[Key], entries: Option<&Value>) -> Option<(usize, String)>
    ensures { IfSome result (λ found. is_known known.now (string_bytes found.1) ≡ false) }
{
    let entries = entries?.as_array()?;
    let mut number = 0usize;
    for entry in entries {
        number = number.saturating_add(1);
        if let Some(key) = unknown_among(alloc, known, entry.as_table()?) {
            return Some((number, key));
        }
    }
    None
}

/// The first key of a document that agreements don't have.
fn unknown_of(alloc: Global, document: &Table) -> Option<Unknown>
    ensures { IfSome result IsUnknown }
{
    if let Some(key) = unknown_among(alloc, &OF_DOCUMENT, document) {
        let holder = Holder::Document;
        return Some(Unknown { key, holder });
    }
    let organizations = value_at(document, Key::Organization);
    if let Some((number, key)) = unknown_in(alloc, &OF_ORGANIZATION, organizations) {
        let holder = Holder::Organization(number);
        return Some(Unknown { key, holder });
    }
    let partners = value_at(document, Key::Partner);
    let (number, key) = unknown_in(alloc, &OF_PARTNER, partners)?;
    let holder = Holder::Partner(number);
    Some(Unknown { key, holder })
}

impl Agreements {
    /// A key of a text that agreements don't have. It is the first as keys are sorted, in the document, then in its organizations, then
    /// in its partners. None where there is no such key, the text is no document, or memory was wanting.
    pub fn unknown_key(alloc: Global, text: &str) -> Option<Unknown>
        ensures { IfSome result IsUnknown }
    {
        match toml::table_from_str(alloc, text) {
            Ok(document) => unknown_of(alloc, &document),
            Err(_) => None,
        }
    }
}
