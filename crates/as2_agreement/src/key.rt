//! The keys that a file of agreements may have.

ghost use Rattle.std.specs.Prelude.{◌≡◌, Some};
ghost use Rattle.as2_agreement.specs.Keys.{key_name};

use std::fmt;

/// A key of agreements.
#[derive(Clone, Copy, Debug, PartialEq, Eq)]
pub enum Key {
    /// The domain that the station writes into its identifiers.
    Domain,
    /// The address at which the station takes receipts that come later.
    ReturnUrl,
    /// The array of the organizations.
    Organization,
    /// The array of the partners.
    Partner,
    /// The AS2 name of an organization or a partner.
    Name,
    /// The address at which a partner takes documents.
    Url,
    /// How a partner is asked for receipts.
    Receipt,
    /// The digest that a partner is asked for.
    Digest,
    /// The content type of documents for a partner.
    ContentType,
    /// How often a document is tried.
    MaxTries,
    /// The seconds from a try to the next one.
    RetrySeconds,
    /// The seconds after which a receipt is overdue.
    OverdueSeconds,
}

impl Key {
    /// The key as the file spells it.
    pub fn name(self) -> &'static str
        ensures { result.now ≡ key_name self }
    {
        match self {
            Key::Domain => "domain",
            Key::ReturnUrl => "return_url",
            Key::Organization => "organization",
            Key::Partner => "partner",
            Key::Name => "name",
            Key::Url => "url",
            Key::Receipt => "receipt",
            Key::Digest => "digest",
            Key::ContentType => "content_type",
            Key::MaxTries => "max_tries",
            Key::RetrySeconds => "retry_seconds",
            Key::OverdueSeconds => "overdue_seconds",
        }
    }
}

impl fmt::Display for Key {
    ghost output = { λ key. Some (key_name key) };

    fn fmt<W: fmt::Write>(&self, f: &mut fmt::Formatter<W>) -> fmt::Result {
        f.write_str(self.name())
    }
}
