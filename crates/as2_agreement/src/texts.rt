//! Texts of the agreements: names, addresses and content types.

ghost use Rattle.std.specs.Prelude.{◌≡◌, ℕ, List, IfOk, string_bytes};
ghost use Rattle.as2_agreement.specs.Values.{IsAddress, IsContentType};

use std::alloc::{AllocError, Global};
use std::marker::Model;

/// The text of an address of an HTTP service, at most 1,024 bytes.
#[derive(Drop)]
pub struct UrlText {
    address: String,
}

impl Model for UrlText {
    ghost Value = { List ℕ };

    ghost view = { λ u. string_bytes u.address };

    ghost invariant = { λ u. IsAddress (string_bytes u.address) };
}

impl UrlText {
    /// Keeps an address.
    pub(crate) fn keep(alloc: Global, text: &str) -> Result<UrlText, AllocError>
        requires { IsAddress text.now }
        ensures { IfOk result (λ url. url ≡ text.now) }
    {
        Ok(UrlText {
            address: String::from_str(alloc, text)?,
        })
    }

    /// The text.
    pub fn as_str(&self) -> &str
        ensures text { result.now ≡ self.now }
        ensures address { IsAddress self.now }
    {
        self.address.as_str()
    }
}

/// A content type of documents: 1 to 255 printable bytes.
#[derive(Drop)]
pub struct ContentType {
    media_type: String,
}

impl Model for ContentType {
    ghost Value = { List ℕ };

    ghost view = { λ c. string_bytes c.media_type };

    ghost invariant = { λ c. IsContentType (string_bytes c.media_type) };
}

impl ContentType {
    /// Keeps a content type.
    pub(crate) fn keep(alloc: Global, text: &str) -> Result<ContentType, AllocError>
        requires { IsContentType text.now }
        ensures { IfOk result (λ content_type. content_type ≡ text.now) }
    {
        Ok(ContentType {
            media_type: String::from_str(alloc, text)?,
        })
    }

    /// The text.
    pub fn as_str(&self) -> &str
        ensures text { result.now ≡ self.now }
        ensures content_type { IsContentType self.now }
    {
        self.media_type.as_str()
    }
}
