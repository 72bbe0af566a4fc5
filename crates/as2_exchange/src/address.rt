//! The address that a receipt is to be posted to.

ghost use Rattle.std.specs.Prelude.{◌≡◌, IfOk, IsTrue, is_some};
ghost use Rattle.as2_text.specs.Addresses.{url_of};

use as2_text::Memory;
use std::alloc::Global;
use std::marker::Model;

/// The address of an HTTP service, kept as it was spelled (RFC 3986, section 3; RFC 9110, section 4.2.1).
#[derive(Drop)]
pub struct Address {
    text: Vec<u8>,
}

impl Model for Address {
    ghost use Rattle.std.specs.Prelude.{ℕ, List, IsTrue, is_some};
    ghost use Rattle.as2_text.specs.Addresses.{url_of};

    ghost Value = { List ℕ };

    ghost view = { λ a. a.text.items };

    ghost invariant = { λ a. IsTrue (is_some (url_of a.text.items)) };
}

impl Address {
    /// Keeps an address.
    pub fn keep(alloc: Global, text: &[u8]) -> Result<Address, Memory>
        requires { IsTrue (is_some (url_of text.now)) }
        ensures { IfOk result (λ address. address ≡ text.now) }
    {
        let text = Vec::from_slice(alloc, text)?;
        Ok(Address { text })
    }

    /// The text.
    pub fn as_slice(&self) -> &[u8]
        ensures text { result.now ≡ self.now }
        ensures address { IsTrue (is_some (url_of self.now)) }
    {
        &self.text
    }
}
