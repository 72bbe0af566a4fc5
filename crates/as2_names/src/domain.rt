//! Domains, which stand behind the `@` of an identifier.

ghost use Rattle.std.specs.Prelude.{◌≡◌, ℕ, List, ⊤};
ghost use Rattle.std.specs.List.{list_all};
ghost use Rattle.as2_names.specs.Domains.{IsDomain, domain_of, is_domain, is_domain_byte};

use arrayvec::ArrayVec;
use std::alloc::AllocError;
use std::marker::Model;

/// A domain: 1 to 253 letters, digits, hyphens and dots.
#[derive(Drop)]
pub struct Domain {
    kept: ArrayVec<u8, 253>,
}

impl Model for Domain {
    ghost Value = { List ℕ };

    ghost view = { λ d. d.kept.items };

    ghost invariant = { λ d. IsDomain d.kept.items };
}

fn is_domain_byte(b: u8) -> bool
    ensures { result ≡ is_domain_byte b }
{
    b.is_ascii_alphanumeric() || b == b'-' || b == b'.'
}

fn all_domain_bytes(bytes: &[u8]) -> bool
    ensures { result ≡ list_all is_domain_byte bytes.now }
{
    bytes.iter().all(|b| is_domain_byte(*b))
}

/// Whether the bytes are a domain, or a host of that form: 1 to 253 letters, digits, hyphens and dots.
pub fn is_domain(bytes: &[u8]) -> bool
    ensures { result ≡ is_domain bytes.now }
{
    !bytes.is_empty() && bytes.len() <= 253 && all_domain_bytes(bytes)
}

impl Domain {
    /// The domain that the bytes are; None where they are no domain.
    pub fn of(bytes: &[u8]) -> Option<Domain>
        ensures { result ≡ domain_of bytes.now }
    {
        if !is_domain(bytes) {
            return None;
        }
        let mut kept = ArrayVec::new();
        kept.try_extend_from_slice(bytes).unwrap();
        Some(Domain { kept })
    }

    /// The bytes of the domain.
    pub fn bytes(&self) -> &[u8]
        ensures bytes { result.now ≡ self.now }
        ensures domain { IsDomain self.now }
    {
        self.kept.as_slice()
    }
}

impl Clone for Domain {
    ghost is_clone = { λ m n. n ≡ m };

    // It takes no memory.
    ghost is_infallible = { λ _. ⊤ };

    fn clone(&self) -> Result<Domain, AllocError> {
        let mut kept = ArrayVec::new();
        kept.try_extend_from_slice(self.bytes()).unwrap();
        Ok(Domain { kept })
    }
}
