//! Why a text has no agreements.

ghost use Rattle.std.specs.Prelude.{◌≡◌};
ghost use Rattle.as2_agreement.specs.Keys.{fault_name, fault_key};
ghost use Rattle.as2_agreement.specs.declared.fault.AgreementFault.TheVariants.{Memory};

use crate::key::Key;
use std::alloc::{AllocError, AllocFailed};

/// Why a text has no agreements: the first fault in the order of the keys.
#[derive(Clone, Copy, Debug, PartialEq, Eq)]
pub enum AgreementFault {
    /// The text is no TOML document.
    NotToml,
    /// The key isn't there.
    Missing(Key),
    /// The value of the key is of another type, or not one that the key may have.
    WrongKind(Key),
    /// The name isn't 1 to 128 printable bytes (RFC 4130, section 6.2).
    BadName,
    /// An organization or a partner before has the name.
    NameTwice,
    /// The text is no address of an HTTP service.
    BadUrl(Key),
    /// The number is below the least or above the most that the key may have.
    OutOfRange(Key),
    /// Some partner is asked for receipts that come later, and there is no address for them.
    NoReturnUrl,
    /// There are more than 64 organizations, or more than 256 partners.
    TooMany,
    /// There was no memory; it may come in place of any answer.
    Memory,
}

impl AgreementFault {
    /// The word for the fault in messages, without the key.
    pub fn name(self) -> &'static str
        ensures { result.now ≡ fault_name self }
    {
        match self {
            AgreementFault::NotToml => "NotToml",
            AgreementFault::Missing(_) => "Missing",
            AgreementFault::WrongKind(_) => "WrongKind",
            AgreementFault::BadName => "BadName",
            AgreementFault::NameTwice => "NameTwice",
            AgreementFault::BadUrl(_) => "BadUrl",
            AgreementFault::OutOfRange(_) => "OutOfRange",
            AgreementFault::NoReturnUrl => "NoReturnUrl",
            AgreementFault::TooMany => "TooMany",
            AgreementFault::Memory => "Memory",
        }
    }

    /// The key that is at fault, where the fault names one.
    pub fn key(self) -> Option<Key>
        ensures { result ≡ fault_key self }
    {
        match self {
            AgreementFault::Missing(key)
            | AgreementFault::WrongKind(key)
            | AgreementFault::BadUrl(key)
            | AgreementFault::OutOfRange(key) => Some(key),
            _ => None,
        }
    }
}

impl From<AllocError> for AgreementFault {
    ghost from_gives = { λ _ e. e ≡ Memory };

    fn from(_error: AllocError) -> AgreementFault {
        AgreementFault::Memory
    }
}

impl<T: Drop> From<AllocFailed<T>> for AgreementFault {
    ghost from_gives = { λ _ e. e ≡ Memory };

    fn from(_error: AllocFailed<T>) -> AgreementFault {
        AgreementFault::Memory
    }
}
