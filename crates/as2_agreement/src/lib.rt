//! Agreements with partners, read from TOML: the station's own names, and its partners with their terms.
#![tactic(auto)]

mod agreements;
mod document;
mod entries;
mod fault;
mod key;
mod partner;
mod places;
mod terms;
mod texts;
mod unknown;
mod values;

pub use agreements::Agreements;
pub use fault::AgreementFault;
pub use key::Key;
pub use partner::{Asked, Organization, Partner};
pub use places::{Entry, Place};
pub use texts::{ContentType, UrlText};
pub use unknown::{Holder, Unknown};
