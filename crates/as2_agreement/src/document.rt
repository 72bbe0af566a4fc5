//! The members of a document of agreements that stand outside its entries.

// The keys of a document besides the two arrays.
ghost use Rattle.std.specs.Prelude.{◌≡◌, option_map, IfOk, IfSome};
ghost use Rattle.toml.specs.View.{table_view};
ghost use Rattle.as2_agreement.specs.Values.{value_at, IsAddress};
ghost use Rattle.as2_agreement.specs.Reading.{IsSeenAs, GivesOrMemory, domain, return_url_in};
ghost use Rattle.as2_agreement.specs.declared.key.Key.TheVariants.{ReturnUrl};

use crate::fault::AgreementFault;
use crate::key::Key;
use crate::terms::address_in;
use crate::texts::UrlText;
use crate::values::{text_at, value_at};
use as2_text::Domain;
use std::alloc::Global;
use toml::Table;

/// The domain of a document.
pub(crate) fn domain(document: &Table) -> Result<Domain, AgreementFault>
    ensures { result ≡ domain (table_view document.now) }
{
    let text = text_at(document, Key::Domain)?;
    Domain::of(text.as_bytes()).ok_or(AgreementFault::WrongKind(Key::Domain))
}

/// The address for receipts that come later, which may be absent.
pub(crate) fn return_url(alloc: Global, document: &Table) -> Result<Option<UrlText>, AgreementFault>
    ensures { GivesOrMemory (λ u. u) result (return_url_in (value_at ReturnUrl (table_view document.now))) }
{
    let Some(value) = value_at(document, Key::ReturnUrl) else {
        return Ok(None);
    };
    let fault = AgreementFault::WrongKind(Key::ReturnUrl);
    let text = address_in(Key::ReturnUrl, value.as_str().ok_or(fault)?)?;
    Ok(Some(UrlText::keep(alloc, text)?))
}
