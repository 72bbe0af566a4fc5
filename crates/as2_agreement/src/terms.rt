//! The terms of a partner, read from its table.

// The keys of an organization's and of a partner's entry.
ghost use Rattle.std.specs.Prelude.{◌≡◌, IfOk};
ghost use Rattle.std.specs.List.{list_any};
ghost use Rattle.std.specs.Str.{bytes_eq};
ghost use Rattle.toml.specs.View.{table_view};
ghost use Rattle.as2_agreement.specs.Values.{IsAddress, IsContentType, is_address, is_content_type, is_document_type};
ghost use Rattle.as2_media.specs.MediaTypes.{media_type_reading};
ghost use Rattle.as2_agreement.specs.Agreements.{names};
ghost use Rattle.as2_agreement.specs.Reading.{IsSeenAs, agreed_name, readable_name, free, asked_named, digest_named, agreed_address, url, agreed_receipt, agreed_digest, content_type, content_type_in};

use crate::fault::AgreementFault;
use crate::key::Key;
use crate::partner::{Asked, Organization, Partner};
use crate::values::text_at;
use as2_mic::Alg;
use as2_text::{AsName, Kind, MediaType, Url, all_printable};
use toml::Table;

/// Whether an organization has the name.
fn is_organization(organizations: &[Organization], name: &AsName) -> bool
    ensures { result ≡ list_any (λ o. bytes_eq name.now o.name) organizations.now }
{
    organizations.iter().any(|o| name.bytes() == o.name.bytes())
}

/// Whether a partner has the name.
fn is_partner(partners: &[Partner], name: &AsName) -> bool
    ensures { result ≡ list_any (λ p. bytes_eq name.now p.name) partners.now }
{
    partners.iter().any(|p| name.bytes() == p.name.bytes())
}

/// Whether an organization or a partner has the name. There are at most 320, so each is looked at.
fn is_taken(organizations: &[Organization], partners: &[Partner], name: &AsName) -> bool
    ensures { result ≡ list_any (bytes_eq name.now) (names organizations.now partners.now) }
{
    is_organization(organizations, name) || is_partner(partners, name)
}

/// The name of an entry, which no organization and no partner before may have.
pub(crate) fn name_at(
    entry: &Table,
    organizations: &[Organization],
    partners: &[Partner],
) -> Result<AsName, AgreementFault>
    ensures { result ≡ agreed_name (names organizations.now partners.now) (table_view entry.now) }
{
    let text = text_at(entry, Key::Name)?;
    let name = AsName::plain(text.as_bytes()).map_err(|_| AgreementFault::BadName)?;
    if is_taken(organizations, partners, &name) {
        Err(AgreementFault::NameTwice)
    } else {
        Ok(name)
    }
}

/// Whether the text is an address of an HTTP service.
fn is_address(text: &[u8]) -> bool
    ensures { result ≡ is_address text.now }
{
    Url::parse(text).is_some()
}

/// The text, where it is an address.
pub(crate) fn address_in(key: Key, text: &str) -> Result<&str, AgreementFault>
    ensures gives { IsSeenAs (λ s. s.now) result (agreed_address key text.now) }
    ensures address { IfOk result (λ s. IsAddress s.now) }
{
    if is_address(text.as_bytes()) {
        Ok(text)
    } else {
        Err(AgreementFault::BadUrl(key))
    }
}

/// The address of a partner.
pub(crate) fn url_at(entry: &Table) -> Result<&str, AgreementFault>
    ensures gives { IsSeenAs (λ s. s.now) result (url (table_view entry.now)) }
    ensures address { IfOk result (λ s. IsAddress s.now) }
{
    address_in(Key::Url, text_at(entry, Key::Url)?)
}

fn asked_named(word: &str) -> Option<Asked>
    ensures { result ≡ asked_named word.now }
{
    match word {
        "none" => Some(Asked::NoReceipt),
        "sync" => Some(Asked::Sync),
        "async" => Some(Asked::Async),
        _ => None,
    }
}

/// How a partner is asked for receipts.
pub(crate) fn receipt_at(entry: &Table) -> Result<Asked, AgreementFault>
    ensures { result ≡ agreed_receipt (table_view entry.now) }
{
    asked_named(text_at(entry, Key::Receipt)?).ok_or(AgreementFault::WrongKind(Key::Receipt))
}

fn digest_named(word: &str) -> Option<Alg>
    ensures { result ≡ digest_named word.now }
{
    match word {
        "sha1" => Some(Alg::Sha1),
        "md5" => Some(Alg::Md5),
        "sha-256" => Some(Alg::Sha256),
        _ => None,
    }
}

/// The digest that a partner is asked for.
pub(crate) fn digest_at(entry: &Table) -> Result<Alg, AgreementFault>
    ensures { result ≡ agreed_digest (table_view entry.now) }
{
    digest_named(text_at(entry, Key::Digest)?).ok_or(AgreementFault::WrongKind(Key::Digest))
}

/// Whether the text is the media type of a document.
fn is_document_type(text: &[u8]) -> bool
    ensures { result ≡ is_document_type (media_type_reading text.now) }
{
    match MediaType::parse(text) {
        Ok(media) => matches!(media.kind(), Kind::Document),
        Err(_) => false,
    }
}

/// Whether the text may be agreed as a content type.
fn is_content_type(text: &[u8]) -> bool
    ensures { result ≡ is_content_type text.now }
{
    !text.is_empty() && text.len() <= 255 && all_printable(text) && is_document_type(text)
}

/// The content type of documents for a partner.
pub(crate) fn content_type_at(entry: &Table) -> Result<&str, AgreementFault>
    ensures gives { IsSeenAs (λ s. s.now) result (content_type (table_view entry.now)) }
    ensures content_type { IfOk result (λ s. IsContentType s.now) }
{
    let text = text_at(entry, Key::ContentType)?;
    if is_content_type(text.as_bytes()) {
        Ok(text)
    } else {
        Err(AgreementFault::WrongKind(Key::ContentType))
    }
}
