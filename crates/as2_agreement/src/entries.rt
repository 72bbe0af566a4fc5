//! The entries of the agreements, and how many there may be.

// The entries of the two arrays.
ghost use Rattle.std.specs.Prelude.{◌≡◌, []};
ghost use Rattle.toml.specs.View.{view, items_view, table_view};
ghost use Rattle.as2_agreement.specs.Agreements.{organizations_limit, partners_limit};
ghost use Rattle.as2_agreement.specs.Reading.{GivesOrMemory, organization, organizations, partner, partners, each};

use crate::fault::AgreementFault;
use crate::key::Key;
use crate::partner::{Organization, Partner};
use crate::terms::{content_type_at, digest_at, name_at, receipt_at, url_at};
use crate::texts::{ContentType, UrlText};
use crate::values::{count_at, entries_at, table_of};
use std::alloc::Global;
use toml::{Table, Value};

/// The most organizations.
pub(crate) const ORGANIZATIONS_LIMIT: usize = 64;

/// The most partners.
pub(crate) const PARTNERS_LIMIT: usize = 256;

/// The most tries of a document.
const TRIES_LIMIT: u64 = 99;

/// The most seconds of a span: 365 days.
const SECONDS_LIMIT: u64 = 31_536_000;

/// The organization that an entry is, with those before it.
pub(crate) fn organization(
    before: &[Organization],
    entry: &Value,
) -> Result<Organization, AgreementFault>
    ensures { result ≡ organization before.now (view entry.now) }
{
    let table = table_of(entry, Key::Organization)?;
    let name = name_at(table, before, &[])?;
    Ok(Organization { name })
}

/// The organizations that the entries are.
pub(crate) fn each_organization(
    alloc: Global,
    entries: &[Value],
) -> Result<Vec<Organization>, AgreementFault>
    ensures { GivesOrMemory (λ v. v.items) result (each organization [] (items_view entries.now)) }
{
    let mut kept = Vec::new(alloc);
    for entry in entries {
        let next = organization(&kept, entry)?;
        kept.push(next)?;
    }
    Ok(kept)
}

/// The organizations of a document.
pub(crate) fn organizations(
    alloc: Global,
    document: &Table,
) -> Result<Vec<Organization>, AgreementFault>
    ensures { GivesOrMemory (λ v. v.items) result (organizations (table_view document.now)) }
{
    each_organization(
        alloc,
        entries_at(document, Key::Organization, ORGANIZATIONS_LIMIT)?,
    )
}

/// The partner that an entry is, with the organizations and the partners before it.
pub(crate) fn partner(
    alloc: Global,
    organizations: &[Organization],
    before: &[Partner],
    entry: &Value,
) -> Result<Partner, AgreementFault>
    ensures { GivesOrMemory (λ p. p) result (partner organizations.now before.now (view entry.now)) }
{
    let table = table_of(entry, Key::Partner)?;
    let name = name_at(table, organizations, before)?;
    let url = url_at(table)?;
    let receipt = receipt_at(table)?;
    let digest = digest_at(table)?;
    let content_type = content_type_at(table)?;
    let max_tries = count_at(table, Key::MaxTries, TRIES_LIMIT)?;
    let retry_seconds = count_at(table, Key::RetrySeconds, SECONDS_LIMIT)?;
    let overdue_seconds = count_at(table, Key::OverdueSeconds, SECONDS_LIMIT)?;
    Ok(Partner {
        name,
        url: UrlText::keep(alloc, url)?,
        receipt,
        digest,
        content_type: ContentType::keep(alloc, content_type)?,
        max_tries,
        retry_seconds,
        overdue_seconds,
    })
}

/// The partners that the entries are.
fn each_partner(
    alloc: Global,
    organizations: &[Organization],
    entries: &[Value],
) -> Result<Vec<Partner>, AgreementFault>
    ensures { GivesOrMemory (λ v. v.items) result (each (partner organizations.now) [] (items_view entries.now)) }
{
    let mut kept = Vec::new(alloc);
    for entry in entries {
        let next = partner(alloc, organizations, &kept, entry)?;
        kept.push(next)?;
    }
    Ok(kept)
}

/// The partners of a document, with its organizations.
pub(crate) fn partners(
    alloc: Global,
    organizations: &[Organization],
    document: &Table,
) -> Result<Vec<Partner>, AgreementFault>
    ensures { GivesOrMemory (λ v. v.items) result (partners organizations.now (table_view document.now)) }
{
    each_partner(
        alloc,
        organizations,
        entries_at(document, Key::Partner, PARTNERS_LIMIT)?,
    )
}
