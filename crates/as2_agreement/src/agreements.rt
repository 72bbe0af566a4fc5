//! Agreements as they are in force: the organizations, the partners and the limits.

ghost use Rattle.std.specs.Prelude.{◌≡◌, ◌⊎◌, ℕ, ◌≤◌, List, length, option_map, IfOk, IfSome, Some, Ok, Err};
ghost use Rattle.std.specs.List.{Contains};
ghost use Rattle.toml.specs.View.{table_view};
ghost use Rattle.as2_agreement.specs.Agreements.{AgreedValues, AreAgreements, IsAgreement, organization_of, partner_named, wants_return};
ghost use Rattle.as2_agreement.specs.Partners.{IsPartner};
ghost use Rattle.as2_agreement.specs.Reading.{GivesOrMemory, OrMemory, agreements, agreements_reading};
ghost use Rattle.as2_agreement.specs.declared.partner.Organization.{Organization as OneOrganization};
ghost use Rattle.as2_agreement.specs.declared.partner.Partner.{Partner as OnePartner};
ghost use Rattle.as2_agreement.specs.declared.fault.AgreementFault.TheVariants.{Memory};

use crate::document::{domain, return_url};
use crate::entries::{organizations, partners};
use crate::fault::AgreementFault;
use crate::partner::{Asked, Organization, Partner};
use crate::texts::UrlText;
use as2_text::{AsName, Domain};
use std::alloc::Global;
use std::marker::Model;
use toml::Table;

/// Agreements: the station's domain and address, its own names, and its partners with their terms. No name stands in
/// them twice.
#[derive(Drop)]
pub struct Agreements {
    domain: Domain,
    return_url: Option<UrlText>,
    organizations: Vec<Organization>,
    partners: Vec<Partner>,
}

impl Model for Agreements {
    ghost Value = { AgreedValues };

    ghost view = { λ a. record { domain = a.domain; return_url = a.return_url; organizations = a.organizations.items; partners = a.partners.items } };

    ghost invariant = { λ a. AreAgreements (record { domain = a.domain; return_url = a.return_url; organizations = a.organizations.items; partners = a.partners.items }) };
}

/// Whether some partner is asked for receipts that come later.
fn wants_return(partners: &[Partner]) -> bool
    ensures { result ≡ wants_return partners.now }
{
    partners.iter().any(|p| matches!(p.receipt, Asked::Async))
}

/// The agreements of a document.
fn read_document(alloc: Global, document: &Table) -> Result<Agreements, AgreementFault>
    ensures { GivesOrMemory (λ a. a) result (agreements (table_view document.now)) }
{
    let domain = domain(document)?;
    let return_url = return_url(alloc, document)?;
    let organizations = organizations(alloc, document)?;
    let partners = partners(alloc, &organizations, document)?;
    if wants_return(&partners) && return_url.is_none() {
        return Err(AgreementFault::NoReturnUrl);
    }
    Ok(Agreements {
        domain,
        return_url,
        organizations,
        partners,
    })
}

fn organization_named<'a>(
    organizations: &'a [Organization],
    name: &AsName,
) -> Option<&'a Organization>
    ensures { option_map (λ o. o.now) result ≡ organization_of name.now organizations.now }
{
    organizations
        .iter()
        .find(|o| o.name.bytes() == name.bytes())
}

fn partner_named<'a>(partners: &'a [Partner], name: &AsName) -> Option<&'a Partner>
    ensures { option_map (λ p. p.now) result ≡ partner_named name.now partners.now }
{
    partners.iter().find(|p| p.name.bytes() == name.bytes())
}

impl Agreements {
    /// Reads agreements from TOML. The faults are looked for in the order of the keys, `Memory` aside.
    pub fn read(alloc: Global, text: &str) -> Result<Agreements, AgreementFault>
        // What is read is what the text has.
        ensures found { IfOk result (IsAgreement text.now) }
        // What the text has is read, or there was no memory.
        ensures only { (a : AgreedValues) → IsAgreement text.now a → (result ≡ Ok a) ⊎ (result ≡ Err Memory) }
        // Which fault it is; memory may be wanting in place of any answer.
        ensures exact { OrMemory result (agreements_reading text.now) }
    {
        match toml::table_from_str(alloc, text) {
            Ok(document) => read_document(alloc, &document),
            Err(error) => {
                if error.is_memory() {
                    Err(AgreementFault::Memory)
                } else {
                    Err(AgreementFault::NotToml)
                }
            }
        }
    }

    /// The station's domain.
    pub fn domain(&self) -> &Domain
        ensures { result.now ≡ self.now.domain }
    {
        &self.domain
    }

    /// The address at which the station takes receipts that come later, if there is one.
    pub fn return_url(&self) -> Option<&UrlText>
        ensures { option_map (λ u. u.now) result ≡ self.now.return_url }
    {
        self.return_url.as_ref()
    }

    /// The organization of that name; None where no organization has it.
    pub fn organization(&self, name: &AsName) -> Option<&Organization>
        // Who is found has the name.
        ensures found { IfSome result (λ o. o.now.name ≡ name.now) }
        // Who has the name is found.
        ensures only { (o : OneOrganization) → Contains self.now.organizations o → o.name ≡ name.now
            → option_map (λ o. o.now) result ≡ Some o }
        ensures exact { option_map (λ o. o.now) result ≡ organization_of name.now self.now.organizations }
    {
        organization_named(&self.organizations, name)
    }

    /// The partner of that name; None where no partner has it.
    pub fn partner(&self, name: &AsName) -> Option<&Partner>
        // Who is found has the name, and terms that may be agreed.
        ensures found { IfSome result (λ p. (p.now.name ≡ name.now) × IsPartner p.now) }
        // Who has the name is found.
        ensures only { (p : OnePartner) → Contains self.now.partners p → p.name ≡ name.now
            → option_map (λ p. p.now) result ≡ Some p }
        ensures exact { option_map (λ p. p.now) result ≡ partner_named name.now self.now.partners }
    {
        partner_named(&self.partners, name)
    }

    /// How many organizations and how many partners there are.
    pub fn counts(&self) -> (u64, u64)
        ensures organizations { result.0 ≡ length self.now.organizations }
        ensures partners { result.1 ≡ length self.now.partners }
        // What holds of all agreements: among it, that no name stands in them twice.
        ensures agreements { AreAgreements self.now }
    {
        (self.organizations.len() as u64, self.partners.len() as u64)
    }
}
