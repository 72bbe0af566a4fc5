//! Whether the agreements let a document or a receipt be sent.
ghost use Rattle.std.specs.Prelude.{◌≡◌, Ok, Err, IfOk, IfErr};
ghost use Rattle.as2_agreement.specs.Partners.{IsPartner};
ghost use Rattle.as2_station.specs.Trying.{agreed_partner};

use as2_agreement::{Agreements, Partner};
use as2_exchange::Refusal;
use as2_text::AsName;

/// The partner of that name, where the organization is one of ours. Answers UnknownOrganization, or else UnknownPartner.
pub fn agreed_partner<'a>(
    agreements: &'a Agreements,
    organization: &AsName,
    partner: &AsName,
) -> Result<&'a Partner, Refusal>
    ensures agreed { IfOk result (λ p. agreed_partner agreements.now organization.now partner.now ≡ Ok p.now) }
    ensures terms { IfOk result (λ p. IsPartner p.now) }
    ensures refused { IfErr result (λ reason. agreed_partner agreements.now organization.now partner.now ≡ Err reason) }
{
    if agreements.organization(organization).is_none() {
        return Err(Refusal::UnknownOrganization);
    }
    match agreements.partner(partner) {
        Some(partner) => Ok(partner),
        None => Err(Refusal::UnknownPartner),
    }
}
