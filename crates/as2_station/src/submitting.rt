//! Documents that are handed in for a partner: each gets the next number.
ghost use Rattle.std.specs.Prelude.{◌≡◌, None, Some, Ok, Err, is_none, true, false};
ghost use Rattle.as2_exchange.specs.Documents.{submit};
ghost use Rattle.as2_exchange.specs.declared.answer.Refusal.{Refusal as TheRefusal};
ghost use Rattle.as2_mdn.specs.declared.detail.Detail.TheVariants.{New};
ghost use Rattle.as2_exchange.specs.declared.attempt.Attempt.TheVariants.{Idle};
ghost use Rattle.as2_station.specs.Heads.{submit_refusal};
ghost use Rattle.as2_station.specs.Said.{said_to_submit};
ghost use Rattle.as2_station.specs.Steps.{Does, always};

use crate::said::{NewDocument, Submitted};
use as2_agreement::Agreements;
use as2_exchange::{Attempt, CONTENT_LIMIT, OutEntry, Refusal, StoreFault};
use as2_mdn::Detail;
use as2_mic::Pieces;
use as2_posts::out_id;
use as2_records::Records;
use as2_text::{AsName, MessageId, Moment};
use std::alloc::Global;

/// Why a document that is handed in is refused, if it is: its sender is no organization, its receiver is no partner, or it has
/// more than 1,048,576 bytes.
fn refusal_of(
    agreements: &Agreements,
    organization: &AsName,
    partner: &AsName,
    content: &Pieces,
) -> Option<Refusal>
    ensures { result ≡ submit_refusal agreements.now organization.now partner.now content.now }
{
    if agreements.organization(organization).is_none() {
        return Some(Refusal::UnknownOrganization);
    }
    if agreements.partner(partner).is_none() {
        return Some(Refusal::UnknownPartner);
    }
    if content.len() > CONTENT_LIMIT {
        return Some(Refusal::TooLarge);
    }
    None
}

/// A document as it is taken in.
fn new_document(number: u64, document: NewDocument, id: MessageId, moment: Moment) -> OutEntry
    ensures { result
        ≡ record {
          number = number;
          organization = document.organization;
          partner = document.partner;
          id = id;
          content = document.content;
          moment = moment;
          begun = false;
          tries = 0;
          attempt = Idle;
          due = Some moment;
          detail = New;
          evidence = None;
        } }
{
    let NewDocument {
        organization,
        partner,
        content,
    } = document;
    OutEntry {
        number,
        organization,
        partner,
        id,
        content,
        moment,
        begun: false,
        tries: 0,
        attempt: Attempt::Idle,
        due: Some(moment.seconds()),
        detail: Detail::New,
        evidence: None,
    }
}

/// Takes a document in for a partner, under the next number, unless it is refused.
pub fn submit<R: Records>(
    records: &mut R,
    alloc: Global,
    agreements: &Agreements,
    document: NewDocument,
    moment: Moment,
) -> Result<Submitted, StoreFault>
    ensures taken { Does (λ s. submit agreements.now s document.organization document.partner document.content moment)
        always (is_none (submit_refusal agreements.now document.organization document.partner document.content)
        ≡ true) said_to_submit (R.shows records.old) (R.shows records.new) result }
    ensures refused { (reason : TheRefusal)
        → submit_refusal agreements.now document.organization document.partner document.content ≡ Some reason
        → result ≡ Ok (Err reason) }
    ensures same { (reason : TheRefusal)
        → submit_refusal agreements.now document.organization document.partner document.content ≡ Some reason
        → records.new ≡ records.old }
{
    if let Some(reason) = refusal_of(
        agreements,
        &document.organization,
        &document.partner,
        &document.content,
    ) {
        return Ok(Err(reason));
    }
    let number = records.next_numbers()?.document;
    let id = out_id(alloc, agreements, number)?;
    records.add_out(&new_document(number, document, id, moment))?;
    Ok(Ok(number))
}
