//! Documents that failed, and are to be sent anew.
ghost use Rattle.std.specs.Prelude.{◌≡◌, Some, IsTrue, true};
ghost use Rattle.as2_exchange.specs.Documents.{resent_document};
ghost use Rattle.as2_exchange.specs.State.{document};
ghost use Rattle.as2_exchange.specs.Step.{on_document};
ghost use Rattle.as2_station.specs.Resending.{resend_refusal};
ghost use Rattle.as2_station.specs.Said.{said_to_resend};
ghost use Rattle.as2_station.specs.Steps.{Does, always};

use crate::said::Resent;
use as2_agreement::Agreements;
use as2_exchange::{OutEntry, Refusal, StoreFault};
use as2_mdn::DetailClass;
use as2_records::Records;
use as2_text::Moment;
use std::alloc::Global;

/// Why the document isn't sent anew, if it isn't: its sender is no organization any more, its receiver is no partner, a receipt
/// has settled it, or it hasn't failed.
fn refusal_of(agreements: &Agreements, document: &OutEntry) -> Option<Refusal>
    ensures { result ≡ resend_refusal agreements.now document.now }
{
    if agreements.organization(&document.organization).is_none() {
        return Some(Refusal::UnknownOrganization);
    }
    if agreements.partner(&document.partner).is_none() {
        return Some(Refusal::UnknownPartner);
    }
    if document.evidence.is_some() {
        return Some(Refusal::AllSettled);
    }
    match document.detail.class() {
        DetailClass::E => None,
        _ => Some(Refusal::NotDue),
    }
}

/// Queues this document to be sent anew, unless that is refused.
fn resend_found<R: Records>(
    records: &mut R,
    agreements: &Agreements,
    entry: &OutEntry,
    moment: Moment,
) -> Result<Resent, StoreFault>
    requires open { (R.shows records.old).IsClean → IsTrue (R.shows records.old).is_open }
    ensures taken { Does (λ s. Some (on_document s entry.now.number (resent_document agreements.now moment)))
        (λ s. document s entry.now.number ≡ Some entry.now) (true
        ≡ true) said_to_resend (R.shows records.old) (R.shows records.new) result }
{
    if let Some(reason) = refusal_of(agreements, entry) {
        return Ok(Err(reason));
    }
    records.resend(entry.number, moment)?;
    Ok(Ok(()))
}

/// Queues the document of this number to be sent anew.
pub fn resend<R: Records>(
    records: &mut R,
    alloc: Global,
    agreements: &Agreements,
    number: u64,
    moment: Moment,
) -> Result<Resent, StoreFault>
    ensures taken { Does (λ s. Some (on_document s number (resent_document agreements.now moment))) always (true
        ≡ true) said_to_resend (R.shows records.old) (R.shows records.new) result }
{
    match records.find_out(alloc, number)? {
        Some(document) => resend_found(records, agreements, &document, moment),
        None => Ok(Err(Refusal::NoSuchNumber)),
    }
}
