//! Tries of documents: each is committed before its request is handed out.
ghost use Rattle.std.specs.Prelude.{◌≡◌, ◌<◌, ℕ, Some, IsTrue, true};
ghost use Rattle.as2_agreement.specs.Partners.{IsPartner};
ghost use Rattle.as2_exchange.specs.Documents.{begun_document, waits};
ghost use Rattle.as2_exchange.specs.State.{document};
ghost use Rattle.as2_exchange.specs.Step.{on_document};
ghost use Rattle.as2_exchange.specs.Tries.{is_early};
ghost use Rattle.as2_station.specs.Said.{said_to_begin};
ghost use Rattle.as2_station.specs.Steps.{Does, always};
ghost use Rattle.as2_station.specs.Trying.{progress_after_try, try_refusal};

use crate::agreed::agreed_partner;
use crate::said::Begun;
use as2_agreement::{Agreements, Partner};
use as2_exchange::{Attempt, OutEntry, Refusal, StoreFault};
use as2_mdn::Detail;
use as2_posts::document_job;
use as2_records::{Progress, Records};
use as2_text::Moment;
use std::alloc::Global;

/// Whether a document waits for what no try can bring.
fn waits(detail: Detail) -> bool
    ensures { result ≡ waits detail }
{
    matches!(
        detail,
        Detail::Awaiting | Detail::Overdue | Detail::NoReceiptAsked
    )
}

/// Whether it is due only after this moment.
pub fn is_early(moment: Moment, due: Option<u64>) -> bool
    ensures { result ≡ is_early moment due }
{
    match due {
        Some(due) => moment.seconds() < due,
        None => false,
    }
}

/// Why no try of the document may begin, if none may.
fn try_refusal(partner: &Partner, document: &OutEntry, moment: Moment) -> Option<Refusal>
    ensures { result ≡ try_refusal partner.now document.now moment }
{
    if document.evidence.is_some() {
        return Some(Refusal::AllSettled);
    }
    if document.tries >= partner.max_tries {
        return Some(Refusal::TriesUsed);
    }
    if waits(document.detail) || is_early(moment, document.due) {
        return Some(Refusal::NotDue);
    }
    None
}

/// How far the document has come once a try has begun.
fn tried(partner: &Partner, document: &OutEntry, moment: Moment) -> Progress
    requires terms { IsPartner partner.now }
    requires left { document.now.tries < partner.now.max_tries }
    ensures { result ≡ progress_after_try partner.now document.now moment }
{
    let tries = document.tries + 1;
    let attempt = if tries >= partner.max_tries {
        Attempt::Last
    } else {
        Attempt::Running
    };
    Progress {
        tries,
        attempt,
        due: Some(moment.seconds() + partner.retry_seconds),
        detail: Detail::Sending,
    }
}

/// Begins a try of this document, unless that is refused.
fn begin_found<R: Records>(
    records: &mut R,
    alloc: Global,
    agreements: &Agreements,
    entry: &OutEntry,
    moment: Moment,
) -> Result<Begun, StoreFault>
    requires open { (R.shows records.old).IsClean → IsTrue (R.shows records.old).is_open }
    ensures taken { Does (λ s. Some (on_document s entry.now.number (begun_document agreements.now moment)))
        (λ s. document s entry.now.number ≡ Some entry.now) (true
        ≡ true) said_to_begin (R.shows records.old) (R.shows records.new) result }
{
    let partner = match agreed_partner(agreements, &entry.organization, &entry.partner) {
        Ok(partner) => partner,
        Err(reason) => return Ok(Err(reason)),
    };
    if let Some(reason) = try_refusal(partner, entry, moment) {
        return Ok(Err(reason));
    }
    let progress = tried(partner, entry, moment);
    let job = document_job(alloc, agreements, partner, entry)?;
    records.set_out(entry.number, progress)?;
    Ok(Ok(job))
}

/// Begins a try of the document of this number.
pub fn begin<R: Records>(
    records: &mut R,
    alloc: Global,
    agreements: &Agreements,
    number: u64,
    moment: Moment,
) -> Result<Begun, StoreFault>
    ensures taken { Does (λ s. Some (on_document s number (begun_document agreements.now moment))) always (true
        ≡ true) said_to_begin (R.shows records.old) (R.shows records.new) result }
{
    match records.find_out(alloc, number)? {
        Some(document) => begin_found(records, alloc, agreements, &document, moment),
        None => Ok(Err(Refusal::NoSuchNumber)),
    }
}
