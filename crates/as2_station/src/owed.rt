//! Tries of receipts that are sent by a request of their own: each is committed before its request is handed out.
ghost use Rattle.std.specs.Prelude.{◌≡◌, ◌<◌, Some, IsTrue, true};
ghost use Rattle.as2_agreement.specs.Partners.{IsPartner};
ghost use Rattle.as2_exchange.specs.OwedReceipts.{is_pending, is_shut, begun_receipt, closed_receipt};
ghost use Rattle.as2_exchange.specs.Receipts.{is_delivery};
ghost use Rattle.as2_exchange.specs.State.{received_entry};
ghost use Rattle.as2_exchange.specs.Step.{on_received};
ghost use Rattle.as2_station.specs.OwedTries.{end_answer, ended_receipt, tried_receipt, receipt_try_refusal};
ghost use Rattle.as2_station.specs.Said.{answer_of, said_to_begin, said_to_outcome};
ghost use Rattle.as2_station.specs.Steps.{Does, always};

use crate::agreed::agreed_partner;
use crate::closing::is_success;
use crate::said::{Became, Begun, Ended};
use crate::terms::Terms;
use crate::trying::is_early;
use as2_agreement::{Agreements, Partner};
use as2_exchange::{
    Attempt, InEntry, ReceiptDelivery, ReceiptStage, Refusal, RowPlace, StoreFault, Table,
    TryAnswer,
};
use as2_posts::receipt_job;
use as2_records::{ReceiptProgress, Records};
use as2_text::Moment;
use std::alloc::Global;

/// Whether the receipt is still to be sent.
fn is_pending(entry: &InEntry) -> bool
    ensures { result ≡ is_pending entry.now.receipt_stage }
{
    matches!(entry.receipt_stage, ReceiptStage::Pending)
}

/// Why no try of the receipt may begin, if none may.
fn try_refusal(partner: &Partner, entry: &InEntry, moment: Moment) -> Option<Refusal>
    ensures { result ≡ receipt_try_refusal partner.now entry.now moment }
{
    if !is_pending(entry) {
        return Some(Refusal::AllSettled);
    }
    if entry.tries >= partner.max_tries {
        return Some(Refusal::TriesUsed);
    }
    if is_early(moment, entry.due) {
        return Some(Refusal::NotDue);
    }
    None
}

/// How far the receipt has come once a try has begun.
fn tried(partner: &Partner, entry: &InEntry, moment: Moment) -> ReceiptProgress
    requires terms { IsPartner partner.now }
    requires left { entry.now.tries < partner.now.max_tries }
    ensures { result ≡ tried_receipt partner.now entry.now moment }
{
    let tries = entry.tries + 1;
    if tries >= partner.max_tries {
        return ReceiptProgress {
            receipt_stage: entry.receipt_stage,
            tries,
            attempt: Attempt::Last,
            due: None,
        };
    }
    ReceiptProgress {
        receipt_stage: entry.receipt_stage,
        tries,
        attempt: Attempt::Running,
        due: Some(moment.seconds() + partner.retry_seconds),
    }
}

/// Begins a try of the receipt of this entry, unless that is refused. An entry whose receipt is to be sent has an address: where it
/// is kept that it has none, its row is damaged.
fn begin_found<R: Records>(
    records: &mut R,
    alloc: Global,
    agreements: &Agreements,
    entry: &InEntry,
    moment: Moment,
) -> Result<Begun, StoreFault>
    requires open { (R.shows records.old).IsClean → IsTrue (R.shows records.old).is_open }
    ensures taken { Does (λ s. Some (on_received s entry.now.number (begun_receipt agreements.now moment)))
        (λ s. received_entry s entry.now.number ≡ Some entry.now) (true
        ≡ true) said_to_begin (R.shows records.old) (R.shows records.new) result }
{
    let partner = match agreed_partner(agreements, &entry.posted.receiver, &entry.posted.sender) {
        Ok(partner) => partner,
        Err(reason) => return Ok(Err(reason)),
    };
    if let Some(reason) = try_refusal(partner, entry, moment) {
        return Ok(Err(reason));
    }
    let progress = tried(partner, entry, moment);
    let ReceiptDelivery::Async(address) = &entry.posted.how else {
        return Err(StoreFault::Damaged(RowPlace {
            table: Table::Inbox,
            number: entry.number,
        }));
    };
    let job = receipt_job(alloc, agreements, entry.number, &entry.posted, address)?;
    records.set_receipt(entry.number, progress)?;
    Ok(Ok(job))
}

/// Begins a try of the receipt of the entry of this number.
pub fn begin_receipt<R: Records>(
    records: &mut R,
    alloc: Global,
    agreements: &Agreements,
    number: u64,
    moment: Moment,
) -> Result<Begun, StoreFault>
    ensures taken { Does (λ s. Some (on_received s number (begun_receipt agreements.now moment))) always (true
        ≡ true) said_to_begin (R.shows records.old) (R.shows records.new) result }
{
    match records.find_in_number(alloc, number)? {
        Some(entry) => begin_found(records, alloc, agreements, &entry, moment),
        None => Ok(Err(Refusal::NoSuchNumber)),
    }
}

/// Whether an answer says success.
fn is_delivery(answer: &TryAnswer) -> bool
    ensures { result ≡ is_delivery answer.now }
{
    match answer {
        TryAnswer::NoAnswer => false,
        TryAnswer::Reply { status, .. } => is_success(*status),
    }
}

/// Whether it has no open try.
fn is_shut(attempt: Attempt) -> bool
    ensures { result ≡ is_shut attempt }
{
    matches!(attempt, Attempt::Idle | Attempt::Used)
}

/// How far the receipt has come once its try has ended, by an answer of success or without one.
fn after_try(partner: &Partner, entry: &InEntry, delivered: bool, moment: Moment) -> ReceiptProgress
    requires terms { IsPartner partner.now }
    ensures { result ≡ ended_receipt delivered partner.now entry.now moment }
{
    let (receipt_stage, attempt, due) = if delivered {
        (ReceiptStage::Sent, Attempt::Idle, None)
    } else if matches!(entry.attempt, Attempt::Last) {
        (entry.receipt_stage, Attempt::Used, None)
    } else {
        (
            entry.receipt_stage,
            Attempt::Idle,
            Some(moment.seconds() + partner.retry_seconds),
        )
    };
    ReceiptProgress {
        receipt_stage,
        tries: entry.tries,
        attempt,
        due,
    }
}

/// What became of a try that has ended by an answer of success, or without one.
fn end_became(delivered: bool) -> Became
    ensures { answer_of result ≡ end_answer delivered }
{
    if delivered {
        Became::Delivered
    } else {
        Became::TryFailed
    }
}

/// Takes the outcome of a try of the receipt of this entry, unless none is open.
fn close_found<R: Records>(
    records: &mut R,
    agreements: &Agreements,
    entry: &InEntry,
    answer: &TryAnswer,
    moment: Moment,
) -> Result<Ended, StoreFault>
    requires open { (R.shows records.old).IsClean → IsTrue (R.shows records.old).is_open }
    ensures taken { Does (λ s. Some (on_received s entry.now.number (closed_receipt agreements.now answer.now moment)))
        (λ s. received_entry s entry.now.number ≡ Some entry.now) (true
        ≡ true) said_to_outcome (R.shows records.old) (R.shows records.new) result }
{
    let partner = match agreed_partner(agreements, &entry.posted.receiver, &entry.posted.sender) {
        Ok(partner) => partner,
        Err(reason) => return Ok(Err(reason)),
    };
    if !is_pending(entry) {
        return Ok(Ok(Became::AlreadySettled));
    }
    if is_shut(entry.attempt) {
        return Ok(Err(Refusal::NoOpenTry));
    }
    let delivered = is_delivery(answer);
    records.set_receipt(entry.number, after_try(partner, entry, delivered, moment))?;
    Ok(Ok(end_became(delivered)))
}

/// Takes the outcome of a try of the receipt of the entry of this number.
pub(crate) fn close_receipt<R: Records>(
    records: &mut R,
    terms: &Terms<'_>,
    number: u64,
    answer: TryAnswer,
) -> Result<Ended, StoreFault>
    ensures taken { Does
        (λ s. Some (on_received s number (closed_receipt terms.now.agreements.now answer terms.now.moment)))
        always (true ≡ true) said_to_outcome (R.shows records.old) (R.shows records.new) result }
{
    match records.find_in_number(terms.alloc, number)? {
        Some(entry) => close_found(records, terms.agreements, &entry, &answer, terms.moment),
        None => Ok(Err(Refusal::NoSuchNumber)),
    }
}
