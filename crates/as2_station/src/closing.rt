//! Outcomes of tries: the receipt for the document settles it, or the answer says how the try ended.
ghost use Rattle.std.specs.Prelude.{◌≡◌, IfOk, Some, IsTrue, true, option_map, option_and_then};
ghost use Rattle.as2_agreement.specs.Partners.{IsPartner};
ghost use Rattle.as2_exchange.specs.Documents.{closed_document, closed_by, if_for};
ghost use Rattle.as2_exchange.specs.Readings.{report_in, verdict};
ghost use Rattle.as2_exchange.specs.Receipts.{is_success, receipt_in_answer};
ghost use Rattle.as2_exchange.specs.State.{AllDigests, document};
ghost use Rattle.as2_exchange.specs.declared.event.TryAnswer.TheVariants.{Reply};
ghost use Rattle.as2_exchange.specs.Step.{on_document};
ghost use Rattle.as2_posts.specs.Openings.{receipt_as};
ghost use Rattle.as2_station.specs.Closing.{LeavesUnsettled, progress_after_failure, ended_document, settled_by, without_receipt};
ghost use Rattle.as2_station.specs.Said.{said_to_outcome};
ghost use Rattle.as2_station.specs.Steps.{Does, always};

use crate::agreed::agreed_partner;
use crate::receipts::{bears, evidence_of};
use crate::said::{Became, Ended};
use crate::terms::Terms;
use as2_agreement::{Asked, Partner};
use as2_exchange::{Attempt, Evidence, OutEntry, Refusal, RowPlace, StoreFault, Table, TryAnswer};
use as2_mdn::{Detail, read_report, verdict_pieces};
use as2_mic::Pieces;
use as2_posts::{Opened, open_answer};
use as2_records::{Progress, Records};
use as2_text::{Head, Memory, Moment};
use std::alloc::Global;

/// The status and the head of an HTTP answer.
#[derive(Drop)]
struct AnswerHead<'a> {
    status: u16,
    head: &'a Head,
}

/// How a try of a document ends.
#[derive(Drop)]
pub enum End {
    /// The receipt for the document came in the answer, and settles it.
    ByReceipt {
        /// What it says of the content.
        detail: Detail,
        /// What is kept of it.
        evidence: Evidence,
    },
    /// An answer of success came without it; so far the document has come.
    Delivered(Progress),
    /// Neither came; so far the document has come.
    Failed(Progress),
}

/// A status of success (RFC 9110, section 15.3).
pub fn is_success(status: u16) -> bool
    ensures { result ≡ is_success status }
{
    200 <= status && status < 300
}

/// How far the document has come once its try has failed.
fn after_failure(partner: &Partner, document: &OutEntry, moment: Moment) -> Progress
    requires terms { IsPartner partner.now }
    ensures { result ≡ progress_after_failure partner.now moment document.now }
{
    if matches!(document.attempt, Attempt::Last) {
        return Progress {
            tries: document.tries,
            attempt: Attempt::Idle,
            due: None,
            detail: Detail::TriesUsed,
        };
    }
    Progress {
        tries: document.tries,
        attempt: Attempt::Idle,
        due: Some(moment.seconds() + partner.retry_seconds),
        detail: Detail::Retry,
    }
}

/// How a try ends by an answer of success that brought no receipt for the document.
fn without_receipt(partner: &Partner, document: &OutEntry, moment: Moment) -> End
    requires terms { IsPartner partner.now }
    ensures { result ≡ without_receipt partner.now.receipt partner.now moment document.now }
{
    let (due, detail) = match partner.receipt {
        Asked::Async => (
            Some(moment.seconds() + partner.overdue_seconds),
            Detail::Awaiting,
        ),
        Asked::NoReceipt => (None, Detail::NoReceiptAsked),
        Asked::Sync => return End::Failed(after_failure(partner, document, moment)),
    };
    End::Delivered(Progress {
        tries: document.tries,
        attempt: Attempt::Idle,
        due,
        detail,
    })
}

/// How a try ends by the receipt for the document, where the body is one.
fn by_receipt(
    alloc: Global,
    opened: &Opened<'_>,
    body: Pieces,
    document: &OutEntry,
    moment: Moment,
) -> Result<Option<End>, Memory>
    ensures { IfOk result (λ end. option_map (λ e. ended_document e document.now) end
        ≡ option_map (settled_by moment document.now)
        (option_and_then (if_for document.now) (receipt_as AllDigests opened.now body))) }
{
    let report = body.joined()?;
    let Ok(receipt) = read_report(&opened.media, &report) else {
        return Ok(None);
    };
    if !bears(opened, &receipt, document) {
        return Ok(None);
    }
    let detail = verdict_pieces(&receipt, &document.content);
    let evidence = evidence_of(alloc, opened, body, moment)?;
    Ok(Some(End::ByReceipt { detail, evidence }))
}

/// How a try ends by an HTTP answer.
fn by_reply(
    terms: &Terms<'_>,
    partner: &Partner,
    document: &OutEntry,
    answered: &AnswerHead<'_>,
    body: Pieces,
) -> Result<End, Memory>
    requires terms { IsPartner partner.now }
    ensures { IfOk result (λ end. ended_document end document.now
        ≡ closed_by partner.now (Reply answered.now.status answered.now.head.now body) terms.now.moment document.now
        (option_and_then (if_for document.now)
        (receipt_in_answer AllDigests (Reply answered.now.status answered.now.head.now body)))) }
{
    if !is_success(answered.status) {
        return Ok(End::Failed(after_failure(partner, document, terms.moment)));
    }
    let Some(opened) = open_answer(answered.head) else {
        return Ok(without_receipt(partner, document, terms.moment));
    };
    match by_receipt(terms.alloc, &opened, body, document, terms.moment)? {
        Some(end) => Ok(end),
        None => Ok(without_receipt(partner, document, terms.moment)),
    }
}

/// How the open try of the document ends.
fn end_of(
    terms: &Terms<'_>,
    partner: &Partner,
    document: &OutEntry,
    answer: TryAnswer,
) -> Result<End, Memory>
    requires terms { IsPartner partner.now }
    ensures { IfOk result (λ end. ended_document end document.now
        ≡ closed_by partner.now answer terms.now.moment document.now
        (option_and_then (if_for document.now) (receipt_in_answer AllDigests answer))) }
{
    match answer {
        TryAnswer::NoAnswer => Ok(End::Failed(after_failure(partner, document, terms.moment))),
        TryAnswer::Reply { status, head, body } => {
            let answered = AnswerHead {
                status,
                head: &head,
            };
            by_reply(terms, partner, document, &answered, body)
        }
    }
}

/// Writes how the try of the document has ended. A document of which a try is open was begun: where it is kept that it wasn't, its
/// row is damaged.
fn end_try<R: Records>(records: &mut R, entry: &OutEntry, end: End) -> Result<Ended, StoreFault>
    requires unsettled { LeavesUnsettled end }
    requires open { (R.shows records.old).IsClean → IsTrue (R.shows records.old).is_open }
    ensures taken { Does (λ s. Some (on_document s entry.now.number (ended_document end)))
        (λ s. document s entry.now.number
        ≡ Some entry.now) (true ≡ true) said_to_outcome (R.shows records.old) (R.shows records.new) result }
{
    if !entry.begun {
        return Err(StoreFault::Damaged(RowPlace {
            table: Table::Outbox,
            number: entry.number,
        }));
    }
    match end {
        End::ByReceipt { detail, evidence } => {
            records.settle(entry.number, detail, &evidence)?;
            Ok(Ok(Became::Settled(detail)))
        }
        End::Delivered(progress) => {
            records.set_out(entry.number, progress)?;
            Ok(Ok(Became::Delivered))
        }
        End::Failed(progress) => {
            records.set_out(entry.number, progress)?;
            Ok(Ok(Became::TryFailed))
        }
    }
}

/// Takes the outcome of a try of this document, unless none is open.
fn close_found<R: Records>(
    records: &mut R,
    terms: &Terms<'_>,
    entry: &OutEntry,
    answer: TryAnswer,
) -> Result<Ended, StoreFault>
    requires open { (R.shows records.old).IsClean → IsTrue (R.shows records.old).is_open }
    ensures taken { Does
        (λ s. Some (on_document s entry.now.number
        (closed_document terms.now.agreements.now AllDigests answer terms.now.moment)))
        (λ s. document s entry.now.number ≡ Some entry.now) (true
        ≡ true) said_to_outcome (R.shows records.old) (R.shows records.new) result }
{
    let partner = match agreed_partner(terms.agreements, &entry.organization, &entry.partner) {
        Ok(partner) => partner,
        Err(reason) => return Ok(Err(reason)),
    };
    if entry.evidence.is_some() {
        return Ok(Ok(Became::AlreadySettled));
    }
    if entry.attempt.is_idle() {
        return Ok(Err(Refusal::NoOpenTry));
    }
    let end = end_of(terms, partner, entry, answer)?;
    end_try(records, entry, end)
}

/// Takes the outcome of a try of the document of this number.
pub(crate) fn close<R: Records>(
    records: &mut R,
    terms: &Terms<'_>,
    number: u64,
    answer: TryAnswer,
) -> Result<Ended, StoreFault>
    ensures taken { Does (λ s. Some (on_document s number
        (closed_document terms.now.agreements.now AllDigests answer terms.now.moment)))
        always
        (true ≡ true) said_to_outcome (R.shows records.old) (R.shows records.new) result }
{
    match records.find_out(terms.alloc, number)? {
        Some(document) => close_found(records, terms, &document, answer),
        None => Ok(Err(Refusal::NoSuchNumber)),
    }
}
