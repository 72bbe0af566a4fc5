//! Documents that are sent.
ghost use Rattle.std.specs.Prelude.{◌≡◌, Some, IfOk};
ghost use Rattle.as2_mdn.specs.Receipts.{mic_of};
ghost use Rattle.as2_audit.specs.Faults.{gives, is_by_late, is_detail, kept_receipt, receipt_fault, sent_fault, settled_fault};

use crate::fault::Fault;
use as2_exchange::{Evidence, OutEntry, is_by_receipt};
use as2_mdn::{Detail, MicPart, Receipt, read_report, verdict_pieces};
use as2_mic::{Alg, Pieces};
use as2_text::{MediaType, Memory};

/// Whether both are one detail.
fn is_detail(one: Detail, other: Detail) -> bool
    ensures { result ≡ is_detail one other }
{
    one.name() == other.name()
}

/// Whether the MIC is by a digest that earlier stores didn't know.
fn is_by_late(mic: &MicPart<'_>) -> bool
    ensures { result ≡ is_by_late (mic_of mic.now) }
{
    let MicPart::Given(field) = mic else {
        return false;
    };
    match Alg::named(field.digest()) {
        Some(digest) => digest.is_late(),
        None => false,
    }
}

/// Whether the receipt gives the content this detail; in records that were migrated the digest may not have been known when it came.
#[tactic(auto, unfolding(as2_exchange::specs::Readings::verdict))]
fn gives(migrated: bool, receipt: Receipt<'_>, content: &Pieces, detail: Detail) -> bool
    ensures { result ≡ gives migrated receipt.entry content.now detail }
{
    if is_detail(verdict_pieces(&receipt, content), detail) {
        return true;
    }
    if !(migrated && is_by_late(&receipt.mic)) {
        return false;
    }
    let Receipt {
        original_id,
        disposition,
        ..
    } = receipt;
    let unknown = Receipt {
        original_id,
        disposition,
        mic: MicPart::Unreadable,
    };
    is_detail(verdict_pieces(&unknown, content), detail)
}

/// What is wrong with a document and a readable receipt for it.
#[tactic(auto, unfolding(as2_exchange::specs::Readings::named_by, as2_exchange::specs::Readings::value_of))]
fn receipt_fault(migrated: bool, document: &OutEntry, receipt: Receipt<'_>) -> Option<Fault>
    ensures { result ≡ receipt_fault migrated document.now (Some receipt.entry) }
{
    if !receipt.names(document.id.value()) {
        return Some(Fault::ReceiptOfAnother);
    }
    if !gives(migrated, receipt, &document.content, document.detail) {
        return Some(Fault::DetailDiffers);
    }
    None
}

/// What is wrong with a document and the receipt that is kept of it.
#[tactic(auto, unfolding(as2_exchange::specs::Readings::report_in))]
fn evidence_fault(
    migrated: bool,
    document: &OutEntry,
    evidence: &Evidence,
) -> Result<Option<Fault>, Memory>
    ensures { IfOk result (λ fault. fault ≡ receipt_fault migrated document.now (kept_receipt evidence.now)) }
{
    let body = evidence.body.joined()?;
    let Ok(media) = MediaType::parse(evidence.content_type.as_slice()) else {
        return Ok(Some(Fault::UnreadableReceipt));
    };
    let Ok(receipt) = read_report(&media, &body) else {
        return Ok(Some(Fault::UnreadableReceipt));
    };
    Ok(receipt_fault(migrated, document, receipt))
}

/// What is wrong with a document that was begun, if it was tried.
fn settled_fault(migrated: bool, document: &OutEntry) -> Result<Option<Fault>, Memory>
    ensures { IfOk result (λ fault. fault ≡ settled_fault migrated document.now document.now.evidence) }
{
    let is_by_receipt = is_by_receipt(document.detail);
    let Some(evidence) = &document.evidence else {
        return Ok(is_by_receipt.then_some(Fault::NoReceipt));
    };
    if !is_by_receipt {
        return Ok(Some(Fault::StrayReceipt));
    }
    if !document.attempt.is_idle() || document.due.is_some() {
        return Ok(Some(Fault::StillWaits));
    }
    evidence_fault(migrated, document, evidence)
}

/// What is wrong with a document that is sent. One that was tried has to be begun. What is kept of its receipt has to be what its detail
/// says (RFC 4130, sections 7.4 and 7.5; RFC 8098, section 3). Where the records were migrated, the receipt may be of before. Memory
/// where none is left for the receipt.
pub fn sent_fault(migrated: bool, document: &OutEntry) -> Result<Option<Fault>, Memory>
    ensures { IfOk result (λ fault. fault ≡ sent_fault migrated document.now) }
{
    if document.tries >= 1 && !document.begun {
        return Ok(Some(Fault::NeverBegun));
    }
    settled_fault(migrated, document)
}
