//! Copies of entries. Each takes memory for what the entry holds, and answers `Memory` where there is none.

ghost use Rattle.std.specs.Prelude.{◌≡◌, IfOk, option_map};

use as2_exchange::{Address, Bytes, Evidence, InEntry, OutEntry, Posted, ReceiptDelivery};
use as2_mic::Pieces;
use as2_text::Memory;
use std::alloc::Global;

/// A copy of a content.
fn copy_pieces(alloc: Global, content: &Pieces) -> Result<Pieces, Memory>
    ensures { IfOk result (λ copy. copy ≡ content.now) }
{
    let mut copy = Pieces::new(alloc);
    for i in 0..content.count() {
        if let Some(piece) = content.piece(i) {
            copy.append(piece)?;
        }
    }
    Ok(copy)
}

/// A copy of a text.
pub fn copy_bytes(alloc: Global, text: &Bytes) -> Result<Bytes, Memory>
    ensures { IfOk result (λ copy. copy ≡ text.now) }
{
    Bytes::keep(alloc, text.as_slice())
}

/// A copy of how a receipt is asked for.
pub fn copy_delivery(alloc: Global, how: &ReceiptDelivery) -> Result<ReceiptDelivery, Memory>
    ensures { IfOk result (λ copy. copy ≡ how.now) }
{
    match how {
        ReceiptDelivery::NoReceipt => Ok(ReceiptDelivery::NoReceipt),
        ReceiptDelivery::Sync => Ok(ReceiptDelivery::Sync),
        ReceiptDelivery::Async(address) => {
            let copy = Address::keep(alloc, address.as_slice())?;
            Ok(ReceiptDelivery::Async(copy))
        }
    }
}

/// A copy of a posted document.
fn copy_posted(alloc: Global, posted: &Posted) -> Result<Posted, Memory>
    ensures { IfOk result (λ copy. copy ≡ posted.now) }
{
    let sender = posted.sender.clone()?;
    let receiver = posted.receiver.clone()?;
    let id = posted.id.clone()?;
    let content_type = copy_bytes(alloc, &posted.content_type)?;
    let content = copy_pieces(alloc, &posted.content)?;
    let how = copy_delivery(alloc, &posted.how)?;
    Ok(Posted {
        sender,
        receiver,
        id,
        content_type,
        content,
        outcome: posted.outcome,
        how,
        mic: posted.mic,
    })
}

/// A copy of an entry of the inbox.
pub fn copy_entry(alloc: Global, entry: &InEntry) -> Result<InEntry, Memory>
    ensures { IfOk result (λ copy. copy ≡ entry.now) }
{
    let posted = copy_posted(alloc, &entry.posted)?;
    Ok(InEntry {
        number: entry.number,
        posted,
        moment: entry.moment,
        receipt_stage: entry.receipt_stage,
        tries: entry.tries,
        attempt: entry.attempt,
        due: entry.due,
    })
}

/// A copy of the entry that was found, if one was.
pub fn copy_found_entry(alloc: Global, found: Option<&InEntry>) -> Result<Option<InEntry>, Memory>
    ensures { IfOk result (λ copy. copy ≡ option_map (λ e. e.now) found.entry) }
{
    match found {
        Some(entry) => {
            let copy = copy_entry(alloc, entry)?;
            Ok(Some(copy))
        }
        None => Ok(None),
    }
}

/// A copy of the receipt that settled a document.
pub fn copy_evidence(alloc: Global, evidence: &Evidence) -> Result<Evidence, Memory>
    ensures { IfOk result (λ copy. copy ≡ evidence.now) }
{
    let content_type = copy_bytes(alloc, &evidence.content_type)?;
    let body = copy_pieces(alloc, &evidence.body)?;
    Ok(Evidence {
        moment: evidence.moment,
        content_type,
        body,
    })
}

/// A copy of the evidence of a document, where it has one.
fn copy_settled(alloc: Global, evidence: &Option<Evidence>) -> Result<Option<Evidence>, Memory>
    ensures { IfOk result (λ copy. copy ≡ evidence.now) }
{
    match evidence {
        Some(evidence) => {
            let copy = copy_evidence(alloc, evidence)?;
            Ok(Some(copy))
        }
        None => Ok(None),
    }
}

/// A copy of an entry of the outbox.
pub fn copy_document(alloc: Global, document: &OutEntry) -> Result<OutEntry, Memory>
    ensures { IfOk result (λ copy. copy ≡ document.now) }
{
    let organization = document.organization.clone()?;
    let partner = document.partner.clone()?;
    let id = document.id.clone()?;
    let content = copy_pieces(alloc, &document.content)?;
    let evidence = copy_settled(alloc, &document.evidence)?;
    Ok(OutEntry {
        number: document.number,
        organization,
        partner,
        id,
        content,
        moment: document.moment,
        begun: document.begun,
        tries: document.tries,
        attempt: document.attempt,
        due: document.due,
        detail: document.detail,
        evidence,
    })
}

/// A copy of the document that was found, if one was.
pub fn copy_found_document(
    alloc: Global,
    found: Option<&OutEntry>,
) -> Result<Option<OutEntry>, Memory>
    ensures { IfOk result (λ copy. copy ≡ option_map (λ d. d.now) found.entry) }
{
    match found {
        Some(document) => {
            let copy = copy_document(alloc, document)?;
            Ok(Some(copy))
        }
        None => Ok(None),
    }
}
