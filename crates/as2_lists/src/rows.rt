//! Entries as they are listed: with the length of the content in place of the content.

ghost use Rattle.std.specs.Prelude.{◌≡◌, IfOk};
ghost use Rattle.as2_records.specs.Summaries.{in_summary, out_summary};

use crate::copies::{copy_bytes, copy_delivery};
use as2_exchange::{InEntry, OutEntry};
use as2_records::{InRow, OutRow};
use as2_text::Memory;
use std::alloc::Global;

/// The entry of the inbox without its content.
pub fn in_row(alloc: Global, entry: &InEntry) -> Result<InRow, Memory>
    ensures { IfOk result (λ row. row ≡ in_summary entry.now) }
{
    let sender = entry.posted.sender.clone()?;
    let receiver = entry.posted.receiver.clone()?;
    let id = entry.posted.id.clone()?;
    let content_type = copy_bytes(alloc, &entry.posted.content_type)?;
    let how = copy_delivery(alloc, &entry.posted.how)?;
    Ok(InRow {
        number: entry.number,
        sender,
        receiver,
        id,
        content_type,
        length: entry.posted.content.len() as u64,
        moment: entry.moment,
        outcome: entry.posted.outcome,
        how,
        mic: entry.posted.mic,
        receipt_stage: entry.receipt_stage,
        tries: entry.tries,
        attempt: entry.attempt,
        due: entry.due,
    })
}

/// The document without its content and its evidence.
pub fn out_row(document: &OutEntry) -> Result<OutRow, Memory>
    ensures { IfOk result (λ row. row ≡ out_summary document.now) }
{
    let organization = document.organization.clone()?;
    let partner = document.partner.clone()?;
    let id = document.id.clone()?;
    Ok(OutRow {
        number: document.number,
        organization,
        partner,
        id,
        length: document.content.len() as u64,
        moment: document.moment,
        tries: document.tries,
        attempt: document.attempt,
        due: document.due,
        detail: document.detail,
    })
}
