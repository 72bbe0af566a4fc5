//! The inbox as a list.

ghost use Rattle.std.specs.Prelude.{◌≡◌, ◌==◌, ◌&&◌, [], ◌∷◌, ◌++◌, if◌then◌else◌, map, find, IfOk, OnOk, OnErr, count_by, is_some, option_map};
ghost use Rattle.as2_exchange.specs.OwedReceipts.{is_pending};
ghost use Rattle.as2_exchange.specs.State.{has_key, same_key};
ghost use Rattle.as2_exchange.specs.Due.{is_due_receipt};
ghost use Rattle.as2_records.specs.Due.{is_behind};
ghost use Rattle.as2_records.specs.Owing.{with_receipt_progress};
ghost use Rattle.as2_records.specs.Summaries.{in_summary};

use crate::copies::copy_entry;
use crate::due::{is_behind, is_due};
use crate::rows::in_row;
use as2_exchange::{Attempt, InEntry, Posted, ReceiptStage};
use as2_records::{InRow, ReceiptProgress};
use as2_text::{AsName, Memory, Moment};
use std::alloc::Global;

/// The entry of this number, if there is one.
pub fn entry_of(entries: &[InEntry], number: u64) -> Option<&InEntry>
    ensures { option_map (λ e. e.now) result ≡ find (λ e. e.number == number) entries.now }
{
    entries.iter().find(|entry| entry.number == number)
}

/// Whether this sender posted the document to this receiver under an identifier of this value.
#[tactic(auto, unfolding(as2_exchange::specs::Readings::value_of))]
fn is_posted_as(posted: &Posted, sender: &AsName, receiver: &AsName, id_value: &str) -> bool
    ensures { result ≡ has_key sender.now receiver.now id_value.now posted.now }
{
    posted.sender.bytes() == sender.bytes()
        && posted.receiver.bytes() == receiver.bytes()
        && posted.id.value() == id_value
}

/// The entry that this sender posted to this receiver under an identifier of this value, if there is one.
pub fn entry_posted<'a>(
    entries: &'a [InEntry],
    sender: &AsName,
    receiver: &AsName,
    id_value: &str,
) -> Option<&'a InEntry>
    ensures { option_map (λ e. e.now) result
        ≡ find (λ e. has_key sender.now receiver.now id_value.now e.posted) entries.now }
{
    entries.iter().find(|entry| is_posted_as(&entry.posted, sender, receiver, id_value))
}

/// Whether an entry has the key of this document: its sender, its receiver and the value of its identifier.
#[tactic(auto, unfolding(as2_exchange::specs::Readings::value_of))]
pub fn has_key_of(entries: &[InEntry], posted: &Posted) -> bool
    ensures { result ≡ is_some (find (λ e. same_key e.posted posted.now) entries.now) }
{
    entry_posted(entries, &posted.sender, &posted.receiver, posted.id.value()).is_some()
}

/// Adds a copy of the entry at the end. Where there is no memory, the list stays.
pub fn add(alloc: Global, entries: &mut Vec<InEntry>, entry: &InEntry) -> Result<(), Memory>
    ensures added { OnOk result (entries.new.items ≡ entries.old.items ++ entry.now ∷ []) }
    ensures same { OnErr result (entries.new.items ≡ entries.old.items) }
{
    let copy = copy_entry(alloc, entry)?;
    match entries.push(copy) {
        Ok(()) => Ok(()),
        Err(_) => Err(Memory),
    }
}

/// Sets how far the receipt for the entry has come.
fn set(entry: &mut InEntry, progress: ReceiptProgress)
    ensures { entry.new ≡ with_receipt_progress progress entry.old }
{
    entry.receipt_stage = progress.receipt_stage;
    entry.tries = progress.tries;
    entry.attempt = progress.attempt;
    entry.due = progress.due;
}

/// Sets how far the receipt for the entry of this number, if there is one, has come.
pub fn set_numbered(entries: &mut Vec<InEntry>, number: u64, progress: ReceiptProgress)
    ensures { entries.new.items
        ≡ map (λ e. if e.number == number then with_receipt_progress progress e else e) entries.old.items }
{
    for entry in entries.iter_mut() {
        if entry.number == number {
            set(entry, progress);
        }
    }
}

/// Whether a try of the receipt may begin at this moment.
fn is_due_receipt(moment: Moment, entry: &InEntry) -> bool
    ensures { result ≡ is_due_receipt moment entry.now }
{
    entry.receipt_stage == ReceiptStage::Pending
        && (entry.attempt == Attempt::Idle || entry.attempt == Attempt::Running)
        && is_due(moment, entry.due)
}

/// The number of the first entry of whose receipt a try may begin at this moment, behind that number where one is given.
pub fn first_due(entries: &[InEntry], moment: Moment, behind: Option<u64>) -> Option<u64>
    ensures { result ≡ option_map (λ e. e.number)
        (find (λ e. is_due_receipt moment e && is_behind behind e.number) entries.now) }
{
    let due = entries.iter().find(|entry| is_due_receipt(moment, entry)
        && is_behind(behind, entry.number));
    match due {
        Some(entry) => Some(entry.number),
        None => None,
    }
}

/// The entries without their contents.
pub fn rows(alloc: Global, entries: &[InEntry]) -> Result<Vec<InRow>, Memory>
    ensures { IfOk result (λ rows. rows.items ≡ map in_summary entries.now) }
{
    let mut rows = Vec::new(alloc);
    for entry in entries {
        let row = in_row(alloc, entry)?;
        rows.push(row)?;
    }
    Ok(rows)
}

/// How many receipts are to be sent.
pub fn pending(entries: &[InEntry]) -> u64
    ensures { result ≡ count_by (λ e. is_pending e.receipt_stage) entries.now }
{
    entries
        .iter()
        .filter(|entry| entry.receipt_stage == ReceiptStage::Pending)
        .count() as u64
}
