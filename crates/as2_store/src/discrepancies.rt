//! The entries against what is kept beside them: the counters, and the rows of what waits.

ghost use Rattle.std.specs.Prelude.{◌≡◌, ◌∷◌, [], ◌++◌, List, None, map, take, false, true, IfOk, IfErr, OnOk};
ghost use Rattle.std.specs.List.{slice_get};
ghost use Rattle.sqlite.specs.Held.{state};
ghost use Rattle.as2_rows.specs.Waiting.{kind_code};
ghost use Rattle.as2_records.specs.Standing.{may_come};
ghost use Rattle.as2_store.specs.Rounds.{ReadsBy};
ghost use Rattle.as2_store.specs.Discrepancies.{Compares, IsFirst, all_wanted, documents_wanted, owes_receipt, lower, number_told, receipts_wanted, rows_of, row_shown, wait_row, wait_told, is_waiting};
ghost use Rattle.as2_exchange.specs.declared.place.Table.TheVariants as table;
ghost use Rattle.as2_store.specs.Stands.{all_waiting, comes_of, is_row_of};
ghost use Rattle.as2_store.specs.declared.discrepancies.PlacedWaitingRow.{PlacedWaitingRow as RowOf};

use crate::counters::next_numbers;
use crate::fault::{fault_of, place_of, unread_column};
use crate::listing::{documents, entries};
use crate::reading::query_all;
use crate::waiting::{is_to_answer, wait_of};
use as2_exchange::{END_OF_NUMBERS, StoreFault, Table};
use as2_records::{Discrepancy, InRow, NextNumbers, OutRow};
use as2_rows::Wait;
use sqlite::{Alter, Connection, Error, Row};
use std::alloc::Global;

/// A row of what waits.
#[derive(Clone, Copy, Debug, PartialEq, Eq)]
pub struct PlacedWaitingRow {
    /// Where it stands: one kind after the other, each in order of number.
    pub place: u128,
    /// What is waited for.
    pub kind: u64,
    /// The number of the entry.
    pub number: u64,
    /// From when on it is due, in seconds since 1970.
    pub due: Option<u64>,
}

/// The rows of what waits as they are shown, in order of place.
fn shown_rows<S: Alter>(conn: &mut Connection<S>) -> Result<Vec<Row>, Error>
    ensures rows { ReadsBy (λ s rows. rows.items
        ≡ map row_shown (rows_of (all_waiting s))) (state S.Store conn.old) (state S.Store conn.new) result }
{
    query_all(
        conn,
        "SELECT place, kind, number, due FROM waiting ORDER BY place",
        &[],
    )
}

/// What a row shows.
fn read_row(row: &Row) -> Result<PlacedWaitingRow, Error>
    ensures { IfOk result (λ read. (w : RowOf) → row.now ≡ row_shown w → read ≡ w) }
{
    let place: u64 = row.get(0)?;
    Ok(PlacedWaitingRow {
        place: u128::from(place),
        kind: row.get(1)?,
        number: row.get(2)?,
        due: row.get(3)?,
    })
}

/// What the rows show.
fn read_rows(alloc: Global, rows: &[Row]) -> Result<Vec<PlacedWaitingRow>, StoreFault>
    ensures shown { IfOk result (λ read. (ws : List RowOf) → rows.now ≡ map row_shown ws → read.items ≡ ws) }
    ensures fault { IfErr result (λ f. may_come f ≡ true) }
    ensures row { IfErr result (λ f. comes_of (is_row_of table.Waiting) f ≡ true) }
{
    let mut read = Vec::new(alloc);
    'rows: for row in rows {
        let place = place_of(Table::Waiting, row, 2);
        let wait = read_row(row).map_err(|error| unread_column(error, place))?;
        match read.push(wait) {
            Ok(()) => (),
            Err(_) => return Err(StoreFault::Memory),
        }
    }
    Ok(read)
}

/// The rows that are kept of what waits, in order of place.
fn kept_rows<S: Alter>(
    conn: &mut Connection<S>,
    alloc: Global,
) -> Result<Vec<PlacedWaitingRow>, StoreFault>
    ensures kept { ReadsBy (λ s kept. kept.items
        ≡ rows_of (all_waiting s)) (state S.Store conn.old) (state S.Store conn.new) result }
    ensures fault { IfErr result (λ f. may_come f ≡ true) }
    ensures row { IfErr result (λ f. comes_of (is_row_of table.Waiting) f ≡ true) }
{
    let rows = shown_rows(conn).map_err(fault_of)?;
    read_rows(alloc, rows.as_slice())
}

/// Adds the row that an entry of this number waits by.
fn push_row(
    wanted: &mut Vec<PlacedWaitingRow>,
    wait: Wait,
    number: u64,
    due: Option<u64>,
) -> Result<(), StoreFault>
    ensures pushed { OnOk result (wanted.new.items ≡ wanted.old.items ++ wait_row (kind_code wait) number due ∷ []) }
    ensures fault { IfErr result (λ f. may_come f ≡ true) }
{
    let kind = wait.code();
    let place = u128::from(kind) * u128::from(END_OF_NUMBERS) + u128::from(number);
    match wanted.push(PlacedWaitingRow {
        place,
        kind,
        number,
        due,
    }) {
        Ok(()) => Ok(()),
        Err(_) => Err(StoreFault::Memory),
    }
}

/// Whether the document waits for this.
fn is_to(document: &OutRow, wait: Wait) -> bool
    ensures { result ≡ is_waiting (kind_code wait) document.now }
{
    match wait_of(document.detail, document.attempt) {
        Some(it) => it.code() == wait.code(),
        None => false,
    }
}

/// Adds the rows of the documents that wait for this.
fn push_documents(
    wanted: &mut Vec<PlacedWaitingRow>,
    sent: &[OutRow],
    wait: Wait,
) -> Result<(), StoreFault>
    ensures pushed { OnOk result (wanted.new.items ≡ wanted.old.items ++ documents_wanted (kind_code wait) sent.now) }
    ensures fault { IfErr result (λ f. may_come f ≡ true) }
{
    'documents: for document in sent {
        if is_to(document, wait) {
            push_row(wanted, wait, document.number, document.due)?;
        }
    }
    Ok(())
}

/// Whether the receipt for the entry is to be sent.
fn owes(entry: &InRow) -> bool
    ensures { result ≡ owes_receipt entry.now }
{
    is_to_answer(entry.receipt_stage, entry.attempt)
}

/// Adds the rows of the receipts that are to be sent.
fn push_receipts(wanted: &mut Vec<PlacedWaitingRow>, received: &[InRow]) -> Result<(), StoreFault>
    ensures pushed { OnOk result (wanted.new.items ≡ wanted.old.items ++ receipts_wanted received.now) }
    ensures fault { IfErr result (λ f. may_come f ≡ true) }
{
    'entries: for entry in received {
        if owes(entry) {
            push_row(wanted, Wait::ToSendReceipt, entry.number, entry.due)?;
        }
    }
    Ok(())
}

/// The rows that are to be kept of what waits, in order of place.
fn wanted_rows(
    alloc: Global,
    received: &[InRow],
    sent: &[OutRow],
) -> Result<Vec<PlacedWaitingRow>, StoreFault>
    ensures wanted { IfOk result (λ wanted. wanted.items ≡ all_wanted received.now sent.now) }
    ensures fault { IfErr result (λ f. may_come f ≡ true) }
{
    let mut wanted = Vec::new(alloc);
    push_documents(&mut wanted, sent, Wait::ToSend)?;
    push_receipts(&mut wanted, received)?;
    push_documents(&mut wanted, sent, Wait::ToHear)?;
    push_documents(&mut wanted, sent, Wait::ToEnd)?;
    Ok(wanted)
}

/// How many rows at the head of both are alike.
fn alike(wanted: &[PlacedWaitingRow], kept: &[PlacedWaitingRow]) -> usize
    ensures before { take result wanted.now ≡ take result kept.now }
    ensures there { slice_get wanted.now result ≡ slice_get kept.now result → slice_get wanted.now result ≡ None }
{
    'rows: for (at, row) in wanted.iter().enumerate() {
        let Some(other) = kept.get(at) else {
            return at;
        };
        if other != row {
            return at;
        }
    }
    wanted.len()
}

/// The row at this place of the list, if there is one.
fn row_at(rows: &[PlacedWaitingRow], at: usize) -> Option<PlacedWaitingRow>
    ensures { result ≡ slice_get rows.now at }
{
    match rows.get(at) {
        Some(row) => Some(*row),
        None => None,
    }
}

/// The row of the lower place of the two; where both have one place, the wanted one.
fn lower_row(
    wanted: Option<PlacedWaitingRow>,
    kept: Option<PlacedWaitingRow>,
) -> Option<PlacedWaitingRow>
    ensures { result ≡ lower wanted kept }
{
    match (wanted, kept) {
        (None, kept) => kept,
        (Some(row), None) => Some(row),
        (Some(row), Some(other)) => {
            if other.place < row.place {
                Some(other)
            } else {
                Some(row)
            }
        }
    }
}

/// The row of the first difference between what is wanted and what is kept.
fn difference(wanted: &[PlacedWaitingRow], kept: &[PlacedWaitingRow]) -> Option<PlacedWaitingRow>
    ensures { Compares wanted.now kept.now result }
{
    let at = alike(wanted, kept);
    lower_row(row_at(wanted, at), row_at(kept, at))
}

/// The discrepancy that a row is which isn't kept as it is wanted.
fn told(row: PlacedWaitingRow) -> Discrepancy
    ensures { result ≡ wait_told row }
{
    if row.kind == Wait::ToSendReceipt.code() {
        Discrepancy::ReceivedWait(row.number)
    } else {
        Discrepancy::SentWait(row.number)
    }
}

/// The last entry of each box whose number isn't below the next one: that of the inbox before that of the outbox.
fn number_past(next: NextNumbers, received: &[InRow], sent: &[OutRow]) -> Option<Discrepancy>
    ensures { result ≡ number_told next received.now sent.now }
{
    if let Some(entry) = received.last() {
        if next.receipt <= entry.number {
            return Some(Discrepancy::ReceivedNumber(entry.number));
        }
    }
    if let Some(document) = sent.last() {
        if next.document <= document.number {
            return Some(Discrepancy::SentNumber(document.number));
        }
    }
    None
}

/// The first discrepancy between these entries and the counters and rows that are kept.
fn first(
    alloc: Global,
    next: NextNumbers,
    received: &[InRow],
    sent: &[OutRow],
    kept: &[PlacedWaitingRow],
) -> Result<Option<Discrepancy>, StoreFault>
    ensures first { IfOk result (IsFirst next received.now sent.now kept.now) }
    ensures fault { IfErr result (λ f. may_come f ≡ true) }
{
    if let Some(found) = number_past(next, received, sent) {
        return Ok(Some(found));
    }
    let wanted = wanted_rows(alloc, received, sent)?;
    match difference(wanted.as_slice(), kept) {
        Some(row) => Ok(Some(told(row))),
        None => Ok(None),
    }
}

/// The first discrepancy between the entries and what is kept beside them.
pub fn discrepancy<S: Alter>(
    conn: &mut Connection<S>,
    alloc: Global,
) -> Result<Option<Discrepancy>, StoreFault>
    ensures none { ReadsBy (λ s found. found ≡ None) (state S.Store conn.old) (state S.Store conn.new) result }
    ensures fault { IfErr result (λ f. may_come f ≡ true) }
{
    let next = next_numbers(conn)?;
    let received = entries(conn, alloc)?;
    let sent = documents(conn, alloc, None)?;
    let kept = kept_rows(conn, alloc)?;
    first(
        alloc,
        next,
        received.as_slice(),
        sent.as_slice(),
        kept.as_slice(),
    )
}
