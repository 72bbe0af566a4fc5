//! How much is outstanding, counted over one column of each box.

ghost use Rattle.std.specs.Prelude.{◌≡◌, false, ℕ, List, count_by, map, IfOk, IfErr, true};
ghost use Rattle.sqlite.specs.Held.{state};
ghost use Rattle.as2_exchange.specs.OwedReceipts.{is_pending};
ghost use Rattle.as2_exchange.specs.State.{State};
ghost use Rattle.as2_exchange.specs.Progress.{same_state};
ghost use Rattle.as2_mdn.specs.Details.{class_of};
ghost use Rattle.as2_mdn.specs.declared.detail.Detail.{Detail as DetailOf};
ghost use Rattle.as2_exchange.specs.declared.inbox.ReceiptStage.{ReceiptStage};
ghost use Rattle.as2_store.specs.Rounds.{ReadsBy};
ghost use Rattle.as2_store.specs.Counting.{detail_row, details_of, is_awaiting, is_unsent, receipt_stage_row, receipt_stages_of};
ghost use Rattle.as2_records.specs.Standing.{may_come};
ghost use Rattle.as2_exchange.specs.declared.place.Table.TheVariants as table;
ghost use Rattle.as2_store.specs.Stands.{comes_of, is_row_of};
ghost use Rattle.as2_records.specs.Counting.{counts_of};

use crate::fault::{fault_of, unread_column};
use crate::reading::query_all;
use as2_exchange::{ReceiptStage, RowPlace, StoreFault, Table};
use as2_mdn::{Detail, DetailClass};
use as2_records::Counts;
use as2_rows::{detail_of_code, receipt_stage_of_code};
use sqlite::{Alter, Connection, Error, Row};
use std::alloc::Global;

/// The rows of the details of all documents, in order of number.
fn detail_rows<S: Alter>(conn: &mut Connection<S>) -> Result<Vec<Row>, Error>
    ensures rows { ReadsBy (λ s rows. rows.items
        ≡ map detail_row (details_of s)) (state S.Store conn.old) (state S.Store conn.new) result }
{
    query_all(conn, "SELECT detail FROM outbox ORDER BY number", &[])
}

/// The rows of how the receipts for all received documents stand, in order of number.
fn receipt_stage_rows<S: Alter>(conn: &mut Connection<S>) -> Result<Vec<Row>, Error>
    ensures rows { ReadsBy (λ s rows. rows.items
        ≡ map receipt_stage_row (receipt_stages_of s)) (state S.Store conn.old) (state S.Store conn.new) result }
{
    query_all(conn, "SELECT mdn FROM inbox2 ORDER BY number", &[])
}

/// The detail that a row shows, which shows nothing else.
fn detail_of(row: &Row) -> Result<Detail, StoreFault>
    ensures shown { IfOk result (λ detail. (d : DetailOf) → row.now ≡ detail_row d → detail ≡ d) }
    ensures fault { IfErr result (λ f. may_come f ≡ true) }
    ensures row { IfErr result (λ f. comes_of (is_row_of table.Outbox) f ≡ true) }
{
    let place = RowPlace {
        table: Table::Outbox,
        number: 0,
    };
    let code: i64 = row.get(0).map_err(|error| unread_column(error, place))?;
    detail_of_code(code).ok_or(StoreFault::Damaged(place))
}

/// How the receipt stands that a row shows, which shows nothing else.
fn receipt_stage_of(row: &Row) -> Result<ReceiptStage, StoreFault>
    ensures shown { IfOk result (λ receipt_stage. (m : ReceiptStage) → row.now ≡ receipt_stage_row m
        → receipt_stage ≡ m) }
    ensures fault { IfErr result (λ f. may_come f ≡ true) }
    ensures row { IfErr result (λ f. comes_of (is_row_of table.Inbox) f ≡ true) }
{
    let place = RowPlace {
        table: Table::Inbox,
        number: 0,
    };
    let code: i64 = row.get(0).map_err(|error| unread_column(error, place))?;
    receipt_stage_of_code(code).ok_or(StoreFault::Damaged(place))
}

/// The details that the rows show.
fn details_in(alloc: Global, rows: &[Row]) -> Result<Vec<Detail>, StoreFault>
    ensures shown { IfOk result (λ details. (ds : List DetailOf) → rows.now ≡ map detail_row ds → details.items ≡ ds) }
    ensures fault { IfErr result (λ f. may_come f ≡ true) }
    ensures row { IfErr result (λ f. comes_of (is_row_of table.Outbox) f ≡ true) }
{
    let mut details = Vec::new(alloc);
    'rows: for row in rows {
        let detail = detail_of(row)?;
        match details.push(detail) {
            Ok(()) => (),
            Err(_) => return Err(StoreFault::Memory),
        }
    }
    Ok(details)
}

/// How the receipts stand that the rows show.
fn receipt_stages_in(alloc: Global, rows: &[Row]) -> Result<Vec<ReceiptStage>, StoreFault>
    ensures shown { IfOk result (λ receipt_stages. (ms : List ReceiptStage) → rows.now ≡ map receipt_stage_row ms
        → receipt_stages.items ≡ ms) }
    ensures fault { IfErr result (λ f. may_come f ≡ true) }
    ensures row { IfErr result (λ f. comes_of (is_row_of table.Inbox) f ≡ true) }
{
    let mut receipt_stages = Vec::new(alloc);
    'rows: for row in rows {
        let receipt_stage = receipt_stage_of(row)?;
        match receipt_stages.push(receipt_stage) {
            Ok(()) => (),
            Err(_) => return Err(StoreFault::Memory),
        }
    }
    Ok(receipt_stages)
}

/// The details of all documents, in order of number.
pub fn details<S: Alter>(conn: &mut Connection<S>, alloc: Global) -> Result<Vec<Detail>, StoreFault>
    ensures details { ReadsBy (λ s details. details.items
        ≡ details_of s) (state S.Store conn.old) (state S.Store conn.new) result }
    ensures fault { IfErr result (λ f. may_come f ≡ true) }
    ensures row { IfErr result (λ f. comes_of (is_row_of table.Outbox) f ≡ true) }
{
    let rows = detail_rows(conn).map_err(fault_of)?;
    details_in(alloc, rows.as_slice())
}

/// How the receipts for all received documents stand, in order of number.
pub fn receipt_stages<S: Alter>(
    conn: &mut Connection<S>,
    alloc: Global,
) -> Result<Vec<ReceiptStage>, StoreFault>
    ensures receipt_stages { ReadsBy (λ s receipt_stages. receipt_stages.items
        ≡ receipt_stages_of s) (state S.Store conn.old) (state S.Store conn.new) result }
    ensures fault { IfErr result (λ f. may_come f ≡ true) }
    ensures row { IfErr result (λ f. comes_of (is_row_of table.Inbox) f ≡ true) }
{
    let rows = receipt_stage_rows(conn).map_err(fault_of)?;
    receipt_stages_in(alloc, rows.as_slice())
}

/// How many of the documents have not been tried.
fn unsent(details: &[Detail]) -> u64
    ensures { result ≡ count_by is_unsent details.now }
{
    details.iter().filter(|it| **it == Detail::New).count() as u64
}

/// For how many of the documents a receipt is awaited.
fn awaiting(details: &[Detail]) -> u64
    ensures { result ≡ count_by is_awaiting details.now }
{
    details.iter().filter(|it| **it == Detail::Awaiting).count() as u64
}

/// How many of the documents are in this state.
fn in_state(details: &[Detail], wanted: DetailClass) -> u64
    ensures { result ≡ count_by (λ d. same_state wanted (class_of d)) details.now }
{
    details.iter().filter(|it| it.class() == wanted).count() as u64
}

/// How many of the receipts are to be sent.
fn pending(receipt_stages: &[ReceiptStage]) -> u64
    ensures { result ≡ count_by is_pending receipt_stages.now }
{
    receipt_stages
        .iter()
        .filter(|it| **it == ReceiptStage::Pending)
        .count() as u64
}

/// The counts of documents of these details, and of receipts that stand so.
pub fn counted(details: &[Detail], receipt_stages: &[ReceiptStage]) -> Counts
    ensures { (s : State) → details.now ≡ details_of s → receipt_stages.now ≡ receipt_stages_of s
        → result ≡ counts_of s }
{
    Counts {
        not_sent: unsent(details),
        in_retry: in_state(details, DetailClass::R),
        awaited: awaiting(details),
        in_error: in_state(details, DetailClass::E),
        to_send: pending(receipt_stages),
    }
}
