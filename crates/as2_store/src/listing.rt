//! Listings: the rows of a query are read one at a time, and none is held beside the list.

ghost use Rattle.std.specs.Prelude.{◌≡◌, false, true, if◌then◌else◌, [], ◌∷◌, ◌++◌, map, IsTrue, IfErr, OnOk};
ghost use Rattle.sqlite.specs.Held.{state};
ghost use Rattle.sqlite.specs.State.{HasCleanDisk};
ghost use Rattle.sqlite.specs.Values.{bound};
ghost use Rattle.as2_records.specs.Summaries.{in_summary};
ghost use Rattle.as2_store.specs.Calls.{ReadsTables};
ghost use Rattle.as2_store.specs.Rounds.{ReadsBy};
ghost use Rattle.as2_store.specs.Listing.{detail_in, first_detail, last_detail, state_codes};
ghost use Rattle.as2_records.specs.Listing.{listed_rows};
ghost use Rattle.as2_records.specs.Standing.{may_come};
ghost use Rattle.as2_exchange.specs.declared.place.Table.TheVariants as table;
ghost use Rattle.as2_store.specs.Stands.{comes_of, is_row_of};

use crate::fault::{fault_of, place_of, unread_row};
use as2_exchange::{END_OF_NUMBERS, StoreFault, Table};
use as2_mdn::{Detail, DetailClass};
use as2_records::{InRow, OutRow};
use as2_rows::{detail_code, read_in_row, read_out_row};
use sqlite::types::ValueRef;
use sqlite::{Alter, Connection, params};
use std::alloc::Global;

/// The entries of the inbox, outside a round.
fn entries_alone<S: Alter>(
    conn: &mut Connection<S>,
    alloc: Global,
) -> Result<Vec<InRow>, StoreFault>
    requires autocommit { conn.old.in_transaction ≡ false }
    requires open { HasCleanDisk (state S.Store conn.old) → IsTrue (state S.Store conn.old).is_open }
    ensures autocommit { conn.new.in_transaction ≡ false }
    ensures entries { ReadsTables (λ s entries. entries.items
        ≡ map in_summary s.inbox) (state S.Store conn.old) (state S.Store conn.new) result }
    ensures fault { IfErr result (λ f. may_come f ≡ true) }
    ensures row { IfErr result (λ f. comes_of (is_row_of table.Inbox) f ≡ true) }
{
    let mut entries = Vec::new(alloc);
    let mut rows = match conn.query(
        "SELECT number, sender, receiver, identifier_value, identifier, content_type, length, moment, outcome, how, url, digest, mic, mdn, tries, attempt, due FROM inbox2 ORDER BY number",
        &[],
    ) {
        Ok(rows) => rows,
        Err(error) => return Err(fault_of(error)),
    };
    'rows: for _ in 0..END_OF_NUMBERS {
        match rows.advance() {
            Ok(()) => (),
            Err(error) => return Err(fault_of(error)),
        }
        let Some(row) = rows.get() else {
            return Ok(entries);
        };
        let place = place_of(Table::Inbox, row, 0);
        let entry = read_in_row(alloc, row).map_err(|fault| unread_row(fault, place))?;
        match entries.push(entry) {
            Ok(()) => (),
            Err(_) => return Err(StoreFault::Memory),
        }
    }
    // Not reached: each row has a number of its own below END_OF_NUMBERS, so that the rows end before the turns do.
    Err(StoreFault::Refused)
}

/// The entries of the inbox in order of number, each with the length of its content in place of the content. Refused within a round.
pub fn entries<S: Alter>(conn: &mut Connection<S>, alloc: Global) -> Result<Vec<InRow>, StoreFault>
    requires open { HasCleanDisk (state S.Store conn.old) → IsTrue (state S.Store conn.old).is_open }
    ensures entries { ReadsBy (λ s entries. entries.items
        ≡ map in_summary s.inbox) (state S.Store conn.old) (state S.Store conn.new) result }
    ensures fault { IfErr result (λ f. may_come f ≡ true) }
    ensures row { IfErr result (λ f. comes_of (is_row_of table.Inbox) f ≡ true) }
{
    if !conn.is_autocommit() {
        return Err(StoreFault::Refused);
    }
    entries_alone(conn, alloc)
}

/// The first and the last of the details of a state, or of all.
fn details_of(wanted: Option<DetailClass>) -> (Detail, Detail)
    ensures { result ≡ (first_detail wanted, last_detail wanted) }
{
    match wanted {
        None => (Detail::New, Detail::Overdue),
        Some(DetailClass::P) => (Detail::New, Detail::Awaiting),
        Some(DetailClass::R) => (Detail::Sending, Detail::Retry),
        Some(DetailClass::S) => (Detail::Processed, Detail::Processed),
        Some(DetailClass::W) => (Detail::NoReceiptAsked, Detail::UnknownMic),
        Some(DetailClass::E) => (Detail::NotProcessed, Detail::Overdue),
    }
}

/// Whether the detail is one of that state, where one is asked for.
fn is_in(wanted: Option<DetailClass>, detail: Detail) -> bool
    ensures { result ≡ detail_in wanted detail }
{
    match wanted {
        Some(state) => detail.class() == state,
        None => true,
    }
}

/// Lists the document, where it is of that state.
fn list_if(
    documents: &mut Vec<OutRow>,
    wanted: Option<DetailClass>,
    document: OutRow,
) -> Result<(), StoreFault>
    ensures listed { OnOk result (documents.new.items
        ≡ (if detail_in wanted document.detail then documents.old.items ++ document ∷ [] else documents.old.items)) }
    ensures fault { IfErr result (λ f. may_come f ≡ true) }
    ensures row { IfErr result (λ f. comes_of (is_row_of table.Outbox) f ≡ true) }
{
    if !is_in(wanted, document.detail) {
        return Ok(());
    }
    match documents.push(document) {
        Ok(()) => Ok(()),
        Err(_) => Err(StoreFault::Memory),
    }
}

/// The documents of that state, or all; only rows between these two codes are looked at.
fn documents_between<S: Alter>(
    conn: &mut Connection<S>,
    alloc: Global,
    wanted: Option<DetailClass>,
    codes: &[ValueRef<'_>],
) -> Result<Vec<OutRow>, StoreFault>
    requires autocommit { conn.old.in_transaction ≡ false }
    requires open { HasCleanDisk (state S.Store conn.old) → IsTrue (state S.Store conn.old).is_open }
    requires codes { bound codes.now ≡ state_codes wanted }
    ensures autocommit { conn.new.in_transaction ≡ false }
    ensures documents { ReadsTables (λ s documents. documents.items
        ≡ listed_rows wanted s) (state S.Store conn.old) (state S.Store conn.new) result }
    ensures fault { IfErr result (λ f. may_come f ≡ true) }
    ensures row { IfErr result (λ f. comes_of (is_row_of table.Outbox) f ≡ true) }
{
    let mut documents = Vec::new(alloc);
    let mut rows = match conn.query(
        "SELECT number, organization, partner, identifier_value, identifier, length, moment, tries, attempt, due, detail FROM outbox WHERE detail >= ?1 AND detail <= ?2 ORDER BY number",
        codes,
    ) {
        Ok(rows) => rows,
        Err(error) => return Err(fault_of(error)),
    };
    'rows: for _ in 0..END_OF_NUMBERS {
        match rows.advance() {
            Ok(()) => (),
            Err(error) => return Err(fault_of(error)),
        }
        let Some(row) = rows.get() else {
            return Ok(documents);
        };
        let place = place_of(Table::Outbox, row, 0);
        let document = read_out_row(alloc, row).map_err(|fault| unread_row(fault, place))?;
        list_if(&mut documents, wanted, document)?;
    }
    // Not reached: each row has a number of its own below END_OF_NUMBERS, so that the rows end before the turns do.
    Err(StoreFault::Refused)
}

/// The documents of that state, or all, in order of number, each with the length of its content in place of the content,
/// and without its evidence. Refused within a round.
pub fn documents<S: Alter>(
    conn: &mut Connection<S>,
    alloc: Global,
    wanted: Option<DetailClass>,
) -> Result<Vec<OutRow>, StoreFault>
    requires open { HasCleanDisk (state S.Store conn.old) → IsTrue (state S.Store conn.old).is_open }
    ensures documents { ReadsBy (λ s documents. documents.items
        ≡ listed_rows wanted s) (state S.Store conn.old) (state S.Store conn.new) result }
    ensures fault { IfErr result (λ f. may_come f ≡ true) }
    ensures row { IfErr result (λ f. comes_of (is_row_of table.Outbox) f ≡ true) }
{
    if !conn.is_autocommit() {
        return Err(StoreFault::Refused);
    }
    let (first, last) = details_of(wanted);
    documents_between(
        conn,
        alloc,
        wanted,
        params![detail_code(first), detail_code(last)],
    )
}
