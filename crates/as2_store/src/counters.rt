//! The one row of `meta`: the kind, the version, and the two counters.

ghost use Rattle.std.specs.Prelude.{◌≡◌, ◌≢◌, true, ℕ, ◌+◌, [], ◌∷◌, List, false, ◌<◌, ◌^◌, IsTrue, IfOk, IfErr, OnOk};
ghost use Rattle.sqlite.specs.Held.{state};
ghost use Rattle.sqlite.specs.State.{HasCleanDisk};
ghost use Rattle.as2_store.specs.Calls.{IsInside};
ghost use Rattle.as2_store.specs.Rounds.{ReadsBy};
ghost use Rattle.sqlite.specs.declared.types.Value.TheVariants.{Text};
ghost use Rattle.sql_tables.specs.Changes.{ChangesTable, IsOutside};
ghost use Rattle.as2_exchange.specs.State.{State};
ghost use Rattle.as2_records.specs.Finding.{AreNext};
ghost use Rattle.as2_records.specs.Standing.{may_come};
ghost use Rattle.as2_rows.specs.Rows.{whole};
ghost use Rattle.as2_store.specs.Tables.{Way, Fresh, current_number, store_schema, meta_tree};
ghost use Rattle.as2_exchange.specs.declared.place.Table.TheVariants as table;
ghost use Rattle.as2_store.specs.Stands.{Rests, MetaSays, HasNoRow, HasCounters, comes_of, is_row_of, meta_row, meta_shown};

use crate::fault::{fault_of, unread_column};
use crate::numbers::whole;
use crate::reading::query_all;
use as2_exchange::{RowPlace, StoreFault, Table};
use as2_records::NextNumbers;
use sqlite::{Alter, Connection, Error, Row, Savepoint, Transaction, params};

/// Puts in the row, with both counters at the first number.
pub fn put_meta<S: Alter>(tx: &mut Transaction<'_, S>, first: u64) -> Result<(), Error>
    requires { first < 2 ^ 63 }
    ensures same_reference { tx.new.conn.ghost_name ≡ tx.old.conn.ghost_name }
    ensures within { IsInside 0 (state S.Store tx.old.conn.now) (state S.Store tx.new.conn.now) }
    ensures open { HasCleanDisk (state S.Store tx.new.conn.now)
        → OnOk result (IsTrue (state S.Store tx.old.conn.now).is_open) }
    ensures inside { HasCleanDisk (state S.Store tx.new.conn.now)
        → OnOk result (IsTrue (state S.Store tx.new.conn.now).in_transaction) }
    ensures put { HasCleanDisk (state S.Store tx.new.conn.now)
        → OnOk result (HasNoRow (state S.Store tx.old.conn.now).now (store_schema Fresh)
        → ChangesTable (state S.Store tx.old.conn.now) (state S.Store tx.new.conn.now) (store_schema Fresh) meta_tree
        (meta_row current_number first first ∷ [])) }
{
    let first = whole(first);
    tx.execute(
        "INSERT INTO meta (kind, version, next_receipt, next_document) VALUES ('as2-station', 3, ?1, ?1)",
        params![first],
    )?;
    Ok(())
}

/// Raises the next number of a receipt past this one, and answers in how many rows it was this one.
pub fn raise_next_receipt<S: Alter>(tx: &mut Savepoint<'_, S>, number: u64) -> Result<usize, Error>
    requires { number + 1 < 2 ^ 63 }
    ensures same_reference { tx.new.conn.ghost_name ≡ tx.old.conn.ghost_name }
    ensures place { tx.new.at ≡ tx.old.at }
    ensures within { IsInside (tx.old.at + 1) (state S.Store tx.old.conn.now) (state S.Store tx.new.conn.now) }
    ensures open { HasCleanDisk (state S.Store tx.new.conn.now)
        → OnOk result (IsTrue (state S.Store tx.old.conn.now).is_open) }
    ensures inside { HasCleanDisk (state S.Store tx.new.conn.now)
        → OnOk result (IsTrue (state S.Store tx.new.conn.now).in_transaction) }
    ensures put { HasCleanDisk (state S.Store tx.new.conn.now)
        → IfOk result (λ count. (way : Way) (n m : ℕ) → HasCounters way (state S.Store tx.old.conn.now).now n m
        → count ≢ 0
        → (number ≡ n)
        × ChangesTable (state S.Store tx.old.conn.now) (state S.Store tx.new.conn.now) (store_schema way) meta_tree
        (meta_row current_number (number + 1) m ∷ [])) }
{
    let next = whole(number + 1);
    let number = whole(number);
    tx.execute(
        "UPDATE meta SET next_receipt = ?2 WHERE next_receipt = ?1",
        params![number, next],
    )
}

/// Raises the next number of a document past this one, and answers in how many rows it was this one.
pub fn raise_next_document<S: Alter>(tx: &mut Savepoint<'_, S>, number: u64) -> Result<usize, Error>
    requires { number + 1 < 2 ^ 63 }
    ensures same_reference { tx.new.conn.ghost_name ≡ tx.old.conn.ghost_name }
    ensures place { tx.new.at ≡ tx.old.at }
    ensures within { IsInside (tx.old.at + 1) (state S.Store tx.old.conn.now) (state S.Store tx.new.conn.now) }
    ensures open { HasCleanDisk (state S.Store tx.new.conn.now)
        → OnOk result (IsTrue (state S.Store tx.old.conn.now).is_open) }
    ensures inside { HasCleanDisk (state S.Store tx.new.conn.now)
        → OnOk result (IsTrue (state S.Store tx.new.conn.now).in_transaction) }
    ensures put { HasCleanDisk (state S.Store tx.new.conn.now)
        → IfOk result (λ count. (way : Way) (n m : ℕ) → HasCounters way (state S.Store tx.old.conn.now).now n m
        → count ≢ 0
        → (number ≡ m)
        × ChangesTable (state S.Store tx.old.conn.now) (state S.Store tx.new.conn.now) (store_schema way) meta_tree
        (meta_row current_number n (number + 1) ∷ [])) }
{
    let next = whole(number + 1);
    let number = whole(number);
    tx.execute(
        "UPDATE meta SET next_document = ?2 WHERE next_document = ?1",
        params![number, next],
    )
}

/// The row as it is shown.
pub fn meta_rows<S: Alter>(conn: &mut Connection<S>) -> Result<Vec<Row>, Error>
    ensures rows { ReadsBy (λ s rows. rows.items
        ≡ meta_shown current_number s.next_in s.next_out ∷ []) (state S.Store conn.old) (state S.Store conn.new)
        result }
{
    query_all(
        conn,
        "SELECT kind, version, next_receipt, next_document FROM meta",
        &[],
    )
}

/// The counters that the row shows.
fn next_of(rows: &[Row]) -> Result<NextNumbers, Error>
    ensures { IfOk result (λ next. (n m : ℕ) → rows.now ≡ meta_shown current_number n m ∷ [] → (next.receipt ≡ n)
        × (next.document ≡ m)) }
{
    match rows.first() {
        Some(row) => Ok(NextNumbers {
            receipt: row.get(2)?,
            document: row.get(3)?,
        }),
        None => Err(Error::QueryReturnedNoRows),
    }
}

/// The numbers that the next entries get.
pub fn next_numbers<S: Alter>(conn: &mut Connection<S>) -> Result<NextNumbers, StoreFault>
    ensures numbers { ReadsBy (λ s next. AreNext next s) (state S.Store conn.old) (state S.Store conn.new) result }
    ensures fault { IfErr result (λ f. may_come f ≡ true) }
    ensures row { IfErr result (λ f. comes_of (is_row_of table.Meta) f ≡ true) }
{
    let rows = meta_rows(conn).map_err(fault_of)?;
    let place = RowPlace {
        table: Table::Meta,
        number: 0,
    };
    next_of(&rows).map_err(|error| unread_column(error, place))
}
