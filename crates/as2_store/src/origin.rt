//! The one row of `origin`: the number below which receipts were recorded by the first version.

ghost use Rattle.std.specs.Prelude.{◌≡◌, ◌<◌, ◌^◌, [], ◌∷◌, ℕ, false, IsTrue, IfOk, OnOk};
ghost use Rattle.sqlite.specs.Held.{state};
ghost use Rattle.sqlite.specs.State.{HasCleanDisk};
ghost use Rattle.sql_tables.specs.Changes.{ChangesTable};
ghost use Rattle.as2_exchange.specs.State.{State, origin_of};
ghost use Rattle.as2_store.specs.Calls.{IsInside};
ghost use Rattle.as2_store.specs.Rounds.{ReadsBy};
ghost use Rattle.as2_store.specs.Due.{number_row};
ghost use Rattle.as2_store.specs.Stands.{origin_row};
ghost use Rattle.as2_store.specs.Tables.{Way, store_schema, origin_tree};

use crate::numbers::whole;
use crate::reading::query_all;
use sqlite::{Alter, Connection, Error, Row, Transaction, params};

/// Puts the row into the table without rows.
pub fn put_origin<S: Alter>(tx: &mut Transaction<'_, S>, number: u64) -> Result<(), Error>
    requires { number < 2 ^ 63 }
    ensures same_reference { tx.new.conn.ghost_name ≡ tx.old.conn.ghost_name }
    ensures within { IsInside 0 (state S.Store tx.old.conn.now) (state S.Store tx.new.conn.now) }
    ensures inside { HasCleanDisk (state S.Store tx.new.conn.now)
        → OnOk result (IsTrue (state S.Store tx.new.conn.now).in_transaction) }
    ensures put { HasCleanDisk (state S.Store tx.new.conn.now)
        → OnOk result ((way : Way) → (state S.Store tx.old.conn.now).now.schema ≡ store_schema way
        → (state S.Store tx.old.conn.now).now.trees (origin_tree way) ≡ []
        → ChangesTable (state S.Store tx.old.conn.now) (state S.Store tx.new.conn.now) (store_schema way)
        (origin_tree way)
        (origin_row number ∷ [])) }
{
    let number = whole(number);
    tx.execute("INSERT INTO origin (number) VALUES (?1)", params![number])?;
    Ok(())
}

/// The row as it is shown.
pub fn origin_rows<S: Alter>(conn: &mut Connection<S>) -> Result<Vec<Row>, Error>
    ensures rows { ReadsBy (λ s rows. rows.items
        ≡ number_row (origin_of s.version) ∷ []) (state S.Store conn.old) (state S.Store conn.new) result }
{
    query_all(conn, "SELECT number FROM origin", &[])
}

/// The number that the row shows.
pub fn origin_in(rows: &[Row]) -> Result<u64, Error>
    ensures { IfOk result (λ number. (n : ℕ) → rows.now ≡ number_row n ∷ [] → number ≡ n) }
{
    match rows.first() {
        Some(row) => Ok(row.get(0)?),
        None => Err(Error::QueryReturnedNoRows),
    }
}
