//! A query, alone or within a round.

ghost use Rattle.std.specs.Prelude.{◌≡◌, false, true};
ghost use Rattle.sqlite.specs.Held.{state};
ghost use Rattle.sqlite.specs.Listing.{understood};
ghost use Rattle.sqlite.specs.State.{Shown};
ghost use Rattle.sqlite.specs.Values.{bound};
ghost use Rattle.sqlite.proofs.Callers.{IsPlain};
ghost use Rattle.as2_store.specs.Tables.{Way, store_schema};
ghost use Rattle.as2_store.specs.Calls.{ReadsTables};
ghost use Rattle.as2_store.specs.Rounds.{ReadsBy, in_round};

use sqlite::types::ValueRef;
use sqlite::{Alter, Connection, Error, Row};

/// The rows that a query shows. It is read in a transaction, so that nothing else is committed, whatever the tables are.
fn query_alone<S: Alter>(
    conn: &mut Connection<S>,
    sql: &str,
    params: &[ValueRef<'_>],
) -> Result<Vec<Row>, Error>
    requires autocommit { conn.old.in_transaction ≡ false }
    requires plain { (way : Way) → IsPlain (understood (store_schema way) sql.now) }
    ensures autocommit { conn.new.in_transaction ≡ false }
    ensures shown { ReadsTables
        (λ s rows. Shown sql.now (bound params.now) (state S.Store conn.old) (state S.Store conn.old) rows.items)
        (state S.Store conn.old) (state S.Store conn.new) result }
{
    let mut tx = conn.transaction();
    let rows = tx.query_all(sql, params)?;
    tx.commit()?;
    Ok(rows)
}

/// The rows that a query shows, alone or within a round.
pub fn query_all<S: Alter>(
    conn: &mut Connection<S>,
    sql: &str,
    params: &[ValueRef<'_>],
) -> Result<Vec<Row>, Error>
    requires plain { (way : Way) → IsPlain (understood (store_schema way) sql.now) }
    ensures shown { ReadsBy
        (λ s rows. Shown sql.now (bound params.now) (state S.Store conn.old) (state S.Store conn.old) rows.items)
        (state S.Store conn.old) (state S.Store conn.new) result }
{
    if conn.is_autocommit() {
        return query_alone(conn, sql, params);
    }
    conn.query_all(sql, params)
}
