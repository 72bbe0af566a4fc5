//! Documents that were begun and are to be sent anew: each has a row of its number.

ghost use Rattle.std.specs.Prelude.{◌≡◌, ◌+◌, ◌==◌, ◌<◌, ◌^◌, ◌||◌, nat_le, not, List, ℕ, Bool, Some, true, false, find, map, filter, IsTrue, IfOk, IfErr, OnOk};
ghost use Rattle.sqlite.specs.Held.{state};
ghost use Rattle.sqlite.specs.State.{HasCleanDisk};
ghost use Rattle.sqlite.specs.Tree.{put_row};
ghost use Rattle.sql_tables.specs.Changes.{ChangesTable};
ghost use Rattle.as2_exchange.specs.State.{State};
ghost use Rattle.as2_exchange.specs.declared.outbox.OutEntry.{OutEntry as Document};
ghost use Rattle.as2_store.specs.Calls.{IsInside};
ghost use Rattle.as2_store.specs.Rounds.{ReadsBy};
ghost use Rattle.as2_store.specs.Due.{number_row};
ghost use Rattle.as2_store.specs.Resending.{HoldsResent, IsReady, has_row, tried_numbers};
ghost use Rattle.as2_exchange.specs.declared.place.RowPlace.{RowPlace as Place};
ghost use Rattle.as2_store.specs.Stands.{Stands, comes_of, resent_row};
ghost use Rattle.as2_store.specs.Tables.{Way, VersionThree, store_schema, resent_tree};
ghost use Rattle.as2_records.specs.Standing.{may_come};

use crate::fault::fault_of;
use crate::numbers::whole;
use crate::reading::query_all;
use as2_exchange::StoreFault;
use as2_records::OutRow;
use sqlite::{Alter, Connection, Error, Row, Savepoint, params};

/// The rows of the number of the document of this number, where it was tried since it was last queued.
fn tried_rows<S: Alter>(tx: &mut Savepoint<'_, S>, number: u64) -> Result<Vec<Row>, Error>
    requires number { number < 2 ^ 63 }
    requires begun { HasCleanDisk (state S.Store tx.old.conn.now)
        → IsTrue (state S.Store tx.old.conn.now).in_transaction }
    ensures same_reference { tx.new.conn.ghost_name ≡ tx.old.conn.ghost_name }
    ensures place { tx.new.at ≡ tx.old.at }
    ensures within { IsInside (tx.old.at + 1) (state S.Store tx.old.conn.now) (state S.Store tx.new.conn.now) }
    ensures rows { HasCleanDisk (state S.Store tx.new.conn.now)
        → IfOk result (λ rows. (way : Way) (s : State) → Stands (VersionThree way) (state S.Store tx.old.conn.now).now s
        → ((state S.Store tx.new.conn.now).now ≡ (state S.Store tx.old.conn.now).now)
        × (rows.items ≡ map number_row (tried_numbers number s))) }
{
    let number = whole(number);
    tx.query_all(
        "SELECT number FROM outbox WHERE number = ?1 AND tries >= 1 ORDER BY number",
        params![number],
    )
}

/// Takes out the row of this number.
fn take_resent<S: Alter>(tx: &mut Savepoint<'_, S>, number: u64) -> Result<(), Error>
    requires { number < 2 ^ 63 }
    ensures same_reference { tx.new.conn.ghost_name ≡ tx.old.conn.ghost_name }
    ensures place { tx.new.at ≡ tx.old.at }
    ensures within { IsInside (tx.old.at + 1) (state S.Store tx.old.conn.now) (state S.Store tx.new.conn.now) }
    ensures put { HasCleanDisk (state S.Store tx.new.conn.now)
        → OnOk result ((way : Way) (ns : List ℕ) → HoldsResent way (state S.Store tx.old.conn.now).now ns
        → ChangesTable (state S.Store tx.old.conn.now) (state S.Store tx.new.conn.now) (store_schema way)
        (resent_tree way)
        (map resent_row (filter (λ n. not (n == number)) ns))) }
{
    let number = whole(number);
    tx.execute("DELETE FROM resent WHERE number = ?1", params![number])?;
    Ok(())
}

/// Puts in the row of this number.
fn put_resent<S: Alter>(tx: &mut Savepoint<'_, S>, number: u64) -> Result<(), Error>
    requires { number < 2 ^ 63 }
    ensures same_reference { tx.new.conn.ghost_name ≡ tx.old.conn.ghost_name }
    ensures place { tx.new.at ≡ tx.old.at }
    ensures within { IsInside (tx.old.at + 1) (state S.Store tx.old.conn.now) (state S.Store tx.new.conn.now) }
    ensures put { HasCleanDisk (state S.Store tx.new.conn.now)
        → OnOk result ((way : Way) → (state S.Store tx.old.conn.now).now.schema ≡ store_schema way
        → ChangesTable (state S.Store tx.old.conn.now) (state S.Store tx.new.conn.now) (store_schema way)
        (resent_tree way)
        (put_row (resent_row number) ((state S.Store tx.old.conn.now).now.trees (resent_tree way)))) }
{
    let number = whole(number);
    tx.execute("INSERT INTO resent (number) VALUES (?1)", params![number])?;
    Ok(())
}

/// Gives the document of this number a row, where it was tried: so it stays begun once it has no try.
fn mark<S: Alter>(tx: &mut Savepoint<'_, S>, number: u64) -> Result<(), Error>
    requires number { number < 2 ^ 63 }
    requires begun { HasCleanDisk (state S.Store tx.old.conn.now)
        → IsTrue (state S.Store tx.old.conn.now).in_transaction }
    ensures same_reference { tx.new.conn.ghost_name ≡ tx.old.conn.ghost_name }
    ensures place { tx.new.at ≡ tx.old.at }
    ensures within { IsInside (tx.old.at + 1) (state S.Store tx.old.conn.now) (state S.Store tx.new.conn.now) }
    ensures marked { HasCleanDisk (state S.Store tx.new.conn.now)
        → OnOk result ((way : Way) (s : State) → Stands (VersionThree way) (state S.Store tx.old.conn.now).now s
        → IsReady way (state S.Store tx.new.conn.now).now s number 0) }
{
    let found = tried_rows(tx, number)?;
    if found.is_empty() {
        return Ok(());
    }
    take_resent(tx, number)?;
    put_resent(tx, number)?;
    Ok(())
}

/// Readies the document of this number to be given so many tries.
pub fn ready<S: Alter>(tx: &mut Savepoint<'_, S>, number: u64, tries: u64) -> Result<(), Error>
    requires number { number < 2 ^ 63 }
    requires begun { HasCleanDisk (state S.Store tx.old.conn.now)
        → IsTrue (state S.Store tx.old.conn.now).in_transaction }
    ensures same_reference { tx.new.conn.ghost_name ≡ tx.old.conn.ghost_name }
    ensures place { tx.new.at ≡ tx.old.at }
    ensures within { IsInside (tx.old.at + 1) (state S.Store tx.old.conn.now) (state S.Store tx.new.conn.now) }
    ensures readied { HasCleanDisk (state S.Store tx.new.conn.now)
        → OnOk result ((way : Way) (s : State) → Stands (VersionThree way) (state S.Store tx.old.conn.now).now s
        → IsReady way (state S.Store tx.new.conn.now).now s number tries) }
{
    if tries == 0 {
        mark(tx, number)?;
    }
    Ok(())
}

/// The row of this number, if there is one.
fn resent_rows<S: Alter>(conn: &mut Connection<S>, number: u64) -> Result<Vec<Row>, Error>
    requires number { number < 2 ^ 63 }
    ensures rows { ReadsBy (λ s rows. (p : Document → Bool) (d : Document) → find p s.outbox ≡ Some d
        → number ≡ d.number
        → d.begun ≡ (nat_le 1 d.tries || has_row rows.items)) (state S.Store conn.old) (state S.Store conn.new) result }
{
    let number = whole(number);
    query_all(
        conn,
        "SELECT number FROM resent WHERE number = ?1 ORDER BY number",
        params![number],
    )
}

/// Whether the document whose row it is was begun.
pub fn begun_in<S: Alter>(conn: &mut Connection<S>, row: &OutRow) -> Result<bool, StoreFault>
    requires open { HasCleanDisk (state S.Store conn.old) → IsTrue (state S.Store conn.old).is_open }
    requires number { row.now.number < 2 ^ 63 }
    ensures begun { ReadsBy (λ s begun. (p : Document → Bool) (d : Document) → find p s.outbox ≡ Some d
        → row.now.number ≡ d.number → row.now.tries ≡ d.tries
        → begun ≡ d.begun) (state S.Store conn.old) (state S.Store conn.new) result }
    ensures fault { IfErr result (λ f. may_come f ≡ true) }
    ensures row { IfErr result (λ f. (is_there : Place → Bool) → comes_of is_there f ≡ true) }
{
    if row.tries >= 1 {
        return Ok(true);
    }
    let rows = resent_rows(conn, row.number).map_err(fault_of)?;
    Ok(!rows.is_empty())
}
