//! The tables are made in one transaction.

ghost use Rattle.std.specs.Prelude.{◌≡◌, ◌<◌, ◌≤◌, ℕ, [], false, Ok, IsTrue, OnOk, OnErr};
ghost use Rattle.sqlite.specs.Held.{state};
ghost use Rattle.sqlite.specs.State.{HasCleanDisk, Executes};
ghost use Rattle.as2_store.specs.Calls.{IsInside, Creates, CommitsFirst, IsGivenBack, empty_store};
ghost use Rattle.as2_exchange.specs.State.{end_of_numbers};
ghost use Rattle.as2_store.specs.Tables.{Fresh, VersionThree, no_schema, inbox_schema, outbox_schema, waiting_schema, store_schema};
ghost use Rattle.as2_store.specs.Stands.{Rests, IsBlank, HasNoRow, Stands};

use crate::counters::put_meta;
use crate::origin::put_origin;
use sqlite::{Alter, Connection, Error, Transaction};

/// Runs a statement without parameters.
pub fn run<S: Alter>(tx: &mut Transaction<'_, S>, text: &str) -> Result<(), Error>
    ensures same_reference { tx.new.conn.ghost_name ≡ tx.old.conn.ghost_name }
    ensures within { IsInside 0 (state S.Store tx.old.conn.now) (state S.Store tx.new.conn.now) }
    ensures open { HasCleanDisk (state S.Store tx.new.conn.now)
        → OnOk result (IsTrue (state S.Store tx.old.conn.now).is_open) }
    ensures ran { HasCleanDisk (state S.Store tx.new.conn.now)
        → OnOk result ((count : ℕ)
        × Executes text.now [] (state S.Store tx.old.conn.now) (state S.Store tx.new.conn.now) (Ok count)) }
{
    tx.execute(text, &[])?;
    Ok(())
}

/// Makes the tables of the counters and of the inbox.
fn make_inbox<S: Alter>(tx: &mut Transaction<'_, S>) -> Result<(), Error>
    ensures same_reference { tx.new.conn.ghost_name ≡ tx.old.conn.ghost_name }
    ensures within { IsInside 0 (state S.Store tx.old.conn.now) (state S.Store tx.new.conn.now) }
    ensures open { HasCleanDisk (state S.Store tx.new.conn.now)
        → OnOk result (IsTrue (state S.Store tx.old.conn.now).is_open) }
    ensures made { HasCleanDisk (state S.Store tx.new.conn.now)
        → OnOk result (HasNoRow (state S.Store tx.old.conn.now).now no_schema
        → HasNoRow (state S.Store tx.new.conn.now).now inbox_schema) }
{
    run(
        tx,
        "CREATE TABLE meta (kind TEXT NOT NULL, version INTEGER NOT NULL, next_receipt INTEGER NOT NULL, next_document INTEGER NOT NULL) STRICT",
    )?;
    run(
        tx,
        "CREATE TABLE inbox2 (number INTEGER PRIMARY KEY, sender BLOB NOT NULL, receiver BLOB NOT NULL, identifier_value BLOB NOT NULL, identifier BLOB NOT NULL, content_type BLOB NOT NULL, length INTEGER NOT NULL, moment INTEGER NOT NULL, outcome INTEGER NOT NULL CHECK (outcome >= 1 AND outcome <= 6), how INTEGER NOT NULL, url BLOB, digest TEXT CHECK (digest = 'sha1' OR digest = 'md5' OR digest = 'sha-256'), mic BLOB, mdn INTEGER NOT NULL, tries INTEGER NOT NULL, attempt INTEGER NOT NULL, due INTEGER, UNIQUE (sender, receiver, identifier_value)) STRICT",
    )?;
    run(
        tx,
        "CREATE TABLE inbox2_piece (number INTEGER NOT NULL REFERENCES inbox2 (number), position INTEGER NOT NULL, bytes BLOB NOT NULL, PRIMARY KEY (number, position)) STRICT",
    )?;
    Ok(())
}

/// Makes the tables of the outbox.
fn make_outbox<S: Alter>(tx: &mut Transaction<'_, S>) -> Result<(), Error>
    ensures same_reference { tx.new.conn.ghost_name ≡ tx.old.conn.ghost_name }
    ensures within { IsInside 0 (state S.Store tx.old.conn.now) (state S.Store tx.new.conn.now) }
    ensures open { HasCleanDisk (state S.Store tx.new.conn.now)
        → OnOk result (IsTrue (state S.Store tx.old.conn.now).is_open) }
    ensures made { HasCleanDisk (state S.Store tx.new.conn.now)
        → OnOk result (HasNoRow (state S.Store tx.old.conn.now).now inbox_schema
        → HasNoRow (state S.Store tx.new.conn.now).now outbox_schema) }
{
    run(
        tx,
        "CREATE TABLE outbox (number INTEGER PRIMARY KEY, organization BLOB NOT NULL, partner BLOB NOT NULL, identifier_value BLOB NOT NULL UNIQUE, identifier BLOB NOT NULL, length INTEGER NOT NULL, moment INTEGER NOT NULL, tries INTEGER NOT NULL, attempt INTEGER NOT NULL, due INTEGER, detail INTEGER NOT NULL CHECK (detail >= 1 AND detail <= 14)) STRICT",
    )?;
    run(
        tx,
        "CREATE TABLE outbox_piece (number INTEGER NOT NULL REFERENCES outbox (number), position INTEGER NOT NULL, bytes BLOB NOT NULL, PRIMARY KEY (number, position)) STRICT",
    )?;
    run(
        tx,
        "CREATE TABLE evidence (number INTEGER PRIMARY KEY REFERENCES outbox (number), moment INTEGER NOT NULL, content_type BLOB NOT NULL, body BLOB NOT NULL) STRICT",
    )?;
    Ok(())
}

/// Makes the table of what waits, and its index.
fn make_waiting<S: Alter>(tx: &mut Transaction<'_, S>) -> Result<(), Error>
    ensures same_reference { tx.new.conn.ghost_name ≡ tx.old.conn.ghost_name }
    ensures within { IsInside 0 (state S.Store tx.old.conn.now) (state S.Store tx.new.conn.now) }
    ensures open { HasCleanDisk (state S.Store tx.new.conn.now)
        → OnOk result (IsTrue (state S.Store tx.old.conn.now).is_open) }
    ensures made { HasCleanDisk (state S.Store tx.new.conn.now)
        → OnOk result (HasNoRow (state S.Store tx.old.conn.now).now outbox_schema
        → HasNoRow (state S.Store tx.new.conn.now).now waiting_schema) }
{
    run(
        tx,
        "CREATE TABLE waiting (place INTEGER PRIMARY KEY, kind INTEGER NOT NULL, number INTEGER NOT NULL, due INTEGER, UNIQUE (kind, number)) STRICT",
    )?;
    run(
        tx,
        "CREATE INDEX waiting_due ON waiting (kind, due, number)",
    )?;
    Ok(())
}

/// Makes the tables of the origin and of what was sent anew.
fn make_later<S: Alter>(tx: &mut Transaction<'_, S>) -> Result<(), Error>
    ensures same_reference { tx.new.conn.ghost_name ≡ tx.old.conn.ghost_name }
    ensures within { IsInside 0 (state S.Store tx.old.conn.now) (state S.Store tx.new.conn.now) }
    ensures open { HasCleanDisk (state S.Store tx.new.conn.now)
        → OnOk result (IsTrue (state S.Store tx.old.conn.now).is_open) }
    ensures made { HasCleanDisk (state S.Store tx.new.conn.now)
        → OnOk result (HasNoRow (state S.Store tx.old.conn.now).now waiting_schema
        → HasNoRow (state S.Store tx.new.conn.now).now (store_schema Fresh)) }
{
    run(tx, "CREATE TABLE origin (number INTEGER NOT NULL) STRICT")?;
    run(
        tx,
        "CREATE TABLE resent (number INTEGER PRIMARY KEY REFERENCES outbox (number)) STRICT",
    )?;
    Ok(())
}

/// Makes all tables, without rows.
fn make_tables<S: Alter>(tx: &mut Transaction<'_, S>) -> Result<(), Error>
    ensures same_reference { tx.new.conn.ghost_name ≡ tx.old.conn.ghost_name }
    ensures within { IsInside 0 (state S.Store tx.old.conn.now) (state S.Store tx.new.conn.now) }
    ensures open { HasCleanDisk (state S.Store tx.new.conn.now)
        → OnOk result (IsTrue (state S.Store tx.old.conn.now).is_open) }
    ensures made { HasCleanDisk (state S.Store tx.new.conn.now)
        → OnOk result (HasNoRow (state S.Store tx.old.conn.now).now no_schema
        → HasNoRow (state S.Store tx.new.conn.now).now (store_schema Fresh)) }
{
    make_inbox(tx)?;
    make_outbox(tx)?;
    make_waiting(tx)?;
    make_later(tx)?;
    Ok(())
}

/// Puts the first rows into tables without rows: those of a store without entries, whose next numbers are the first.
fn put_first<S: Alter>(tx: &mut Transaction<'_, S>, first: u64) -> Result<(), Error>
    requires least { 1 ≤ first }
    requires most { first < end_of_numbers }
    ensures same_reference { tx.new.conn.ghost_name ≡ tx.old.conn.ghost_name }
    ensures within { IsInside 0 (state S.Store tx.old.conn.now) (state S.Store tx.new.conn.now) }
    ensures inside { HasCleanDisk (state S.Store tx.new.conn.now)
        → OnOk result (IsTrue (state S.Store tx.new.conn.now).in_transaction) }
    ensures put { HasCleanDisk (state S.Store tx.new.conn.now)
        → OnOk result (HasNoRow (state S.Store tx.old.conn.now).now (store_schema Fresh)
        → Stands (VersionThree Fresh) (state S.Store tx.new.conn.now).now (empty_store first)) }
{
    put_meta(tx, first)?;
    put_origin(tx, 0)?;
    Ok(())
}

/// Makes the tables of a store without entries, whose next numbers are the first.
pub fn make<S: Alter>(conn: &mut Connection<S>, first: u64) -> Result<(), Error>
    requires autocommit { conn.old.in_transaction ≡ false }
    requires least { 1 ≤ first }
    requires most { first < end_of_numbers }
    ensures autocommit { conn.new.in_transaction ≡ false }
    ensures created { OnOk result (Creates first (state S.Store conn.old) (state S.Store conn.new)) }
    ensures given_back { OnErr result
        (IsGivenBack (CommitsFirst first (state S.Store conn.old)) (state S.Store conn.old) (state S.Store conn.new)) }
{
    let mut tx = conn.transaction();
    make_tables(&mut tx)?;
    put_first(&mut tx, first)?;
    tx.commit()?;
    Ok(())
}
