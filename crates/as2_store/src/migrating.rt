//! Tables of an earlier version become those of the version that is read, in one transaction.

ghost use Rattle.std.specs.Prelude.{◌≡◌, ◌⊎◌, ◌<◌, ◌^◌, if◌then◌else◌, [], ◌∷◌, List, ℕ, None, Ok, Some, true, false, IsTrue, IfOk, IfErr, OnOk, OnErr};
ghost use Rattle.sqlite.specs.Held.{state};
ghost use Rattle.sqlite.specs.State.{Executes, HasCleanDisk};
ghost use Rattle.sqlite.specs.declared.types.Value.TheVariants.{Text};
ghost use Rattle.as2_exchange.specs.Run.{migrated_state};
ghost use Rattle.as2_exchange.specs.State.{State};
ghost use Rattle.as2_records.specs.Standing.{IsCounted, may_come};
ghost use Rattle.as2_rows.specs.Rows.{whole};
ghost use Rattle.as2_store.specs.Calls.{IsGivenBack, IsInside};
ghost use Rattle.as2_store.specs.Migrating.{AreShared, CommitsMigrated, IsBeside, IsCopied, IsInboxBeside, IsMigrationReason, IsMoved, IsNearly, StandsForMigrated, Migrates, StandsBut, is_full, migration_fault};
ghost use Rattle.as2_exchange.specs.declared.fault.StoreFault.TheVariants.{Damaged};
ghost use Rattle.as2_exchange.specs.declared.place.RowPlace.{RowPlace as Place};
ghost use Rattle.as2_exchange.specs.declared.place.Table.TheVariants as table;
ghost use Rattle.as2_store.specs.Stands.{Stands, is_row_of};
ghost use Rattle.as2_store.specs.Tables.{Layout, Migrated, VersionOne, VersionThree, VersionTwo, Way, number_of};

use crate::adopting::unread;
use crate::creating::run;
use crate::fault::fault_of;
use crate::numbers::whole;
use crate::origin::put_origin;
use as2_exchange::{RowPlace, StoreFault, Table};
use sqlite::types::ValueRef;
use sqlite::{Alter, Connection, Error, Row, Transaction, params};

/// Makes the later tables of the inbox beside those of the first version.
fn make_inbox_beside<S: Alter>(tx: &mut Transaction<'_, S>) -> Result<(), Error>
    ensures same_reference { tx.new.conn.ghost_name ≡ tx.old.conn.ghost_name }
    ensures within { IsInside 0 (state S.Store tx.old.conn.now) (state S.Store tx.new.conn.now) }
    ensures made { HasCleanDisk (state S.Store tx.new.conn.now)
        → OnOk result ((s : State) → Stands VersionOne (state S.Store tx.old.conn.now).now s
        → IsInboxBeside (state S.Store tx.new.conn.now).now s) }
{
    run(
        tx,
        "CREATE TABLE inbox2 (number INTEGER PRIMARY KEY, sender BLOB NOT NULL, receiver BLOB NOT NULL, identifier_value BLOB NOT NULL, identifier BLOB NOT NULL, content_type BLOB NOT NULL, length INTEGER NOT NULL, moment INTEGER NOT NULL, outcome INTEGER NOT NULL CHECK (outcome >= 1 AND outcome <= 6), how INTEGER NOT NULL, url BLOB, digest TEXT CHECK (digest = 'sha1' OR digest = 'md5' OR digest = 'sha-256'), mic BLOB, mdn INTEGER NOT NULL, tries INTEGER NOT NULL, attempt INTEGER NOT NULL, due INTEGER, UNIQUE (sender, receiver, identifier_value)) STRICT",
    )?;
    run(
        tx,
        "CREATE TABLE inbox2_piece (number INTEGER NOT NULL REFERENCES inbox2 (number), position INTEGER NOT NULL, bytes BLOB NOT NULL, PRIMARY KEY (number, position)) STRICT",
    )?;
    Ok(())
}

/// Makes all tables of the later versions beside those of the first.
fn make_beside<S: Alter>(tx: &mut Transaction<'_, S>) -> Result<(), Error>
    ensures same_reference { tx.new.conn.ghost_name ≡ tx.old.conn.ghost_name }
    ensures within { IsInside 0 (state S.Store tx.old.conn.now) (state S.Store tx.new.conn.now) }
    ensures made { HasCleanDisk (state S.Store tx.new.conn.now)
        → OnOk result ((s : State) → Stands VersionOne (state S.Store tx.old.conn.now).now s
        → IsBeside (state S.Store tx.new.conn.now).now s) }
{
    make_inbox_beside(tx)?;
    run(tx, "CREATE TABLE origin (number INTEGER NOT NULL) STRICT")?;
    run(
        tx,
        "CREATE TABLE resent (number INTEGER PRIMARY KEY REFERENCES outbox (number)) STRICT",
    )?;
    Ok(())
}

/// Copies all entries of the inbox to the later table of them, without their contents.
fn copy_inbox<S: Alter>(tx: &mut Transaction<'_, S>) -> Result<(), Error>
    ensures same_reference { tx.new.conn.ghost_name ≡ tx.old.conn.ghost_name }
    ensures within { IsInside 0 (state S.Store tx.old.conn.now) (state S.Store tx.new.conn.now) }
    ensures copied { HasCleanDisk (state S.Store tx.new.conn.now)
        → OnOk result ((s : State) → IsCounted s → IsBeside (state S.Store tx.old.conn.now).now s
        → AreShared (state S.Store tx.new.conn.now).now s) }
{
    run(
        tx,
        "INSERT INTO inbox2 (number, sender, receiver, identifier_value, identifier, content_type, length, moment, outcome, how, url, digest, mic, mdn, tries, attempt, due) SELECT number, sender, receiver, identifier_value, identifier, content_type, length, moment, outcome, how, url, digest, mic, mdn, tries, attempt, due FROM inbox ORDER BY number",
    )?;
    Ok(())
}

/// Runs a statement whose one parameter is this number.
fn run_below<S: Alter>(tx: &mut Transaction<'_, S>, text: &str, below: u64) -> Result<(), Error>
    requires { below < 2 ^ 63 }
    ensures same_reference { tx.new.conn.ghost_name ≡ tx.old.conn.ghost_name }
    ensures within { IsInside 0 (state S.Store tx.old.conn.now) (state S.Store tx.new.conn.now) }
    ensures ran { HasCleanDisk (state S.Store tx.new.conn.now)
        → OnOk result ((count : ℕ)
        × Executes text.now (whole below ∷ []) (state S.Store tx.old.conn.now) (state S.Store tx.new.conn.now)
        (Ok count)) }
{
    let below = whole(below);
    tx.execute(text, params![below])?;
    Ok(())
}

/// Moves the contents of the receipts below this number to the later table: what is moved later takes the pages that they leave.
fn move_below<S: Alter>(tx: &mut Transaction<'_, S>, below: u64) -> Result<(), Error>
    requires { below < 2 ^ 63 }
    ensures same_reference { tx.new.conn.ghost_name ≡ tx.old.conn.ghost_name }
    ensures within { IsInside 0 (state S.Store tx.old.conn.now) (state S.Store tx.new.conn.now) }
    ensures moved { HasCleanDisk (state S.Store tx.new.conn.now)
        → OnOk result ((s : State) → AreShared (state S.Store tx.old.conn.now).now s
        → AreShared (state S.Store tx.new.conn.now).now s) }
{
    run_below(
        tx,
        "INSERT INTO inbox2_piece (number, position, bytes) SELECT number, position, bytes FROM inbox_piece WHERE number < ?1",
        below,
    )?;
    run_below(tx, "DELETE FROM inbox_piece WHERE number < ?1", below)?;
    Ok(())
}

/// Moves the contents that are left to the later table.
fn move_rest<S: Alter>(tx: &mut Transaction<'_, S>) -> Result<(), Error>
    ensures same_reference { tx.new.conn.ghost_name ≡ tx.old.conn.ghost_name }
    ensures within { IsInside 0 (state S.Store tx.old.conn.now) (state S.Store tx.new.conn.now) }
    ensures moved { HasCleanDisk (state S.Store tx.new.conn.now)
        → OnOk result ((s : State) → AreShared (state S.Store tx.old.conn.now).now s
        → IsCopied (state S.Store tx.new.conn.now).now s) }
{
    run(
        tx,
        "INSERT INTO inbox2_piece (number, position, bytes) SELECT number, position, bytes FROM inbox_piece",
    )?;
    run(tx, "DELETE FROM inbox_piece")?;
    Ok(())
}

/// Moves all contents to the later table, in quarters of the numbers below the next one.
fn move_contents<S: Alter>(tx: &mut Transaction<'_, S>, next: u64) -> Result<(), Error>
    requires { next < 2 ^ 63 }
    ensures same_reference { tx.new.conn.ghost_name ≡ tx.old.conn.ghost_name }
    ensures within { IsInside 0 (state S.Store tx.old.conn.now) (state S.Store tx.new.conn.now) }
    ensures moved { HasCleanDisk (state S.Store tx.new.conn.now)
        → OnOk result ((s : State) → AreShared (state S.Store tx.old.conn.now).now s
        → IsCopied (state S.Store tx.new.conn.now).now s) }
{
    move_below(tx, next / 4)?;
    move_below(tx, next / 2)?;
    move_below(tx, next - next / 4)?;
    move_rest(tx)?;
    Ok(())
}

/// Empties the table of the entries, which were copied.
fn empty_first<S: Alter>(tx: &mut Transaction<'_, S>) -> Result<(), Error>
    ensures same_reference { tx.new.conn.ghost_name ≡ tx.old.conn.ghost_name }
    ensures within { IsInside 0 (state S.Store tx.old.conn.now) (state S.Store tx.new.conn.now) }
    ensures emptied { HasCleanDisk (state S.Store tx.new.conn.now)
        → OnOk result ((s : State) → IsCounted s → IsCopied (state S.Store tx.old.conn.now).now s
        → IsMoved (state S.Store tx.new.conn.now).now s) }
{
    run(tx, "DELETE FROM inbox")?;
    Ok(())
}

/// Makes tables of the first version those of the current one, but for the version in `meta`. The next receipt has this number.
fn move_first<S: Alter>(tx: &mut Transaction<'_, S>, next: u64) -> Result<(), Error>
    requires { next < 2 ^ 63 }
    ensures same_reference { tx.new.conn.ghost_name ≡ tx.old.conn.ghost_name }
    ensures within { IsInside 0 (state S.Store tx.old.conn.now) (state S.Store tx.new.conn.now) }
    ensures moved { HasCleanDisk (state S.Store tx.new.conn.now)
        → OnOk result ((s : State) → Stands VersionOne (state S.Store tx.old.conn.now).now s → next ≡ s.next_in
        → StandsBut 1 Migrated (state S.Store tx.new.conn.now).now (migrated_state s)) }
{
    make_beside(tx)?;
    copy_inbox(tx)?;
    move_contents(tx, next)?;
    empty_first(tx)?;
    put_origin(tx, next)?;
    Ok(())
}

/// The same for tables of the second version.
fn move_second<S: Alter>(tx: &mut Transaction<'_, S>) -> Result<(), Error>
    ensures same_reference { tx.new.conn.ghost_name ≡ tx.old.conn.ghost_name }
    ensures within { IsInside 0 (state S.Store tx.old.conn.now) (state S.Store tx.new.conn.now) }
    ensures moved { HasCleanDisk (state S.Store tx.new.conn.now)
        → OnOk result ((way : Way) (s : State) → Stands (VersionTwo way) (state S.Store tx.old.conn.now).now s
        → StandsBut 2 way (state S.Store tx.new.conn.now).now s) }
{
    run(
        tx,
        "CREATE TABLE resent (number INTEGER PRIMARY KEY REFERENCES outbox (number)) STRICT",
    )?;
    Ok(())
}

/// Says the current version in `meta`.
fn raise_version<S: Alter>(tx: &mut Transaction<'_, S>) -> Result<(), Error>
    ensures same_reference { tx.new.conn.ghost_name ≡ tx.old.conn.ghost_name }
    ensures within { IsInside 0 (state S.Store tx.old.conn.now) (state S.Store tx.new.conn.now) }
    ensures inside { HasCleanDisk (state S.Store tx.new.conn.now)
        → OnOk result (IsTrue (state S.Store tx.new.conn.now).in_transaction) }
    ensures raised { HasCleanDisk (state S.Store tx.new.conn.now)
        → OnOk result ((number : ℕ) (way : Way) (s : State) → StandsBut number way (state S.Store tx.old.conn.now).now s
        → Stands (VersionThree way) (state S.Store tx.new.conn.now).now s) }
{
    tx.execute("UPDATE meta SET version = 3", &[])?;
    Ok(())
}

/// What the row of `meta` of an earlier version says.
#[derive(Clone, Copy, Debug, PartialEq, Eq)]
struct Earlier {
    /// Whether it is the first version, and else the second.
    is_first: bool,
    /// The next number of a receipt.
    next: u64,
}

/// What these rows of `meta` say, unless they aren't those of a store of an earlier version.
fn told(rows: &[Row]) -> Result<Earlier, StoreFault>
    ensures told { IfOk result (λ it. (it.next < 2 ^ 63)
        × ((kind : List ℕ) (version n m : ℕ) → rows.now ≡ (Text kind ∷ whole version ∷ whole n ∷ whole m ∷ []) ∷ []
        → (migration_fault kind version ≡ None) × (version ≡ (if it.is_first then 1 else 2)) × (it.next ≡ n))) }
    ensures not_full { IfErr result (λ f. is_full f ≡ false) }
    ensures fault { IfErr result (λ f. (may_come f ≡ true)
        ⊎ ((kind : List ℕ) (version n m : ℕ) → rows.now ≡ (Text kind ∷ whole version ∷ whole n ∷ whole m ∷ []) ∷ []
        → migration_fault kind version ≡ Some f)) }
    ensures row { IfErr result (λ f. (place : Place) → f ≡ Damaged place → is_row_of table.Meta place ≡ true) }
{
    let [row] = rows else {
        return Err(StoreFault::NotAStore);
    };
    match row.get_ref(0) {
        Ok(ValueRef::Text(kind)) => if kind != b"as2-station".as_slice() {
            return Err(StoreFault::NotAStore);
        },
        _ => return Err(StoreFault::NotAStore),
    }
    let is_first = match row.get_ref(1) {
        Ok(ValueRef::Int(1)) => true,
        Ok(ValueRef::Int(2)) => false,
        _ => return Err(StoreFault::OtherVersion),
    };
    match row.get_ref(2) {
        Ok(ValueRef::Int(next)) => if next >= 0 {
            return Ok(Earlier {
                is_first,
                next: next as u64,
            });
        },
        _ => (),
    }
    Err(StoreFault::Damaged(RowPlace {
        table: Table::Meta,
        number: 0,
    }))
}

/// Makes tables of an earlier version those of the current one, but for the version in `meta`.
fn move_to<S: Alter>(tx: &mut Transaction<'_, S>, earlier: Earlier) -> Result<(), Error>
    requires { earlier.next < 2 ^ 63 }
    ensures same_reference { tx.new.conn.ghost_name ≡ tx.old.conn.ghost_name }
    ensures within { IsInside 0 (state S.Store tx.old.conn.now) (state S.Store tx.new.conn.now) }
    ensures moved { HasCleanDisk (state S.Store tx.new.conn.now)
        → OnOk result ((layout : Layout) (s : State) → Stands layout (state S.Store tx.old.conn.now).now s
        → number_of layout ≡ (if earlier.is_first then 1 else 2) → earlier.next ≡ s.next_in
        → IsNearly layout (state S.Store tx.new.conn.now).now s) }
{
    if earlier.is_first {
        move_first(tx, earlier.next)?;
        return Ok(());
    }
    move_second(tx)?;
    Ok(())
}

/// Makes tables of an earlier version those of the current one.
fn move_tables<S: Alter>(tx: &mut Transaction<'_, S>, earlier: Earlier) -> Result<(), Error>
    requires { earlier.next < 2 ^ 63 }
    ensures same_reference { tx.new.conn.ghost_name ≡ tx.old.conn.ghost_name }
    ensures within { IsInside 0 (state S.Store tx.old.conn.now) (state S.Store tx.new.conn.now) }
    ensures inside { HasCleanDisk (state S.Store tx.new.conn.now)
        → OnOk result (IsTrue (state S.Store tx.new.conn.now).in_transaction) }
    ensures moved { HasCleanDisk (state S.Store tx.new.conn.now)
        → OnOk result ((layout : Layout) (s : State) → Stands layout (state S.Store tx.old.conn.now).now s
        → number_of layout ≡ (if earlier.is_first then 1 else 2) → earlier.next ≡ s.next_in
        → StandsForMigrated layout (state S.Store tx.new.conn.now).now s) }
{
    move_to(tx, earlier)?;
    raise_version(tx)?;
    Ok(())
}

/// Makes tables of an earlier version those of the current one, in one transaction, which is undone where that fails or where they
/// are no such tables.
pub fn migrate<S: Alter>(conn: &mut Connection<S>) -> Result<(), StoreFault>
    requires autocommit { conn.old.in_transaction ≡ false }
    ensures autocommit { conn.new.in_transaction ≡ false }
    ensures migrated { OnOk result (Migrates (state S.Store conn.old) (state S.Store conn.new)) }
    ensures given_back { OnErr result
        (IsGivenBack (CommitsMigrated (state S.Store conn.old)) (state S.Store conn.old) (state S.Store conn.new)) }
    ensures reason { HasCleanDisk (state S.Store conn.new) → IfErr result (IsMigrationReason (state S.Store conn.old)) }
{
    let is_bare = conn.schema().tables.is_empty();
    let mut tx = conn.transaction();
    let rows = match tx.query_all(
        "SELECT kind, version, next_receipt, next_document FROM meta",
        &[],
    ) {
        Ok(rows) => rows,
        Err(error) => return Err(unread(error)),
    };
    if is_bare {
        return Err(StoreFault::NotAStore);
    }
    let earlier = match told(&rows) {
        Ok(earlier) => earlier,
        Err(fault) => return Err(fault),
    };
    match move_tables(&mut tx, earlier) {
        Ok(()) => (),
        Err(error) => return Err(fault_of(error)),
    }
    let Err(error) = tx.commit() else {
        return Ok(());
    };
    Err(fault_of(error))
}
