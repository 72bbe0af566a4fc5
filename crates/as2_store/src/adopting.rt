//! Whether a connection has the tables of a store.

ghost use Rattle.std.specs.Prelude.{◌≡◌, ◌⊎◌, ℕ, [], ◌∷◌, List, false, true, Some, IfErr, OnOk, OnErr};
ghost use Rattle.sqlite.specs.Held.{state};
ghost use Rattle.sqlite.specs.State.{HasCleanDisk};
ghost use Rattle.sqlite.specs.declared.types.Value.TheVariants.{Text};
ghost use Rattle.sql_tables.specs.Changes.{IsOutside};
ghost use Rattle.as2_exchange.specs.declared.fault.StoreFault.TheVariants.{NotAStore};
ghost use Rattle.as2_rows.specs.Rows.{whole};
ghost use Rattle.as2_store.specs.Stands.{adoption_fault};
ghost use Rattle.as2_records.specs.Standing.{may_come};
ghost use Rattle.as2_store.specs.Calls.{Adopts, CommitsTables, IsGivenBack, IsReason};

use crate::fault::fault_of;
use as2_exchange::StoreFault;
use sqlite::types::ValueRef;
use sqlite::{Alter, Connection, Error, ErrorCode, Row};

/// What a failure to read `meta` says of the tables.
pub fn unread(error: Error) -> StoreFault
    ensures outside { IsOutside error → may_come result ≡ true }
    ensures known { (may_come result ≡ true) ⊎ (result ≡ NotAStore) }
{
    if let Error::SqliteFailure(ErrorCode::TooBig | ErrorCode::OperationInterrupted) = &error {
        return StoreFault::Refused;
    }
    match fault_of(error) {
        StoreFault::Refused => StoreFault::NotAStore,
        fault => fault,
    }
}

/// Why these rows of `meta` aren't those of a store, unless they are.
fn refused(rows: &[Row]) -> Option<StoreFault>
    ensures { (kind : List ℕ) (version n m : ℕ) → rows.now ≡ (Text kind ∷ whole version ∷ whole n ∷ whole m ∷ []) ∷ []
        → result ≡ adoption_fault kind version }
{
    let [row] = rows else {
        return Some(StoreFault::NotAStore);
    };
    match row.get_ref(0) {
        Ok(ValueRef::Text(kind)) => if kind != b"as2-station".as_slice() {
            return Some(StoreFault::NotAStore);
        },
        _ => return Some(StoreFault::NotAStore),
    }
    match row.get_ref(1) {
        Ok(ValueRef::Int(3)) => None,
        _ => Some(StoreFault::OtherVersion),
    }
}

/// Whether the tables are those of a store. What is read is read in a transaction, which is undone where they aren't.
pub fn check<S: Alter>(conn: &mut Connection<S>) -> Result<(), StoreFault>
    requires autocommit { conn.old.in_transaction ≡ false }
    ensures autocommit { conn.new.in_transaction ≡ false }
    ensures adopted { OnOk result (Adopts (state S.Store conn.old) (state S.Store conn.new)) }
    ensures given_back { OnErr result
        (IsGivenBack (CommitsTables Some (state S.Store conn.old)) (state S.Store conn.old) (state S.Store conn.new)) }
    ensures reason { HasCleanDisk (state S.Store conn.new) → IfErr result (IsReason (state S.Store conn.old)) }
{
    let is_bare = conn.schema().tables.is_empty();
    let mut tx = conn.transaction();
    let rows = match tx.query_all(
        "SELECT kind, version, next_receipt, next_document FROM meta",
        &[],
    ) {
        Ok(rows) => rows,
        Err(error) => return Err(unread(error)),
    };
    if is_bare {
        return Err(StoreFault::NotAStore);
    }
    if let Some(fault) = refused(&rows) {
        return Err(fault);
    }
    let Err(error) = tx.commit() else {
        return Ok(());
    };
    Err(fault_of(error))
}
