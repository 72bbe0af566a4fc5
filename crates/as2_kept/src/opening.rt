//! The opening of records in SQLite.
ghost use Rattle.std.specs.Prelude.{◌≡◌, ◌<◌, ◌≤◌, Some, false, true, IfErr, IfOk, IsTrue};
ghost use Rattle.sqlite.specs.Held.{state};
ghost use Rattle.sqlite.specs.State.{HasCleanDisk};
ghost use Rattle.sqlite.specs.Steps.{over_memory};
ghost use Rattle.as2_exchange.specs.State.{end_of_numbers};
ghost use Rattle.as2_records.specs.Standing.{may_come};
ghost use Rattle.as2_store.specs.Calls.{Adopts, CommitsTables, CommitsFirst, Creates, IsGivenBack, IsReason, empty_store};
ghost use Rattle.as2_store.specs.Stands.{Rests};

use crate::Kept;
use as2_exchange::StoreFault;
use as2_store::Store;
use sqlite::{Alter, Connection, MemStore};
use std::alloc::Global;

/// The records of a connection whose tables are those of a store, as `Store::adopt` answers.
pub fn adopt<S: Alter>(conn: Connection<S>) -> Result<Kept<S>, (Connection<S>, StoreFault)>
    requires autocommit { conn.in_transaction ≡ false }
    ensures adopted { IfOk result (λ kept. Adopts (state S.Store conn) (state S.Store kept)) }
    ensures given_back { IfErr result
        (λ e. IsGivenBack (CommitsTables Some (state S.Store conn)) (state S.Store conn) (state S.Store e.0)) }
    ensures reason { IfErr result (λ e. HasCleanDisk (state S.Store e.0) → IsReason (state S.Store conn) e.1) }
{
    match Store::adopt(conn) {
        Ok(store) => Ok(Kept::new(store)),
        Err(refused) => Err(refused),
    }
}

/// New records, which begin with `first`, over a connection that has no tables, as `Store::create` answers.
pub fn create<S: Alter>(
    conn: Connection<S>,
    first: u64,
) -> Result<Kept<S>, (Connection<S>, StoreFault)>
    requires autocommit { conn.in_transaction ≡ false }
    requires least { 1 ≤ first }
    requires most { first < end_of_numbers }
    ensures created { IfOk result (λ kept. Creates first (state S.Store conn) (state S.Store kept)) }
    ensures given_back { IfErr result
        (λ e. IsGivenBack (CommitsFirst first (state S.Store conn)) (state S.Store conn) (state S.Store e.0)) }
    ensures fault { IfErr result (λ e. may_come e.1 ≡ true) }
{
    match Store::create(conn, first) {
        Ok(store) => Ok(Kept::new(store)),
        Err(refused) => Err(refused),
    }
}

/// New records in memory, which begin with `first`. Answers Memory, Disk or Refused.
pub fn in_memory(alloc: Global, first: u64) -> Result<Kept<MemStore>, StoreFault>
    requires least { 1 ≤ first }
    requires most { first < end_of_numbers }
    ensures open { IfOk result (λ kept. IsTrue (state over_memory kept).is_open) }
    ensures fresh { IfOk result (λ kept. Rests (state over_memory kept) (empty_store first)) }
    ensures fault { IfErr result (λ f. may_come f ≡ true) }
{
    let Ok(conn) = Connection::open_in_memory(alloc) else {
        return Err(StoreFault::Memory);
    };
    match create(conn, first) {
        Ok(records) => Ok(records),
        Err((_, fault)) => Err(fault),
    }
}
