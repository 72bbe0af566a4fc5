//! An entry is added in one transaction.

ghost use Rattle.std.specs.Prelude.{◌≡◌, ◌+◌, ◌<◌, false, IsTrue, OnOk};
ghost use Rattle.sqlite.specs.Held.{state};
ghost use Rattle.sqlite.specs.State.{HasCleanDisk};
ghost use Rattle.as2_store.specs.Calls.{IsInside};
ghost use Rattle.as2_store.specs.Rounds.{WritesBy};
ghost use Rattle.as2_exchange.specs.State.{State, end_of_numbers};
ghost use Rattle.as2_store.specs.Stands.{Stands};
ghost use Rattle.as2_store.specs.Tables.{Way, VersionThree};
ghost use Rattle.as2_store.specs.Adding.{EntryFits, IsEntered};
ghost use Rattle.as2_records.specs.Adding.{state_with, with_received};

use crate::contents::{Mailbox, put_pieces};
use crate::counters::raise_next_receipt;
use crate::inbox::put_in;
use crate::waiting::put_in_waiting;
use as2_exchange::InEntry;
use sqlite::{Alter, Connection, Error, Savepoint};

/// Puts in the row, the content and the wait of an entry of the inbox.
fn put_received<S: Alter>(tx: &mut Savepoint<'_, S>, entry: &InEntry) -> Result<(), Error>
    requires number { entry.now.number < end_of_numbers }
    requires fits { EntryFits entry.now.posted.content entry.now.tries entry.now.due }
    ensures same_reference { tx.new.conn.ghost_name ≡ tx.old.conn.ghost_name }
    ensures place { tx.new.at ≡ tx.old.at }
    ensures within { IsInside (tx.old.at + 1) (state S.Store tx.old.conn.now) (state S.Store tx.new.conn.now) }
    ensures open { HasCleanDisk (state S.Store tx.new.conn.now)
        → OnOk result (IsTrue (state S.Store tx.old.conn.now).is_open) }
    ensures put { HasCleanDisk (state S.Store tx.new.conn.now)
        → OnOk result ((way : Way) (s : State) → Stands (VersionThree way) (state S.Store tx.old.conn.now).now s
        → IsEntered way (state S.Store tx.new.conn.now).now s entry.now.number s.next_in (with_received s entry.now)) }
{
    put_in(tx, entry)?;
    put_pieces(tx, Mailbox::Inbox, entry.number, &entry.posted.content)?;
    put_in_waiting(tx, entry)?;
    Ok(())
}

/// Adds an entry to the inbox. No row is said to have its number where that isn't the next one.
pub fn add<S: Alter>(conn: &mut Connection<S>, entry: &InEntry) -> Result<(), Error>
    requires number { entry.now.number < end_of_numbers }
    requires fits { EntryFits entry.now.posted.content entry.now.tries entry.now.due }
    ensures added { WritesBy (state_with entry.now) (state S.Store conn.old) (state S.Store conn.new) result }
{
    let mut tx = conn.savepoint()?;
    put_received(&mut tx, entry)?;
    if raise_next_receipt(&mut tx, entry.number)? == 0 {
        return Err(Error::QueryReturnedNoRows);
    }
    tx.commit()?;
    Ok(())
}
