//! A document is added in one transaction.

ghost use Rattle.std.specs.Prelude.{◌≡◌, ◌+◌, ◌<◌, nat_le, None, false, IsTrue, OnOk};
ghost use Rattle.sqlite.specs.Held.{state};
ghost use Rattle.sqlite.specs.State.{HasCleanDisk};
ghost use Rattle.as2_store.specs.Calls.{IsInside};
ghost use Rattle.as2_store.specs.Rounds.{WritesBy};
ghost use Rattle.as2_exchange.specs.State.{State, end_of_numbers};
ghost use Rattle.as2_store.specs.Stands.{Stands};
ghost use Rattle.as2_store.specs.Tables.{Way, VersionThree};
ghost use Rattle.as2_store.specs.Adding.{EntryFits, IsEntered};
ghost use Rattle.as2_records.specs.Adding.{added_document, with_document};

use crate::contents::{Mailbox, put_pieces};
use crate::counters::raise_next_document;
use crate::outbox::put_out;
use crate::waiting::put_out_waiting;
use as2_exchange::OutEntry;
use as2_records::Progress;
use sqlite::{Alter, Connection, Error, Savepoint};

/// Whether a document is begun exactly where it was tried.
pub fn is_begun_by_tries(entry: &OutEntry) -> bool
    ensures { IsTrue result → entry.now.begun ≡ nat_le 1 entry.now.tries }
{
    entry.begun == (entry.tries >= 1)
}

/// How far a document has come.
fn progress_of(entry: &OutEntry) -> Progress
    ensures { result
        ≡ record {
          tries = entry.now.tries;
          attempt = entry.now.attempt;
          due = entry.now.due;
          detail = entry.now.detail;
        } }
{
    Progress {
        tries: entry.tries,
        attempt: entry.attempt,
        due: entry.due,
        detail: entry.detail,
    }
}

/// Puts in the row, the content and the wait of a document.
fn put_submitted<S: Alter>(tx: &mut Savepoint<'_, S>, entry: &OutEntry) -> Result<(), Error>
    requires number { entry.now.number < end_of_numbers }
    requires fits { EntryFits entry.now.content entry.now.tries entry.now.due }
    requires unsettled { entry.now.evidence ≡ None }
    requires begun { entry.now.begun ≡ nat_le 1 entry.now.tries }
    ensures same_reference { tx.new.conn.ghost_name ≡ tx.old.conn.ghost_name }
    ensures place { tx.new.at ≡ tx.old.at }
    ensures within { IsInside (tx.old.at + 1) (state S.Store tx.old.conn.now) (state S.Store tx.new.conn.now) }
    ensures open { HasCleanDisk (state S.Store tx.new.conn.now)
        → OnOk result (IsTrue (state S.Store tx.old.conn.now).is_open) }
    ensures put { HasCleanDisk (state S.Store tx.new.conn.now)
        → OnOk result ((way : Way) (s : State) → Stands (VersionThree way) (state S.Store tx.old.conn.now).now s
        → IsEntered way (state S.Store tx.new.conn.now).now s entry.now.number s.next_out (with_document s entry.now)) }
{
    put_out(tx, entry)?;
    put_pieces(tx, Mailbox::Outbox, entry.number, &entry.content)?;
    put_out_waiting(tx, entry.number, progress_of(entry))?;
    Ok(())
}

/// Adds a document that no receipt has settled to the outbox. No row is said to have its number where that isn't the next one.
pub fn add_document<S: Alter>(conn: &mut Connection<S>, entry: &OutEntry) -> Result<(), Error>
    requires number { entry.now.number < end_of_numbers }
    requires fits { EntryFits entry.now.content entry.now.tries entry.now.due }
    requires unsettled { entry.now.evidence ≡ None }
    requires begun { entry.now.begun ≡ nat_le 1 entry.now.tries }
    ensures added { WritesBy (added_document entry.now) (state S.Store conn.old) (state S.Store conn.new) result }
{
    let mut tx = conn.savepoint()?;
    put_submitted(&mut tx, entry)?;
    if raise_next_document(&mut tx, entry.number)? == 0 {
        return Err(Error::QueryReturnedNoRows);
    }
    tx.commit()?;
    Ok(())
}
