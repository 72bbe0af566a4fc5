//! A document comes further: in one transaction its row changes, and it waits for something else.

ghost use Rattle.std.specs.Prelude.{◌≡◌, ◌+◌, ◌==◌, ◌≤◌, ◌<◌, ◌^◌, false, map, filter, length, IsTrue, IfOk, OnOk};
ghost use Rattle.sqlite.specs.Held.{state};
ghost use Rattle.sqlite.specs.State.{HasCleanDisk};
ghost use Rattle.as2_store.specs.Calls.{IsInside};
ghost use Rattle.as2_store.specs.Rounds.{WritesBy};
ghost use Rattle.sql_tables.specs.Changes.{ChangesTable};
ghost use Rattle.as2_exchange.specs.State.{State, change_document};
ghost use Rattle.as2_rows.specs.Rows.{out_row};
ghost use Rattle.as2_store.specs.Tables.{Way, VersionThree, store_schema, outbox_tree};
ghost use Rattle.as2_store.specs.Stands.{Stands};
ghost use Rattle.as2_store.specs.Progressing.{FitsProgress};
ghost use Rattle.as2_records.specs.Progressing.{come_to, set_out_in};

use crate::numbers::{asked, whole, whole_or_none};
use crate::resending::ready;
use crate::waiting::wait_for;
use as2_records::Progress;
use as2_rows::{attempt_code, detail_code};
use sqlite::{Alter, Connection, Error, Savepoint, params};

/// Sets how far the document of this number has come, and answers how many documents have the number.
fn set_progress<S: Alter>(
    tx: &mut Savepoint<'_, S>,
    number: u64,
    progress: Progress,
) -> Result<usize, Error>
    requires number { number < 2 ^ 63 }
    requires fits { FitsProgress progress }
    ensures same_reference { tx.new.conn.ghost_name ≡ tx.old.conn.ghost_name }
    ensures place { tx.new.at ≡ tx.old.at }
    ensures within { IsInside (tx.old.at + 1) (state S.Store tx.old.conn.now) (state S.Store tx.new.conn.now) }
    ensures open { HasCleanDisk (state S.Store tx.new.conn.now)
        → OnOk result (IsTrue (state S.Store tx.old.conn.now).is_open) }
    ensures put { HasCleanDisk (state S.Store tx.new.conn.now)
        → IfOk result (λ count. (way : Way) (s : State)
        → Stands (VersionThree way) (state S.Store tx.old.conn.now).now s
        → ChangesTable (state S.Store tx.old.conn.now) (state S.Store tx.new.conn.now) (store_schema way) outbox_tree
        (map out_row (change_document s number (come_to progress)).outbox)
        × (count ≡ length (filter (λ d. d.number == number) s.outbox))) }
{
    let number = whole(number);
    let tries = whole(progress.tries);
    let due = whole_or_none(progress.due);
    tx.execute(
        "UPDATE outbox SET tries = ?2, attempt = ?3, due = ?4, detail = ?5 WHERE number = ?1",
        params![
            number,
            tries,
            attempt_code(progress.attempt),
            due,
            detail_code(progress.detail)
        ],
    )
}

/// Sets how far the document of this number has come. No row is said to have the number of no document.
pub fn set<S: Alter>(conn: &mut Connection<S>, number: u64, progress: Progress) -> Result<(), Error>
    requires fits { FitsProgress progress }
    ensures set { WritesBy (set_out_in number progress) (state S.Store conn.old) (state S.Store conn.new) result }
{
    let wanted = asked(number);
    let mut tx = conn.savepoint()?;
    ready(&mut tx, wanted, progress.tries)?;
    if set_progress(&mut tx, wanted, progress)? == 0 {
        return Err(Error::QueryReturnedNoRows);
    }
    wait_for(&mut tx, wanted, progress)?;
    tx.commit()?;
    Ok(())
}
