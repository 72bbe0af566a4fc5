//! A receipt that is owed comes further: in one transaction its entry changes, and it waits again, or no more.

ghost use Rattle.std.specs.Prelude.{◌≡◌, ◌+◌, ◌==◌, ◌≤◌, ◌<◌, ◌^◌, false, map, filter, length, IsTrue, IfOk, OnOk};
ghost use Rattle.sqlite.specs.Held.{state};
ghost use Rattle.sqlite.specs.State.{HasCleanDisk};
ghost use Rattle.as2_store.specs.Calls.{IsInside};
ghost use Rattle.as2_store.specs.Rounds.{WritesBy};
ghost use Rattle.sql_tables.specs.Changes.{ChangesTable};
ghost use Rattle.as2_exchange.specs.State.{State, change_received};
ghost use Rattle.as2_rows.specs.Rows.{in_row};
ghost use Rattle.as2_store.specs.Tables.{Way, VersionThree, store_schema, inbox_tree};
ghost use Rattle.as2_store.specs.Stands.{Stands};
ghost use Rattle.as2_store.specs.Owing.{FitsReceipt};
ghost use Rattle.as2_records.specs.Owing.{with_receipt_progress, set_receipt_in};

use crate::numbers::{asked, whole, whole_or_none};
use crate::waiting::answer_for;
use as2_records::ReceiptProgress;
use as2_rows::{attempt_code, receipt_stage_code};
use sqlite::{Alter, Connection, Error, Savepoint, params};

/// Sets how far the receipt of the entry of this number has come, and answers how many entries have the number.
fn set_receipt_row<S: Alter>(
    tx: &mut Savepoint<'_, S>,
    number: u64,
    progress: ReceiptProgress,
) -> Result<usize, Error>
    requires fits { FitsReceipt progress }
    ensures same_reference { tx.new.conn.ghost_name ≡ tx.old.conn.ghost_name }
    ensures place { tx.new.at ≡ tx.old.at }
    ensures within { IsInside (tx.old.at + 1) (state S.Store tx.old.conn.now) (state S.Store tx.new.conn.now) }
    ensures open { HasCleanDisk (state S.Store tx.new.conn.now)
        → OnOk result (IsTrue (state S.Store tx.old.conn.now).is_open) }
    ensures inside { HasCleanDisk (state S.Store tx.new.conn.now)
        → OnOk result (IsTrue (state S.Store tx.new.conn.now).in_transaction) }
    ensures put { HasCleanDisk (state S.Store tx.new.conn.now)
        → IfOk result (λ count. (way : Way) (s : State)
        → Stands (VersionThree way) (state S.Store tx.old.conn.now).now s
        → ChangesTable (state S.Store tx.old.conn.now) (state S.Store tx.new.conn.now) (store_schema way)
        (inbox_tree way)
        (map in_row (change_received s number (with_receipt_progress progress)).inbox)
        × (count ≡ length (filter (λ e. e.number == number) s.inbox))) }
{
    let wanted = asked(number);
    let param = whole(wanted);
    let tries = whole(progress.tries);
    let due = whole_or_none(progress.due);
    tx.execute(
        "UPDATE inbox2 SET mdn = ?2, tries = ?3, attempt = ?4, due = ?5 WHERE number = ?1",
        params![
            param,
            receipt_stage_code(progress.receipt_stage),
            tries,
            attempt_code(progress.attempt),
            due
        ],
    )
}

/// Sets how far the receipt of the entry of this number, if there is one, has come.
pub fn set<S: Alter>(
    conn: &mut Connection<S>,
    number: u64,
    progress: ReceiptProgress,
) -> Result<(), Error>
    requires fits { FitsReceipt progress }
    ensures set { WritesBy (set_receipt_in number progress) (state S.Store conn.old) (state S.Store conn.new)
        result }
{
    let mut tx = conn.savepoint()?;
    if set_receipt_row(&mut tx, number, progress)? == 0 {
        tx.commit()?;
        return Ok(());
    }
    answer_for(&mut tx, asked(number), progress)?;
    tx.commit()?;
    Ok(())
}
