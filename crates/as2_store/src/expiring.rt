//! Time passes: in one transaction each document whose wait is over passes into another detail, and it waits no more.

ghost use Rattle.std.specs.Prelude.{◌≡◌, ◌+◌, ◌<◌, ◌≤◌, ℕ, List, map, false, count_by, IsTrue, IfOk, OnOk};
ghost use Rattle.std.specs.List.{AllByRecursion};
ghost use Rattle.sqlite.specs.Held.{state};
ghost use Rattle.sqlite.specs.State.{HasCleanDisk};
ghost use Rattle.sql_tables.specs.Changes.{ChangesTable};
ghost use Rattle.as2_exchange.specs.State.{State, end_of_numbers};
ghost use Rattle.as2_exchange.specs.declared.outbox.OutEntry.{OutEntry as Document};
ghost use Rattle.as2_rows.specs.Rows.{out_row};
ghost use Rattle.as2_rows.specs.Waiting.{WaitingRow, kind_code};
ghost use Rattle.as2_store.specs.Calls.{IsInside};
ghost use Rattle.as2_store.specs.Rounds.{WritesBy};
ghost use Rattle.as2_store.specs.Due.{due_numbers, number_row};
ghost use Rattle.as2_store.specs.Expiring.{TicksTablesAs, HoldsDocuments, PassesInto, RewritesDocuments, over, passed_documents, passing_in, passing_one, without_due};
ghost use Rattle.as2_records.specs.Expiring.{ticked_in};
ghost use Rattle.as2_store.specs.Requeuing.{HoldsWaiting};
ghost use Rattle.as2_store.specs.Stands.{Stands, waiting_row};
ghost use Rattle.as2_store.specs.Tables.{Way, VersionThree, store_schema, outbox_tree, waiting_tree};

use crate::numbers::{asked, whole};
use as2_mdn::Detail;
use as2_rows::{Wait, detail_code};
use as2_text::Moment;
use sqlite::{Alter, Connection, Error, ErrorCode, Row, Savepoint, params};

/// The rows of the numbers of what waits so and is due at this moment.
fn due_rows<S: Alter>(
    tx: &mut Savepoint<'_, S>,
    wait: Wait,
    moment: Moment,
) -> Result<Vec<Row>, Error>
    requires begun { HasCleanDisk (state S.Store tx.old.conn.now)
        → IsTrue (state S.Store tx.old.conn.now).in_transaction }
    ensures same_reference { tx.new.conn.ghost_name ≡ tx.old.conn.ghost_name }
    ensures place { tx.new.at ≡ tx.old.at }
    ensures within { IsInside (tx.old.at + 1) (state S.Store tx.old.conn.now) (state S.Store tx.new.conn.now) }
    ensures open { HasCleanDisk (state S.Store tx.new.conn.now)
        → OnOk result (IsTrue (state S.Store tx.old.conn.now).is_open) }
    ensures inside { HasCleanDisk (state S.Store tx.new.conn.now)
        → OnOk result (IsTrue (state S.Store tx.new.conn.now).in_transaction) }
    ensures rows { HasCleanDisk (state S.Store tx.new.conn.now)
        → IfOk result (λ rows. (way : Way) (s : State) → Stands (VersionThree way) (state S.Store tx.old.conn.now).now s
        → ((state S.Store tx.new.conn.now).now ≡ (state S.Store tx.old.conn.now).now)
        × (rows.items ≡ map number_row (due_numbers (kind_code wait) moment s))) }
{
    let kind = whole(wait.code());
    let moment = whole(moment.seconds());
    tx.query_all(
        "SELECT number FROM waiting WHERE kind = ?1 AND due <= ?2 ORDER BY place",
        params![kind, moment],
    )
}

/// Sets the document of this number to have this detail, with nothing due.
fn pass<S: Alter>(tx: &mut Savepoint<'_, S>, number: u64, detail: Detail) -> Result<(), Error>
    requires { number ≤ end_of_numbers }
    ensures same_reference { tx.new.conn.ghost_name ≡ tx.old.conn.ghost_name }
    ensures place { tx.new.at ≡ tx.old.at }
    ensures within { IsInside (tx.old.at + 1) (state S.Store tx.old.conn.now) (state S.Store tx.new.conn.now) }
    ensures inside { HasCleanDisk (state S.Store tx.new.conn.now)
        → OnOk result (IsTrue (state S.Store tx.new.conn.now).in_transaction) }
    ensures put { HasCleanDisk (state S.Store tx.new.conn.now)
        → OnOk result ((way : Way) (ds : List Document) → HoldsDocuments way (state S.Store tx.old.conn.now).now ds
        → ChangesTable (state S.Store tx.old.conn.now) (state S.Store tx.new.conn.now) (store_schema way) outbox_tree
        (map out_row (passing_one detail number ds))) }
{
    let number = whole(number);
    tx.execute(
        "UPDATE outbox SET due = NULL, detail = ?2 WHERE number = ?1",
        params![number, detail_code(detail)],
    )?;
    Ok(())
}

/// Sets each document whose number a row shows to have this detail, with nothing due.
fn pass_each<S: Alter>(tx: &mut Savepoint<'_, S>, rows: &[Row], detail: Detail) -> Result<(), Error>
    ensures same_reference { tx.new.conn.ghost_name ≡ tx.old.conn.ghost_name }
    ensures place { tx.new.at ≡ tx.old.at }
    ensures within { IsInside (tx.old.at + 1) (state S.Store tx.old.conn.now) (state S.Store tx.new.conn.now) }
    ensures put { HasCleanDisk (state S.Store tx.new.conn.now)
        → OnOk result ((way : Way) (ns : List ℕ) (ds : List Document) → AllByRecursion (λ n. n < end_of_numbers) ns
        → rows.now ≡ map number_row ns → HoldsDocuments way (state S.Store tx.old.conn.now).now ds
        → RewritesDocuments way (state S.Store tx.old.conn.now) (state S.Store tx.new.conn.now)
        (passed_documents detail ns ds)) }
{
    'rows: for row in rows {
        let number: u64 = row.get(0)?;
        pass(tx, asked(number), detail)?;
    }
    Ok(())
}

/// Takes out the rows of what waits so and is due at this moment.
fn take_due<S: Alter>(tx: &mut Savepoint<'_, S>, wait: Wait, moment: Moment) -> Result<(), Error>
    ensures same_reference { tx.new.conn.ghost_name ≡ tx.old.conn.ghost_name }
    ensures place { tx.new.at ≡ tx.old.at }
    ensures within { IsInside (tx.old.at + 1) (state S.Store tx.old.conn.now) (state S.Store tx.new.conn.now) }
    ensures inside { HasCleanDisk (state S.Store tx.new.conn.now)
        → OnOk result (IsTrue (state S.Store tx.new.conn.now).in_transaction) }
    ensures put { HasCleanDisk (state S.Store tx.new.conn.now)
        → OnOk result ((way : Way) (ws : List WaitingRow) → HoldsWaiting way (state S.Store tx.old.conn.now).now ws
        → ChangesTable (state S.Store tx.old.conn.now) (state S.Store tx.new.conn.now) (store_schema way) waiting_tree
        (map waiting_row (without_due (kind_code wait) moment ws))) }
{
    let kind = whole(wait.code());
    let moment = whole(moment.seconds());
    tx.execute(
        "DELETE FROM waiting WHERE kind = ?1 AND due <= ?2",
        params![kind, moment],
    )?;
    Ok(())
}

/// Each document that waits so and is due at this moment passes into this detail, and waits no more. Answers how many there
/// are.
fn pass_due<S: Alter>(
    tx: &mut Savepoint<'_, S>,
    wait: Wait,
    detail: Detail,
    moment: Moment,
) -> Result<u64, Error>
    requires begun { HasCleanDisk (state S.Store tx.old.conn.now)
        → IsTrue (state S.Store tx.old.conn.now).in_transaction }
    requires passes { PassesInto (kind_code wait) detail }
    ensures same_reference { tx.new.conn.ghost_name ≡ tx.old.conn.ghost_name }
    ensures place { tx.new.at ≡ tx.old.at }
    ensures within { IsInside (tx.old.at + 1) (state S.Store tx.old.conn.now) (state S.Store tx.new.conn.now) }
    ensures open { HasCleanDisk (state S.Store tx.new.conn.now)
        → OnOk result (IsTrue (state S.Store tx.old.conn.now).is_open) }
    ensures inside { HasCleanDisk (state S.Store tx.new.conn.now)
        → OnOk result (IsTrue (state S.Store tx.new.conn.now).in_transaction) }
    ensures passed { HasCleanDisk (state S.Store tx.new.conn.now)
        → IfOk result (λ count. (way : Way) (s : State)
        → Stands (VersionThree way) (state S.Store tx.old.conn.now).now s
        → Stands (VersionThree way) (state S.Store tx.new.conn.now).now (passing_in (kind_code wait) detail moment s)
        × (count ≡ count_by (over (kind_code wait) moment) s.outbox)) }
{
    let found = due_rows(tx, wait, moment)?;
    let rows = found.as_slice();
    if rows.is_empty() {
        return Ok(0);
    }
    pass_each(tx, rows, detail)?;
    take_due(tx, wait, moment)?;
    Ok(rows.len() as u64)
}

/// Each document whose receipt is overdue at this moment passes into `Overdue`, and each whose last try is into `TriesUsed`.
/// Answers how many there are. Where there is none, nothing is written.
pub fn expire<S: Alter>(conn: &mut Connection<S>, moment: Moment) -> Result<u64, Error>
    ensures passed { WritesBy (ticked_in moment) (state S.Store conn.old) (state S.Store conn.new) result }
    ensures counted { HasCleanDisk (state S.Store conn.new)
        → IfOk result (TicksTablesAs moment (state S.Store conn.old)) }
{
    let mut tx = conn.savepoint()?;
    let overdue = pass_due(&mut tx, Wait::ToHear, Detail::Overdue, moment)?;
    let used_up = pass_due(&mut tx, Wait::ToEnd, Detail::TriesUsed, moment)?;
    let Some(count) = overdue.checked_add(used_up) else {
        // No memory holds so many numbers.
        return Err(Error::SqliteFailure(ErrorCode::OutOfMemory));
    };
    tx.commit()?;
    Ok(count)
}
