//! A receipt settles a document: in one transaction the document changes, its evidence is put in, and it waits no more.

ghost use Rattle.std.specs.Prelude.{◌≡◌, ◌+◌, ◌==◌, ◌<◌, ◌^◌, true, false, map, filter, length, IsTrue, IfOk, OnOk};
ghost use Rattle.sqlite.specs.Held.{state};
ghost use Rattle.sqlite.specs.State.{HasCleanDisk};
ghost use Rattle.as2_store.specs.Calls.{IsInside};
ghost use Rattle.as2_store.specs.Rounds.{WritesBy};
ghost use Rattle.sql_tables.specs.Changes.{ChangesTable};
ghost use Rattle.as2_exchange.specs.State.{State, change_document};
ghost use Rattle.as2_exchange.specs.Invariants.{is_by_receipt};
ghost use Rattle.as2_exchange.specs.declared.outbox.Evidence.{Evidence as Receipt};
ghost use Rattle.as2_rows.specs.Rows.{out_row};
ghost use Rattle.as2_store.specs.Tables.{Way, VersionThree, store_schema, outbox_tree};
ghost use Rattle.as2_store.specs.Stands.{Stands};
ghost use Rattle.as2_exchange.specs.Documents.{settled_as};
ghost use Rattle.as2_records.specs.Settling.{settled_in};

use crate::numbers::{asked, whole};
use crate::outbox::put_evidence;
use crate::waiting::take_document;
use as2_exchange::Evidence;
use as2_mdn::Detail;
use as2_rows::detail_code;
use sqlite::{Alter, Connection, Error, Savepoint, params};

/// Sets the document of this number to have this detail, with no try open and nothing due, and answers how many documents
/// have the number.
fn set_settled<S: Alter>(
    tx: &mut Savepoint<'_, S>,
    number: u64,
    detail: Detail,
) -> Result<usize, Error>
    requires { number < 2 ^ 63 }
    ensures same_reference { tx.new.conn.ghost_name ≡ tx.old.conn.ghost_name }
    ensures place { tx.new.at ≡ tx.old.at }
    ensures within { IsInside (tx.old.at + 1) (state S.Store tx.old.conn.now) (state S.Store tx.new.conn.now) }
    ensures open { HasCleanDisk (state S.Store tx.new.conn.now)
        → OnOk result (IsTrue (state S.Store tx.old.conn.now).is_open) }
    ensures put { HasCleanDisk (state S.Store tx.new.conn.now)
        → IfOk result (λ count. (way : Way) (s : State)
        → Stands (VersionThree way) (state S.Store tx.old.conn.now).now s → (e : Receipt)
        → ChangesTable (state S.Store tx.old.conn.now) (state S.Store tx.new.conn.now) (store_schema way) outbox_tree
        (map out_row (change_document s number (settled_as detail e)).outbox)
        × (count ≡ length (filter (λ d. d.number == number) s.outbox))) }
{
    let number = whole(number);
    let detail = detail_code(detail);
    tx.execute(
        "UPDATE outbox SET attempt = 1, due = NULL, detail = ?2 WHERE number = ?1",
        params![number, detail],
    )
}

/// Settles the document of this number by a receipt, whose report is given in one piece too. No row is said to have the
/// number of no document; and the key of the evidence is refused where a receipt has settled it.
pub fn settle<S: Alter>(
    conn: &mut Connection<S>,
    number: u64,
    detail: Detail,
    evidence: &Evidence,
    body: &[u8],
) -> Result<(), Error>
    requires by_receipt { is_by_receipt detail ≡ true }
    requires body { body.now ≡ evidence.now.body }
    ensures settled { WritesBy (settled_in number detail evidence.now) (state S.Store conn.old)
        (state S.Store conn.new)
        result }
{
    let wanted = asked(number);
    let mut tx = conn.savepoint()?;
    if set_settled(&mut tx, wanted, detail)? == 0 {
        return Err(Error::QueryReturnedNoRows);
    }
    put_evidence(&mut tx, wanted, evidence, body)?;
    take_document(&mut tx, wanted)?;
    tx.commit()?;
    Ok(())
}
