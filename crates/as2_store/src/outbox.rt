//! The rows of the outbox and of its evidence, without the contents.

ghost use Rattle.std.specs.Prelude.{◌≡◌, ◌+◌, ◌==◌, ◌<◌, ◌^◌, [], ◌∷◌, true, false, map, filter, IsTrue, IfOk, OnOk};
ghost use Rattle.sqlite.specs.Held.{state};
ghost use Rattle.sqlite.specs.Edit.{are_fresh};
ghost use Rattle.sqlite.specs.State.{HasCleanDisk};
ghost use Rattle.as2_store.specs.Calls.{IsInside};
ghost use Rattle.as2_store.specs.Rounds.{ReadsBy};
ghost use Rattle.sqlite.specs.Tree.{put_row};
ghost use Rattle.sql_tables.specs.Changes.{ChangesTable};
ghost use Rattle.as2_exchange.specs.State.{State};
ghost use Rattle.as2_rows.specs.Rows.{out_row, out_shown, evidence_row};
ghost use Rattle.as2_store.specs.Adding.{EntryFits};
ghost use Rattle.as2_store.specs.Finding.{evidence_at, has_id, shown_evidence};
ghost use Rattle.as2_store.specs.Stands.{Rests};
ghost use Rattle.as2_store.specs.Tables.{Way, store_schema, evidence_tree, outbox_tree};

use crate::numbers::{asked, whole, whole_or_none};
use crate::reading::query_all;
use as2_exchange::{Evidence, OutEntry};
use as2_rows::{attempt_code, detail_code};
use sqlite::{Alter, Connection, Error, Row, Savepoint, params};

/// Puts in the row of a document.
pub fn put_out<S: Alter>(tx: &mut Savepoint<'_, S>, entry: &OutEntry) -> Result<(), Error>
    requires number { entry.now.number < 2 ^ 63 }
    requires fits { EntryFits entry.now.content entry.now.tries entry.now.due }
    ensures same_reference { tx.new.conn.ghost_name ≡ tx.old.conn.ghost_name }
    ensures place { tx.new.at ≡ tx.old.at }
    ensures within { IsInside (tx.old.at + 1) (state S.Store tx.old.conn.now) (state S.Store tx.new.conn.now) }
    ensures open { HasCleanDisk (state S.Store tx.new.conn.now)
        → OnOk result (IsTrue (state S.Store tx.old.conn.now).is_open) }
    ensures put { HasCleanDisk (state S.Store tx.new.conn.now)
        → OnOk result ((way : Way) → (state S.Store tx.old.conn.now).now.schema ≡ store_schema way
        → ChangesTable (state S.Store tx.old.conn.now) (state S.Store tx.new.conn.now) (store_schema way) outbox_tree
        (put_row (out_row entry.now) ((state S.Store tx.old.conn.now).now.trees outbox_tree))) }
{
    let number = whole(entry.number);
    let length = whole(entry.content.len() as u64);
    let moment = whole(entry.moment.seconds());
    let tries = whole(entry.tries);
    let due = whole_or_none(entry.due);
    tx.execute(
        "INSERT INTO outbox (number, organization, partner, identifier_value, identifier, length, moment, tries, attempt, due, detail) VALUES (?1, ?2, ?3, ?4, ?5, ?6, ?7, ?8, ?9, ?10, ?11)",
        params![
            number,
            entry.organization.bytes(),
            entry.partner.bytes(),
            entry.id.value().as_bytes(),
            entry.id.as_received().as_bytes(),
            length,
            moment,
            tries,
            attempt_code(entry.attempt),
            due,
            detail_code(entry.detail)
        ],
    )?;
    Ok(())
}

/// The rows of the documents with an identifier of this value.
pub fn rows_by_id<S: Alter>(conn: &mut Connection<S>, value: &[u8]) -> Result<Vec<Row>, Error>
    ensures rows { ReadsBy (λ s rows. rows.items
        ≡ map out_shown (filter (has_id value.now) s.outbox)) (state S.Store conn.old) (state S.Store conn.new) result }
{
    query_all(
        conn,
        "SELECT number, organization, partner, identifier_value, identifier, length, moment, tries, attempt, due, detail FROM outbox WHERE identifier_value = ?1 ORDER BY number",
        params![value],
    )
}

/// The rows of the document of this number.
pub fn rows_by_number<S: Alter>(conn: &mut Connection<S>, number: u64) -> Result<Vec<Row>, Error>
    ensures rows { ReadsBy (λ s rows. rows.items
        ≡ map out_shown (filter (λ d. d.number == number) s.outbox)) (state S.Store conn.old) (state S.Store conn.new)
        result }
{
    let wanted = asked(number);
    let param = whole(wanted);
    query_all(
        conn,
        "SELECT number, organization, partner, identifier_value, identifier, length, moment, tries, attempt, due, detail FROM outbox WHERE number = ?1 ORDER BY number",
        params![param],
    )
}

/// The rows of the evidence of the document of this number.
pub fn evidence_rows<S: Alter>(conn: &mut Connection<S>, number: u64) -> Result<Vec<Row>, Error>
    ensures rows { ReadsBy (λ s rows. rows.items
        ≡ shown_evidence number (evidence_at s number)) (state S.Store conn.old) (state S.Store conn.new) result }
{
    let wanted = asked(number);
    let param = whole(wanted);
    query_all(
        conn,
        "SELECT number, moment, content_type, body FROM evidence WHERE number = ?1 ORDER BY number",
        params![param],
    )
}

/// Puts in the row of the evidence of the document of this number; `body` is its report in one piece.
pub fn put_evidence<S: Alter>(
    tx: &mut Savepoint<'_, S>,
    number: u64,
    evidence: &Evidence,
    body: &[u8],
) -> Result<(), Error>
    requires number { number < 2 ^ 63 }
    requires body { body.now ≡ evidence.now.body }
    ensures same_reference { tx.new.conn.ghost_name ≡ tx.old.conn.ghost_name }
    ensures place { tx.new.at ≡ tx.old.at }
    ensures within { IsInside (tx.old.at + 1) (state S.Store tx.old.conn.now) (state S.Store tx.new.conn.now) }
    ensures put { HasCleanDisk (state S.Store tx.new.conn.now)
        → OnOk result ((way : Way) → (state S.Store tx.old.conn.now).now.schema ≡ store_schema way
        → ChangesTable (state S.Store tx.old.conn.now) (state S.Store tx.new.conn.now) (store_schema way) evidence_tree
        (put_row (evidence_row number evidence.now) ((state S.Store tx.old.conn.now).now.trees evidence_tree))
        × (are_fresh ((state S.Store tx.old.conn.now).now.trees evidence_tree) (evidence_row number evidence.now ∷ [])
        ≡ true)) }
{
    let number = whole(number);
    let moment = whole(evidence.moment.seconds());
    tx.execute(
        "INSERT INTO evidence (number, moment, content_type, body) VALUES (?1, ?2, ?3, ?4)",
        params![number, moment, evidence.content_type.as_slice(), body],
    )?;
    Ok(())
}
