//! The rows of the inbox, without the contents.

ghost use Rattle.std.specs.Prelude.{◌≡◌, ◌+◌, ◌<◌, ◌^◌, ◌==◌, false, map, filter, IsTrue, IfOk, OnOk};
ghost use Rattle.sqlite.specs.Held.{state};
ghost use Rattle.sqlite.specs.State.{HasCleanDisk};
ghost use Rattle.as2_store.specs.Calls.{IsInside};
ghost use Rattle.as2_store.specs.Rounds.{ReadsBy};
ghost use Rattle.sqlite.specs.Tree.{put_row};
ghost use Rattle.sql_tables.specs.Changes.{ChangesTable};
ghost use Rattle.as2_rows.specs.Rows.{in_row, in_shown};
ghost use Rattle.as2_exchange.specs.State.{State};
ghost use Rattle.as2_store.specs.Tables.{Way, store_schema, inbox_tree};
ghost use Rattle.as2_store.specs.Adding.{EntryFits};
ghost use Rattle.as2_store.specs.Stands.{Rests};
ghost use Rattle.as2_exchange.specs.State.{has_key};

use crate::numbers::{asked, whole, whole_or_none};
use crate::reading::query_all;
use as2_exchange::InEntry;
use as2_rows::{
    attempt_code, digest_of, how_code, mic_of, outcome_code, receipt_stage_code, url_of,
};
use sqlite::{Alter, Connection, Error, Row, Savepoint, params};

/// Puts in the row of an entry.
pub fn put_in<S: Alter>(tx: &mut Savepoint<'_, S>, entry: &InEntry) -> Result<(), Error>
    requires number { entry.now.number < 2 ^ 63 }
    requires fits { EntryFits entry.now.posted.content entry.now.tries entry.now.due }
    ensures same_reference { tx.new.conn.ghost_name ≡ tx.old.conn.ghost_name }
    ensures place { tx.new.at ≡ tx.old.at }
    ensures within { IsInside (tx.old.at + 1) (state S.Store tx.old.conn.now) (state S.Store tx.new.conn.now) }
    ensures open { HasCleanDisk (state S.Store tx.new.conn.now)
        → OnOk result (IsTrue (state S.Store tx.old.conn.now).is_open) }
    ensures put { HasCleanDisk (state S.Store tx.new.conn.now)
        → OnOk result ((way : Way) → (state S.Store tx.old.conn.now).now.schema ≡ store_schema way
        → ChangesTable (state S.Store tx.old.conn.now) (state S.Store tx.new.conn.now) (store_schema way)
        (inbox_tree way)
        (put_row (in_row entry.now) ((state S.Store tx.old.conn.now).now.trees (inbox_tree way)))) }
{
    let posted = &entry.posted;
    let number = whole(entry.number);
    let length = whole(posted.content.len() as u64);
    let moment = whole(entry.moment.seconds());
    let tries = whole(entry.tries);
    let due = whole_or_none(entry.due);
    tx.execute(
        "INSERT INTO inbox2 (number, sender, receiver, identifier_value, identifier, content_type, length, moment, outcome, how, url, digest, mic, mdn, tries, attempt, due) VALUES (?1, ?2, ?3, ?4, ?5, ?6, ?7, ?8, ?9, ?10, ?11, ?12, ?13, ?14, ?15, ?16, ?17)",
        params![
            number,
            posted.sender.bytes(),
            posted.receiver.bytes(),
            posted.id.value().as_bytes(),
            posted.id.as_received().as_bytes(),
            posted.content_type.as_slice(),
            length,
            moment,
            outcome_code(posted.outcome),
            how_code(&posted.how),
            url_of(&posted.how),
            digest_of(&posted.mic),
            mic_of(&posted.mic),
            receipt_stage_code(entry.receipt_stage),
            tries,
            attempt_code(entry.attempt),
            due
        ],
    )?;
    Ok(())
}

/// The rows of the entries with this key.
pub fn rows_by_key<S: Alter>(
    conn: &mut Connection<S>,
    sender: &[u8],
    receiver: &[u8],
    value: &[u8],
) -> Result<Vec<Row>, Error>
    ensures rows { ReadsBy (λ s rows. rows.items
        ≡ map in_shown (filter (λ e. has_key sender.now receiver.now value.now e.posted) s.inbox))
        (state S.Store conn.old) (state S.Store conn.new) result }
{
    query_all(
        conn,
        "SELECT number, sender, receiver, identifier_value, identifier, content_type, length, moment, outcome, how, url, digest, mic, mdn, tries, attempt, due FROM inbox2 WHERE sender = ?1 AND receiver = ?2 AND identifier_value = ?3 ORDER BY number",
        params![sender, receiver, value],
    )
}

/// The rows of the entry of this number.
pub fn rows_by_number<S: Alter>(conn: &mut Connection<S>, number: u64) -> Result<Vec<Row>, Error>
    ensures rows { ReadsBy (λ s rows. rows.items
        ≡ map in_shown (filter (λ e. e.number == number) s.inbox)) (state S.Store conn.old) (state S.Store conn.new)
        result }
{
    let wanted = asked(number);
    let param = whole(wanted);
    query_all(
        conn,
        "SELECT number, sender, receiver, identifier_value, identifier, content_type, length, moment, outcome, how, url, digest, mic, mdn, tries, attempt, due FROM inbox2 WHERE number = ?1 ORDER BY number",
        params![param],
    )
}
