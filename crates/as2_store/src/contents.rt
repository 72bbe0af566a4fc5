//! The rows of the contents.

ghost use Rattle.std.specs.Prelude.{◌≡◌, ◌+◌, [], ◌∷◌, ◌<◌, ◌^◌, false, Bool, Some, find, map, length, IsTrue, IfOk, OnOk};
ghost use Rattle.sqlite.specs.Held.{state};
ghost use Rattle.sqlite.specs.State.{HasCleanDisk};
ghost use Rattle.as2_store.specs.Calls.{IsInside};
ghost use Rattle.as2_store.specs.Rounds.{ReadsBy};
ghost use Rattle.as2_rows.specs.Contents.{pieces, piece_shown};
ghost use Rattle.as2_exchange.specs.State.{State};
ghost use Rattle.as2_exchange.specs.declared.inbox.InEntry.{InEntry as Entry};
ghost use Rattle.as2_exchange.specs.declared.outbox.OutEntry.{OutEntry as Document};
ghost use Rattle.as2_store.specs.Tables.{Way, store_schema};
ghost use Rattle.as2_store.specs.Adding.{AppendsPieces, piece_tree};
ghost use Rattle.as2_store.specs.Stands.{Rests};

use crate::numbers::whole;
use crate::reading::query_all;
use as2_mic::Pieces;
use sqlite::{Alter, Connection, Error, Row, Savepoint, params};

/// Where an entry is kept.
#[derive(Clone, Copy, Debug, PartialEq, Eq)]
pub enum Mailbox {
    Inbox,
    Outbox,
}

/// Puts in a piece of the content of an entry.
fn put_piece<S: Alter>(
    tx: &mut Savepoint<'_, S>,
    mailbox: Mailbox,
    number: u64,
    position: u64,
    bytes: &[u8],
) -> Result<(), Error>
    requires number { number < 2 ^ 63 }
    requires position { position < 2 ^ 63 }
    ensures same_reference { tx.new.conn.ghost_name ≡ tx.old.conn.ghost_name }
    ensures place { tx.new.at ≡ tx.old.at }
    ensures within { IsInside (tx.old.at + 1) (state S.Store tx.old.conn.now) (state S.Store tx.new.conn.now) }
    ensures put { HasCleanDisk (state S.Store tx.new.conn.now)
        → OnOk result ((way : Way) → (state S.Store tx.old.conn.now).now.schema ≡ store_schema way
        → AppendsPieces way (state S.Store tx.old.conn.now) (state S.Store tx.new.conn.now) (piece_tree way mailbox)
        (record { number = number; position = position; bytes = bytes.now } ∷ [])) }
{
    let number = whole(number);
    let position = whole(position);
    match mailbox {
        Mailbox::Inbox => tx.execute(
            "INSERT INTO inbox2_piece (number, position, bytes) VALUES (?1, ?2, ?3)",
            params![number, position, bytes],
        )?,
        Mailbox::Outbox => tx.execute(
            "INSERT INTO outbox_piece (number, position, bytes) VALUES (?1, ?2, ?3)",
            params![number, position, bytes],
        )?,
    };
    Ok(())
}

/// Puts in all pieces of the content of an entry.
pub fn put_pieces<S: Alter>(
    tx: &mut Savepoint<'_, S>,
    mailbox: Mailbox,
    number: u64,
    content: &Pieces,
) -> Result<(), Error>
    requires number { number < 2 ^ 63 }
    requires length { length content.now < 2 ^ 63 }
    ensures same_reference { tx.new.conn.ghost_name ≡ tx.old.conn.ghost_name }
    ensures place { tx.new.at ≡ tx.old.at }
    ensures within { IsInside (tx.old.at + 1) (state S.Store tx.old.conn.now) (state S.Store tx.new.conn.now) }
    ensures put { HasCleanDisk (state S.Store tx.new.conn.now)
        → OnOk result ((way : Way) → (state S.Store tx.old.conn.now).now.schema ≡ store_schema way
        → AppendsPieces way (state S.Store tx.old.conn.now) (state S.Store tx.new.conn.now) (piece_tree way mailbox)
        (pieces number content.now)) }
{
    let mut i = 0;
    'pieces: while let Some(piece) = content.piece(i) {
        put_piece(tx, mailbox, number, i as u64, piece)?;
        i += 1;
    }
    Ok(())
}

/// The rows of the content of an entry of the inbox, in order.
pub fn in_piece_rows<S: Alter>(conn: &mut Connection<S>, number: u64) -> Result<Vec<Row>, Error>
    requires number { number < 2 ^ 63 }
    ensures rows { ReadsBy (λ s rows. (p : Entry → Bool) (e : Entry) → find p s.inbox ≡ Some e → number ≡ e.number
        → rows.items
        ≡ map piece_shown (pieces e.number e.posted.content)) (state S.Store conn.old) (state S.Store conn.new) result }
{
    let number = whole(number);
    query_all(
        conn,
        "SELECT number, position, bytes FROM inbox2_piece WHERE number = ?1 ORDER BY position",
        params![number],
    )
}

/// The rows of the content of a document, in order.
pub fn out_piece_rows<S: Alter>(conn: &mut Connection<S>, number: u64) -> Result<Vec<Row>, Error>
    requires number { number < 2 ^ 63 }
    ensures rows { ReadsBy (λ s rows. (p : Document → Bool) (d : Document) → find p s.outbox ≡ Some d
        → number ≡ d.number
        → rows.items
        ≡ map piece_shown (pieces d.number d.content)) (state S.Store conn.old) (state S.Store conn.new) result }
{
    let number = whole(number);
    query_all(
        conn,
        "SELECT number, position, bytes FROM outbox_piece WHERE number = ?1 ORDER BY position",
        params![number],
    )
}
