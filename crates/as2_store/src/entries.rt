//! Rows of the inbox as its entries.

ghost use Rattle.std.specs.Prelude.{◌≡◌, ◌<◌, ◌^◌, Bool, true, false, Some, find, filter, map, IsTrue, IfErr};
ghost use Rattle.sqlite.specs.Held.{state};
ghost use Rattle.sqlite.specs.State.{HasCleanDisk};
ghost use Rattle.as2_exchange.specs.State.{State};
ghost use Rattle.as2_exchange.specs.declared.inbox.InEntry.{InEntry as Entry};
ghost use Rattle.as2_rows.specs.Rows.{in_shown};
ghost use Rattle.as2_store.specs.Rounds.{ReadsBy};
ghost use Rattle.as2_exchange.specs.declared.place.Table.TheVariants as table;
ghost use Rattle.as2_store.specs.Stands.{Rests, comes_of, is_in_inbox, is_row_at};
ghost use Rattle.as2_records.specs.Standing.{may_come};

use crate::contents::in_piece_rows;
use crate::fault::{fault_of, place_of, unread_row};
use as2_exchange::{END_OF_NUMBERS, InEntry, RowPlace, StoreFault, Table};
use as2_mic::Pieces;
use as2_records::InRow;
use as2_rows::{content_in, read_in_row};
use sqlite::{Alter, Connection, Row};
use std::alloc::Global;

/// The content of the entry whose row it is.
fn in_content<S: Alter>(
    conn: &mut Connection<S>,
    alloc: Global,
    row: &InRow,
) -> Result<Pieces, StoreFault>
    requires number { row.now.number < 2 ^ 63 }
    ensures content { ReadsBy (λ s content. (p : Entry → Bool) (e : Entry) → find p s.inbox ≡ Some e
        → row.now.number ≡ e.number
        → content ≡ e.posted.content) (state S.Store conn.old) (state S.Store conn.new) result }
    ensures fault { IfErr result (λ f. may_come f ≡ true) }
    ensures piece { IfErr result (λ f. comes_of (is_row_at table.InboxPiece row.now.number) f ≡ true) }
    ensures row { IfErr result (λ f. comes_of is_in_inbox f ≡ true) }
{
    let pieces = in_piece_rows(conn, row.number).map_err(fault_of)?;
    let place = RowPlace {
        table: Table::InboxPiece,
        number: row.number,
    };
    content_in(alloc, &pieces, row.number, row.length).map_err(|fault| unread_row(fault, place))
}

/// The entry that the first of the rows shows, with its content.
pub fn shown_entry<S: Alter>(
    conn: &mut Connection<S>,
    alloc: Global,
    rows: &[Row],
) -> Result<Option<InEntry>, StoreFault>
    requires open { HasCleanDisk (state S.Store conn.old) → IsTrue (state S.Store conn.old).is_open }
    ensures found { ReadsBy (λ s found. (p : Entry → Bool) → rows.now ≡ map in_shown (filter p s.inbox)
        → found ≡ find p s.inbox) (state S.Store conn.old) (state S.Store conn.new) result }
    ensures fault { IfErr result (λ f. may_come f ≡ true) }
    ensures row { IfErr result (λ f. comes_of is_in_inbox f ≡ true) }
{
    let Some(row) = rows.first() else {
        return Ok(None);
    };
    let place = place_of(Table::Inbox, row, 0);
    let row = read_in_row(alloc, row).map_err(|fault| unread_row(fault, place))?;
    if row.number >= END_OF_NUMBERS {
        return Err(StoreFault::Damaged(place));
    }
    let content = in_content(conn, alloc, &row)?;
    Ok(Some(row.with_content(content)))
}
