//! Rows of the outbox as its documents.

ghost use Rattle.std.specs.Prelude.{◌≡◌, ◌<◌, ◌^◌, Bool, true, false, Some, find, filter, map, IsTrue, IfOk, IfErr, OnOk};
ghost use Rattle.sqlite.specs.Held.{state};
ghost use Rattle.sqlite.specs.State.{HasCleanDisk};
ghost use Rattle.as2_exchange.specs.State.{State};
ghost use Rattle.as2_exchange.specs.declared.outbox.OutEntry.{OutEntry as Document};
ghost use Rattle.as2_rows.specs.Rows.{out_shown};
ghost use Rattle.as2_store.specs.Rounds.{ReadsBy};
ghost use Rattle.as2_store.specs.Finding.{evidence_at};
ghost use Rattle.as2_exchange.specs.declared.place.Table.TheVariants as table;
ghost use Rattle.as2_store.specs.Stands.{Rests, comes_of, is_in_outbox, is_row_at};
ghost use Rattle.as2_records.specs.Standing.{may_come};

use crate::contents::out_piece_rows;
use crate::fault::{fault_of, place_of, unread_row};
use crate::outbox::evidence_rows;
use crate::resending::begun_in;
use as2_exchange::{END_OF_NUMBERS, Evidence, OutEntry, RowPlace, StoreFault, Table};
use as2_mic::Pieces;
use as2_records::OutRow;
use as2_rows::{EvidenceRow, content_in, read_out_row};
use sqlite::{Alter, Connection, Row};
use std::alloc::Global;

/// The content of the document whose row it is.
fn out_content<S: Alter>(
    conn: &mut Connection<S>,
    alloc: Global,
    row: &OutRow,
) -> Result<Pieces, StoreFault>
    requires number { row.now.number < 2 ^ 63 }
    ensures content { ReadsBy (λ s content. (p : Document → Bool) (d : Document) → find p s.outbox ≡ Some d
        → row.now.number ≡ d.number → content ≡ d.content) (state S.Store conn.old) (state S.Store conn.new) result }
    ensures fault { IfErr result (λ f. may_come f ≡ true) }
    ensures piece { IfErr result (λ f. comes_of (is_row_at table.OutboxPiece row.now.number) f ≡ true) }
    ensures row { IfErr result (λ f. comes_of is_in_outbox f ≡ true) }
{
    let pieces = out_piece_rows(conn, row.number).map_err(fault_of)?;
    let place = RowPlace {
        table: Table::OutboxPiece,
        number: row.number,
    };
    content_in(alloc, &pieces, row.number, row.length).map_err(|fault| unread_row(fault, place))
}

/// The receipt that settled the document of this number, if there is one and one has.
pub fn evidence_in<S: Alter>(
    conn: &mut Connection<S>,
    alloc: Global,
    number: u64,
) -> Result<Option<Evidence>, StoreFault>
    ensures evidence { ReadsBy (λ s evidence. evidence
        ≡ evidence_at s number) (state S.Store conn.old) (state S.Store conn.new) result }
    ensures fault { IfErr result (λ f. may_come f ≡ true) }
    ensures receipt { IfErr result (λ f. comes_of (is_row_at table.Evidence number) f ≡ true) }
    ensures row { IfErr result (λ f. comes_of is_in_outbox f ≡ true) }
{
    let rows = evidence_rows(conn, number).map_err(fault_of)?;
    let Some(row) = rows.first() else {
        return Ok(None);
    };
    let place = RowPlace {
        table: Table::Evidence,
        number,
    };
    let row = EvidenceRow::read(alloc, row).map_err(|fault| unread_row(fault, place))?;
    Ok(Some(row.evidence))
}

/// The document that the first of the rows shows, with its content and its evidence.
pub fn shown_document<S: Alter>(
    conn: &mut Connection<S>,
    alloc: Global,
    rows: &[Row],
) -> Result<Option<OutEntry>, StoreFault>
    requires open { HasCleanDisk (state S.Store conn.old) → IsTrue (state S.Store conn.old).is_open }
    ensures found { ReadsBy (λ s found. (p : Document → Bool) → rows.now ≡ map out_shown (filter p s.outbox)
        → found ≡ find p s.outbox) (state S.Store conn.old) (state S.Store conn.new) result }
    ensures fault { IfErr result (λ f. may_come f ≡ true) }
    ensures row { IfErr result (λ f. comes_of is_in_outbox f ≡ true) }
{
    let Some(row) = rows.first() else {
        return Ok(None);
    };
    let place = place_of(Table::Outbox, row, 0);
    let row = read_out_row(alloc, row).map_err(|fault| unread_row(fault, place))?;
    if row.number >= END_OF_NUMBERS {
        return Err(StoreFault::Damaged(place));
    }
    let content = out_content(conn, alloc, &row)?;
    let evidence = evidence_in(conn, alloc, row.number)?;
    let begun = begun_in(conn, &row)?;
    Ok(Some(row.with_content(begun, content, evidence)))
}
