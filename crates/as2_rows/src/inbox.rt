//! Rows of posted documents.

ghost use Rattle.std.specs.Prelude.{◌≡◌, IfOk, IfErr};
ghost use Rattle.as2_exchange.specs.declared.inbox.InEntry.{InEntry as Entry};
ghost use Rattle.as2_rows.specs.Rows.{in_shown, in_row_shown};
ghost use Rattle.as2_records.specs.Summaries.{in_summary};
ghost use Rattle.as2_rows.specs.Texts.{IsInEntry};
ghost use Rattle.as2_rows.specs.declared.fault.RowFault.TheVariants as fault;

use crate::RowFault;
use crate::cells::{column, how, identifier_of, mic, moment, name, text, whole, whole_or_null};
use crate::codes::{attempt_in, outcome_in, receipt_stage_in};
use as2_records::InRow;
use sqlite::Row;
use std::alloc::Global;

/// The columns of the table.
const COLUMNS: usize = 17;

/// Reads a row that shows all columns of the table, in their order.
pub fn read_in_row(alloc: Global, row: &Row) -> Result<InRow, RowFault>
    ensures shown { IfOk result (λ r. row.now ≡ in_row_shown r) }
    ensures read { IfOk result (λ r. (e : Entry) → row.now ≡ in_shown e → r ≡ in_summary e) }
    ensures taken { IfErr result (λ f. (e : Entry) → IsInEntry e → row.now ≡ in_shown e → f ≡ fault.Memory) }
{
    if row.column_count() != COLUMNS {
        return Err(RowFault::NotAnEntry);
    }
    Ok(InRow {
        number: whole(column(row, 0))?,
        sender: name(column(row, 1))?,
        receiver: name(column(row, 2))?,
        id: identifier_of(alloc, column(row, 3), column(row, 4))?,
        content_type: text(alloc, column(row, 5))?,
        length: whole(column(row, 6))?,
        moment: moment(column(row, 7))?,
        outcome: outcome_in(column(row, 8))?,
        how: how(alloc, column(row, 9), column(row, 10))?,
        mic: mic(column(row, 11), column(row, 12))?,
        receipt_stage: receipt_stage_in(column(row, 13))?,
        tries: whole(column(row, 14))?,
        attempt: attempt_in(column(row, 15))?,
        due: whole_or_null(column(row, 16))?,
    })
}
