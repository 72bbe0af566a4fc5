//! Rows of documents that are sent.

ghost use Rattle.std.specs.Prelude.{◌≡◌, IfOk, IfErr};
ghost use Rattle.as2_exchange.specs.declared.outbox.OutEntry.{OutEntry as Entry};
ghost use Rattle.as2_rows.specs.Rows.{out_shown, out_row_shown};
ghost use Rattle.as2_records.specs.Summaries.{out_summary};
ghost use Rattle.as2_rows.specs.Texts.{IsOutEntry};
ghost use Rattle.as2_rows.specs.declared.fault.RowFault.TheVariants as fault;

use crate::RowFault;
use crate::cells::{column, identifier_of, moment, name, whole, whole_or_null};
use crate::codes::{attempt_in, detail_in};
use as2_records::OutRow;
use sqlite::Row;
use std::alloc::Global;

/// The columns of the table.
const COLUMNS: usize = 11;

/// Reads a row that shows all columns of the table, in their order.
pub fn read_out_row(alloc: Global, row: &Row) -> Result<OutRow, RowFault>
    ensures shown { IfOk result (λ r. row.now ≡ out_row_shown r) }
    ensures read { IfOk result (λ r. (d : Entry) → row.now ≡ out_shown d → r ≡ out_summary d) }
    ensures taken { IfErr result (λ f. (d : Entry) → IsOutEntry d → row.now ≡ out_shown d → f ≡ fault.Memory) }
{
    if row.column_count() != COLUMNS {
        return Err(RowFault::NotAnEntry);
    }
    Ok(OutRow {
        number: whole(column(row, 0))?,
        organization: name(column(row, 1))?,
        partner: name(column(row, 2))?,
        id: identifier_of(alloc, column(row, 3), column(row, 4))?,
        length: whole(column(row, 5))?,
        moment: moment(column(row, 6))?,
        tries: whole(column(row, 7))?,
        attempt: attempt_in(column(row, 8))?,
        due: whole_or_null(column(row, 9))?,
        detail: detail_in(column(row, 10))?,
    })
}
