//! The row of the receipt that settled a document.

ghost use Rattle.std.specs.Prelude.{◌≡◌, ◌≤◌, ℕ, IfOk, IfErr};
ghost use Rattle.as2_names.specs.Moments.{last_moment};
ghost use Rattle.as2_exchange.specs.declared.outbox.Evidence.{Evidence as Receipt};
ghost use Rattle.as2_rows.specs.Rows.{evidence_shown};
ghost use Rattle.as2_rows.specs.Summaries.{evidence_in};
ghost use Rattle.as2_rows.specs.declared.fault.RowFault.TheVariants as fault;

use crate::RowFault;
use crate::cells::{column, moment, pieces, text, whole};
use as2_exchange::Evidence;
use sqlite::Row;
use std::alloc::Global;

/// The columns of the table.
const COLUMNS: usize = 4;

/// The receipt that settled a document, and which document that is.
#[derive(Drop)]
pub struct EvidenceRow {
    /// The number of the document.
    pub number: u64,
    /// The receipt.
    pub evidence: Evidence,
}

impl EvidenceRow {
    /// Reads a row that shows all columns of the table, in their order.
    pub fn read(alloc: Global, row: &Row) -> Result<EvidenceRow, RowFault>
        ensures shown { IfOk result (λ r. row.now ≡ evidence_shown r.number r.evidence) }
        ensures read { IfOk result (λ r. (number : ℕ) (e : Receipt) → row.now ≡ evidence_shown number e
            → r ≡ evidence_in number e) }
        ensures taken { IfErr result (λ f. (number : ℕ) (e : Receipt) → e.moment ≤ last_moment
            → row.now ≡ evidence_shown number e → f ≡ fault.Memory) }
    {
        if row.column_count() != COLUMNS {
            return Err(RowFault::NotAnEntry);
        }
        Ok(EvidenceRow {
            number: whole(column(row, 0))?,
            evidence: Evidence {
                moment: moment(column(row, 1))?,
                content_type: text(alloc, column(row, 2))?,
                body: pieces(alloc, column(row, 3))?,
            },
        })
    }
}
