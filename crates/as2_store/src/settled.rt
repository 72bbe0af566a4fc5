//! The documents that a receipt has settled, by the rows of the evidence.

ghost use Rattle.std.specs.Prelude.{◌≡◌, false, ℕ, List, map, IfOk};
ghost use Rattle.sqlite.specs.Held.{state};
ghost use Rattle.as2_store.specs.Rounds.{ReadsBy};
ghost use Rattle.as2_store.specs.Due.{number_row};
ghost use Rattle.as2_records.specs.Listing.{settled_numbers};

use crate::reading::query_all;
use sqlite::{Alter, Connection, Error, ErrorCode, Row};
use std::alloc::Global;

/// The rows of the numbers of the documents that a receipt has settled, in order.
pub fn settled_rows<S: Alter>(conn: &mut Connection<S>) -> Result<Vec<Row>, Error>
    ensures rows { ReadsBy (λ s rows. rows.items
        ≡ map number_row (settled_numbers s)) (state S.Store conn.old) (state S.Store conn.new) result }
{
    query_all(conn, "SELECT number FROM evidence ORDER BY number", &[])
}

/// The numbers that the rows show.
pub fn numbers_in(alloc: Global, rows: &[Row]) -> Result<Vec<u64>, Error>
    ensures { IfOk result (λ numbers. (ns : List ℕ) → rows.now ≡ map number_row ns → numbers.items ≡ ns) }
{
    let mut numbers = Vec::new(alloc);
    'rows: for row in rows {
        let number: u64 = row.get(0)?;
        match numbers.push(number) {
            Ok(()) => (),
            Err(_) => return Err(Error::SqliteFailure(ErrorCode::OutOfMemory)),
        }
    }
    Ok(numbers)
}
