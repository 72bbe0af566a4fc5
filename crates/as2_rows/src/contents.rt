//! Contents, each in the rows of its pieces.

ghost use Rattle.std.specs.Prelude.{◌≡◌, ℕ, List, length, map, IfOk, IfErr};
ghost use Rattle.as2_rows.specs.Contents.{pieces, piece_shown};
ghost use Rattle.as2_rows.specs.declared.fault.RowFault.TheVariants as fault;

use crate::RowFault;
use crate::cells::{blob, column, whole};
use as2_mic::{PIECE, Pieces};
use sqlite::Row;
use std::alloc::Global;
use std::cmp::min;

/// The columns that a piece shows.
const COLUMNS: usize = 3;

/// The bytes of the piece of that number and position, of a row that shows number, position and bytes.
fn piece_in<'a>(row: &'a Row, number: u64, position: u64) -> Result<&'a [u8], RowFault>
    ensures shown { IfOk result (λ bytes. row.now
        ≡ piece_shown (record { number = number; position = position; bytes = bytes.now })) }
    ensures taken { IfErr result (λ f. (bytes : List ℕ)
        → row.now ≡ piece_shown (record { number = number; position = position; bytes = bytes }) → f ≡ fault.Memory) }
{
    if row.column_count() != COLUMNS
        || whole(column(row, 0))? != number
        || whole(column(row, 1))? != position
    {
        return Err(RowFault::NotAnEntry);
    }
    blob(column(row, 2))
}

/// The content of the entry of that number, of `size` bytes, in the rows of its pieces: number, position and bytes each,
/// in the order of the positions. `NotAnEntry` where a piece is missing, cut, misplaced or another's, or one is too many.
pub fn content_in(alloc: Global, rows: &[Row], number: u64, size: u64) -> Result<Pieces, RowFault>
    ensures shown { IfOk result (λ content. rows.now ≡ map piece_shown (pieces number content)) }
    ensures size { IfOk result (λ content. length content ≡ size) }
    ensures read { IfOk result (λ content. (n : ℕ) (c : List ℕ) → rows.now ≡ map piece_shown (pieces n c)
        → content ≡ c) }
    ensures taken { IfErr result (λ f. (c : List ℕ) → length c ≡ size → rows.now ≡ map piece_shown (pieces number c)
        → f ≡ fault.Memory) }
{
    let mut content = Pieces::new(alloc);
    'rows: for row in rows {
        let bytes = piece_in(row, number, content.count() as u64)?;
        let left = size - content.len() as u64;
        if bytes.is_empty() || bytes.len() as u64 != min(PIECE as u64, left) {
            return Err(RowFault::NotAnEntry);
        }
        content.append(bytes)?;
    }
    if content.len() as u64 != size {
        return Err(RowFault::NotAnEntry);
    }
    Ok(content)
}
