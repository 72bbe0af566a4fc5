//! Objects of many rows.
ghost use Rattle.std.specs.Prelude.{◌≡◌, ◌++◌, OnOk, map};
ghost use Rattle.as2_views.specs.Lists.{Rise};
ghost use Rattle.as2_json.specs.Lines.{object_lines};
ghost use Rattle.as2_json.specs.Listings.{marked_object};
ghost use Rattle.as2_json.specs.Objects.{in_object};

use crate::rows::{add_in_object, add_out_object};
use as2_records::{InRow, OutRow};
use as2_text::Memory;
use as2_views::is_one_of;

/// Appends the objects of received documents, in their order, each in a line. Memory where it runs out; a part may be appended then.
pub fn add_in_objects(text: &mut Vec<u8>, rows: &[InRow]) -> Result<(), Memory>
    ensures { OnOk result (text.new.items ≡ text.old.items ++ object_lines (map in_object rows.now)) }
{
    for row in rows {
        add_in_object(text, row)?;
    }
    Ok(())
}

/// Appends the objects of documents that are sent, in their order, each in a line. `settled` has the numbers of those that a receipt has
/// settled, from the least to the greatest; in another order some of them may not be marked. Memory where it runs out; a part may be
/// appended then.
pub fn add_out_objects(text: &mut Vec<u8>, rows: &[OutRow], settled: &[u64]) -> Result<(), Memory>
    ensures { Rise settled.now
        → OnOk result (text.new.items ≡ text.old.items ++ object_lines (map (marked_object settled.now) rows.now)) }
{
    for row in rows {
        add_out_object(text, row, is_one_of(settled, row.number))?;
    }
    Ok(())
}
