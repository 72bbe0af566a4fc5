//! Lists of rows.
ghost use Rattle.std.specs.Prelude.{◌≡◌, ◌++◌, OnOk};
ghost use Rattle.std.specs.List.{filter, flat_map};
ghost use Rattle.as2_exchange.specs.Tries.{is_due};
ghost use Rattle.as2_exchange.specs.Progress.{is_under_way};
ghost use Rattle.as2_views.specs.Lists.{Rise, is_one_of, is_outstanding, marked_line};
ghost use Rattle.as2_views.specs.RowLines.{in_row_line};

use crate::rows::{add_in_line, add_out_line};
use as2_mdn::Detail;
use as2_records::{InRow, OutRow};
use as2_text::{Memory, Moment};

/// Appends the lines of received documents, in their order. Memory where it runs out; a part may be appended then.
pub fn add_in_lines(text: &mut Vec<u8>, rows: &[InRow]) -> Result<(), Memory>
    ensures { OnOk result (text.new.items ≡ text.old.items ++ flat_map in_row_line rows.now) }
{
    for row in rows {
        add_in_line(text, row)?;
    }
    Ok(())
}

/// Whether the number is one of these, where they rise.
pub fn is_one_of(numbers: &[u64], number: u64) -> bool
    ensures { Rise numbers.now → result ≡ is_one_of numbers.now number }
{
    numbers.binary_search(&number).is_ok()
}

/// Appends the lines of documents that are sent, in their order. `settled` has the numbers of those that a receipt has
/// settled, from the least to the greatest; in another order some of them may not be marked. Memory where it runs out; a part may
/// be appended then.
pub fn add_out_lines(text: &mut Vec<u8>, rows: &[OutRow], settled: &[u64]) -> Result<(), Memory>
    ensures { Rise settled.now
        → OnOk result (text.new.items ≡ text.old.items ++ flat_map (marked_line settled.now) rows.now) }
{
    for row in rows {
        add_out_line(text, row, is_one_of(settled, row.number))?;
    }
    Ok(())
}

/// Whether something is still to come of a document.
fn is_under_way(detail: Detail) -> bool
    ensures { result ≡ is_under_way detail }
{
    matches!(
        detail,
        Detail::New | Detail::Sending | Detail::Retry | Detail::Awaiting
    )
}

/// Whether it is due at this moment.
fn is_due(due: Option<u64>, moment: Moment) -> bool
    ensures { result ≡ is_due moment due }
{
    match due {
        Some(due) => due <= moment.seconds(),
        None => false,
    }
}

/// Keeps the documents that are under way and whose moment has come, in their order.
pub fn keep_outstanding(rows: &mut Vec<OutRow>, moment: Moment)
    ensures { rows.new.items ≡ filter (is_outstanding moment) rows.old.items }
{
    rows.retain(|row| is_under_way(row.detail) && is_due(row.due, moment));
}
