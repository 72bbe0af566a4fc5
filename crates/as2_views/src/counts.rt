//! The counts of what is outstanding.
ghost use Rattle.std.specs.Prelude.{◌≡◌, ◌++◌, OnOk};
ghost use Rattle.as2_views.specs.Layout.{count_line};
ghost use Rattle.as2_views.specs.Counting.{counts_text};

use crate::pieces::{add_number, add_text};
use as2_records::Counts;
use as2_text::Memory;
use std::alloc::AllocError;

/// Appends the line of a count.
fn add_count(text: &mut Vec<u8>, words: &[u8], count: u64) -> Result<(), AllocError>
    ensures { OnOk result (text.new.items ≡ text.old.items ++ count_line words.now count) }
{
    add_text(text, words)?;
    add_text(text, b" ")?;
    add_number(text, count)?;
    add_text(text, b"\n")
}

/// Appends a line for each count. Memory where it runs out; a part may be appended then.
pub fn add_counts(text: &mut Vec<u8>, counts: Counts) -> Result<(), Memory>
    ensures { OnOk result (text.new.items ≡ text.old.items ++ counts_text counts) }
{
    add_count(text, b"documents not sent:", counts.not_sent)?;
    add_count(text, b"documents in retry:", counts.in_retry)?;
    add_count(text, b"receipts awaited:", counts.awaited)?;
    add_count(text, b"documents in error:", counts.in_error)?;
    add_count(text, b"receipts to send:", counts.to_send)?;
    Ok(())
}
