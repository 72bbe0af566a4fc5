//! The object of what is outstanding.
ghost use Rattle.std.specs.Prelude.{◌≡◌, ◌++◌, IfOk, OnOk};
ghost use Rattle.serde_json.specs.View.{view};
ghost use Rattle.as2_json.specs.Lines.{object_line};
ghost use Rattle.as2_json.specs.Objects.{counts_object};

use crate::lines::add_line;
use as2_records::Counts;
use as2_text::Memory;
use serde_json::{Value, json};
use std::alloc::{AllocError, Global};

/// The object of the counts.
fn counts_value(alloc: Global, counts: Counts) -> Result<Value, AllocError>
    ensures { IfOk result (λ v. view v ≡ counts_object counts) }
{
    json!(in alloc; {
        "documents_in_error": counts.in_error,
        "documents_in_retry": counts.in_retry,
        "documents_not_sent": counts.not_sent,
        "receipts_awaited": counts.awaited,
        "receipts_to_send": counts.to_send
    })
}

/// Appends the object of what is outstanding, in a line: a count a member. Memory where it runs out; a part of the line may be appended
/// then.
pub fn add_counts_object(text: &mut Vec<u8>, counts: Counts) -> Result<(), Memory>
    ensures { OnOk result (text.new.items ≡ text.old.items ++ object_line (counts_object counts)) }
{
    let value = counts_value(*text.allocator(), counts)?;
    add_line(text, &value)
}
