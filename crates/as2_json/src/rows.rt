//! Objects of rows.
ghost use Rattle.std.specs.Prelude.{◌≡◌, ◌++◌, IfOk, OnOk};
ghost use Rattle.serde_json.specs.View.{view};
ghost use Rattle.as2_json.specs.Lines.{object_line};
ghost use Rattle.as2_json.specs.Objects.{in_object, out_object};

use crate::lines::add_line;
use crate::words::{class_letter, is_processed, name_text, receipt_word};
use as2_records::{InRow, OutRow};
use as2_text::Memory;
use serde_json::{Value, json};
use std::alloc::{AllocError, Global};

/// The object of a document that is sent.
fn out_value(alloc: Global, row: &OutRow, is_settled: bool) -> Result<Value, AllocError>
    ensures { IfOk result (λ v. view v ≡ out_object is_settled row.now) }
{
    json!(in alloc; {
        "box": "out",
        "detail": row.detail.name(),
        "from": name_text(&row.organization),
        "identifier": row.id.as_received(),
        "number": row.number,
        "settled": is_settled,
        "state": class_letter(row.detail.class()),
        "to": name_text(&row.partner),
        "tries": row.tries
    })
}

/// Appends the object of a document that is sent, in a line. It has the number, identifier, state and detail, how often it was tried,
/// whether a receipt has settled it, and from whom and to whom it is. Memory where it runs out; a part of the line may be appended then.
pub fn add_out_object(text: &mut Vec<u8>, row: &OutRow, is_settled: bool) -> Result<(), Memory>
    ensures { OnOk result (text.new.items ≡ text.old.items ++ object_line (out_object is_settled row.now)) }
{
    let value = out_value(*text.allocator(), row, is_settled)?;
    add_line(text, &value)
}

/// The object of a document that was received.
fn in_value(alloc: Global, row: &InRow) -> Result<Value, AllocError>
    ensures { IfOk result (λ v. view v ≡ in_object row.now) }
{
    json!(in alloc; {
        "box": "in",
        "from": name_text(&row.sender),
        "identifier": row.id.as_received(),
        "number": row.number,
        "processed": is_processed(row.outcome),
        "receipt": receipt_word(row.receipt_stage),
        "to": name_text(&row.receiver)
    })
}

/// Appends the object of a document that was received, in a line: its number, whether it was processed, how its receipt stands, from whom
/// and to whom it is, and its identifier. Memory where it runs out; a part of the line may be appended then.
pub fn add_in_object(text: &mut Vec<u8>, row: &InRow) -> Result<(), Memory>
    ensures { OnOk result (text.new.items ≡ text.old.items ++ object_line (in_object row.now)) }
{
    let value = in_value(*text.allocator(), row)?;
    add_line(text, &value)
}
