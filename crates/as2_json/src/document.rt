//! The object of one document, in full.
ghost use Rattle.std.specs.Prelude.{◌≡◌, ◌++◌, IfOk, OnOk, option_map};
ghost use Rattle.serde_json.specs.View.{view};
ghost use Rattle.as2_json.specs.Lines.{object_line};
ghost use Rattle.as2_json.specs.Objects.{document_object, due_value, receipt_value};

use crate::lines::add_line;
use crate::words::{class_letter, name_text};
use as2_exchange::{Evidence, OutEntry};
use as2_text::Memory;
use serde_json::{Value, json};
use std::alloc::{AllocError, Global};

/// When something is due.
fn due_value(due: Option<u64>) -> Value
    ensures { view result ≡ due_value due }
{
    match due {
        Some(due) => Value::from(due),
        None => Value::Null,
    }
}

/// When a receipt came, and how many bytes it has.
fn receipt_value(alloc: Global, evidence: Option<&Evidence>) -> Result<Value, AllocError>
    ensures { IfOk result (λ v. view v ≡ receipt_value (option_map (λ e. e.now) evidence.entry)) }
{
    match evidence {
        Some(evidence) => json!(in alloc; {
            "length": evidence.body.len(),
            "moment": evidence.moment.seconds()
        }),
        None => Ok(Value::Null),
    }
}

/// The object of a document.
fn document_value(alloc: Global, document: &OutEntry) -> Result<Value, AllocError>
    ensures { IfOk result (λ v. view v ≡ document_object document.now) }
{
    let receipt = receipt_value(alloc, document.evidence.as_ref())?;
    json!(in alloc; {
        "box": "out",
        "detail": document.detail.name(),
        "due": due_value(document.due),
        "from": name_text(&document.organization),
        "identifier": document.id.as_received(),
        "length": document.content.len(),
        "number": document.number,
        "receipt": receipt,
        "state": class_letter(document.detail.class()),
        "to": name_text(&document.partner),
        "tries": document.tries
    })
}

/// Appends the object of all that is known of a document, in a line. Memory where it runs out; a part of the line may be appended then.
pub fn add_document_object(text: &mut Vec<u8>, document: &OutEntry) -> Result<(), Memory>
    ensures { OnOk result (text.new.items ≡ text.old.items ++ object_line (document_object document.now)) }
{
    let value = document_value(*text.allocator(), document)?;
    add_line(text, &value)
}
