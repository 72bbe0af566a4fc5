//! Objects of what a verification finds.
ghost use Rattle.std.specs.Prelude.{◌≡◌, ◌++◌, IfOk, OnOk};
ghost use Rattle.serde_json.specs.View.{view};
ghost use Rattle.as2_json.specs.Lines.{object_line};
ghost use Rattle.as2_json.specs.Objects.{finding_object, verified_object};

use crate::lines::add_line;
use crate::words::box_word;
use as2_audit::Finding;
use as2_text::Memory;
use serde_json::{Value, json};
use std::alloc::{AllocError, Global};

/// The object of a finding.
fn finding_value(alloc: Global, finding: Finding) -> Result<Value, AllocError>
    ensures { IfOk result (λ v. view v ≡ finding_object finding) }
{
    json!(in alloc; {
        "box": box_word(finding.mailbox),
        "fault": finding.fault.text(),
        "number": finding.number
    })
}

/// Appends the object of a finding, in a line: which entry it is of, and what is wrong. Memory where it runs out; a part of the line may
/// be appended then.
pub fn add_finding_object(text: &mut Vec<u8>, finding: Finding) -> Result<(), Memory>
    ensures { OnOk result (text.new.items ≡ text.old.items ++ object_line (finding_object finding)) }
{
    let value = finding_value(*text.allocator(), finding)?;
    add_line(text, &value)
}

/// The object of how many entries there are, and how many findings.
fn verified_value(
    alloc: Global,
    received: u64,
    sent: u64,
    findings: u64,
) -> Result<Value, AllocError>
    ensures { IfOk result (λ v. view v ≡ verified_object received sent findings) }
{
    json!(in alloc; {"findings": findings, "received": received, "sent": sent})
}

/// Appends the object that ends a verification, in a line: how many documents were received and are sent, and how many findings there
/// are. Memory where it runs out; a part of the line may be appended then.
pub fn add_verified_object(
    text: &mut Vec<u8>,
    received: u64,
    sent: u64,
    findings: u64,
) -> Result<(), Memory>
    ensures { OnOk result (text.new.items ≡ text.old.items ++ object_line (verified_object received sent findings)) }
{
    let value = verified_value(*text.allocator(), received, sent, findings)?;
    add_line(text, &value)
}
