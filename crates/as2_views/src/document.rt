//! One document, in full.
ghost use Rattle.std.specs.Prelude.{◌≡◌, ◌++◌, codes, decimal, option_map, Some, OnOk};
ghost use Rattle.as2_names.specs.Names.{name_spelling};
ghost use Rattle.as2_views.specs.Layout.{due_text, evidence_text, named_line};
ghost use Rattle.as2_views.specs.Texts.{shown_words};
ghost use Rattle.as2_views.specs.Pieces.{label, names_text, receipt_line, size_text, standing_text, tries_text};

use crate::pieces::{add_name, add_number, add_text, add_word};
use crate::rows::class_letter;
use as2_exchange::{Evidence, OutEntry};
use as2_mdn::Detail;
use as2_text::{AsName, Memory};
use itoa::Buffer;
use std::alloc::AllocError;

/// Appends a name and what parts it from its value.
fn add_label(text: &mut Vec<u8>, name: &[u8]) -> Result<(), AllocError>
    ensures { OnOk result (text.new.items ≡ text.old.items ++ label name.now) }
{
    add_text(text, name)?;
    add_text(text, b": ")
}

/// Appends a line of a name and a text.
pub fn add_text_line(text: &mut Vec<u8>, name: &[u8], value: &[u8]) -> Result<(), AllocError>
    ensures { OnOk result (text.new.items ≡ text.old.items ++ named_line name.now value.now) }
{
    add_label(text, name)?;
    add_text(text, value)?;
    add_text(text, b"\n")
}

/// Appends a line of a name and a number.
pub fn add_number_line(text: &mut Vec<u8>, name: &[u8], number: u64) -> Result<(), AllocError>
    ensures { OnOk result (text.new.items ≡ text.old.items ++ named_line name.now (decimal number)) }
{
    add_label(text, name)?;
    add_number(text, number)?;
    add_text(text, b"\n")
}

/// Appends a line of a name and the name of an organization or a partner, as it is spelled.
pub fn add_name_line(text: &mut Vec<u8>, name: &[u8], value: &AsName) -> Result<(), AllocError>
    ensures { OnOk result (text.new.items ≡ text.old.items ++ named_line name.now (name_spelling value.now)) }
{
    add_label(text, name)?;
    add_name(text, value)?;
    add_text(text, b"\n")
}

/// Appends how a document stands.
fn add_standing(text: &mut Vec<u8>, detail: Detail) -> Result<(), AllocError>
    ensures { OnOk result (text.new.items ≡ text.old.items ++ standing_text detail) }
{
    add_text(text, class_letter(detail.class()))?;
    add_word(text, detail.name().as_bytes())
}

/// Appends the line of how a document stands.
fn add_standing_line(text: &mut Vec<u8>, detail: Detail) -> Result<(), AllocError>
    ensures { OnOk result (text.new.items ≡ text.old.items ++ named_line (codes "state") (standing_text detail)) }
{
    add_label(text, b"state")?;
    add_standing(text, detail)?;
    add_text(text, b"\n")
}

/// Appends when something is due.
fn add_due(text: &mut Vec<u8>, due: Option<u64>) -> Result<(), AllocError>
    ensures { OnOk result (text.new.items ≡ text.old.items ++ due_text due) }
{
    match due {
        Some(due) => add_number(text, due),
        None => add_text(text, b"-"),
    }
}

/// Appends the line of when something is due.
fn add_due_line(text: &mut Vec<u8>, due: Option<u64>) -> Result<(), AllocError>
    ensures { OnOk result (text.new.items ≡ text.old.items ++ named_line (codes "due") (due_text due)) }
{
    add_label(text, b"due")?;
    add_due(text, due)?;
    add_text(text, b"\n")
}

/// Appends how many bytes there are.
fn add_size(text: &mut Vec<u8>, size: usize) -> Result<(), AllocError>
    ensures { OnOk result (text.new.items ≡ text.old.items ++ size_text size) }
{
    add_text(text, Buffer::new().format(size).as_bytes())?;
    add_text(text, b" bytes")
}

/// Appends the line of how many bytes a content has.
pub fn add_size_line(text: &mut Vec<u8>, size: usize) -> Result<(), AllocError>
    ensures { OnOk result (text.new.items ≡ text.old.items ++ named_line (codes "content") (size_text size)) }
{
    add_label(text, b"content")?;
    add_size(text, size)?;
    add_text(text, b"\n")
}

/// Appends when a receipt came, and how many bytes it has.
fn add_evidence(text: &mut Vec<u8>, evidence: &Evidence) -> Result<(), AllocError>
    ensures { OnOk result (text.new.items ≡ text.old.items ++ evidence_text (Some evidence.now)) }
{
    add_text(text, b"R at ")?;
    add_number(text, evidence.moment.seconds())?;
    add_text(text, b", ")?;
    add_size(text, evidence.body.len())
}

/// Appends the line of a document's receipt, if there is one.
fn add_evidence_line(text: &mut Vec<u8>, evidence: Option<&Evidence>) -> Result<(), AllocError>
    ensures { OnOk result (text.new.items ≡ text.old.items ++ receipt_line (option_map (λ e. e.now) evidence.entry)) }
{
    let Some(evidence) = evidence else {
        return add_text_line(text, b"receipt", b"-");
    };
    add_label(text, b"receipt")?;
    add_evidence(text, evidence)?;
    add_text(text, b"\n")
}

/// Appends how often a document was tried, and how it stands.
fn add_tries(text: &mut Vec<u8>, document: &OutEntry) -> Result<(), AllocError>
    ensures { OnOk result (text.new.items ≡ text.old.items ++ tries_text document.now) }
{
    add_number_line(text, b"number", document.number)?;
    add_standing_line(text, document.detail)?;
    add_number_line(text, b"tries", document.tries)?;
    add_due_line(text, document.due)
}

/// Appends what a document is: its names, its identifier and its content's size.
fn add_names(text: &mut Vec<u8>, document: &OutEntry) -> Result<(), AllocError>
    ensures { OnOk result (text.new.items ≡ text.old.items ++ names_text document.now) }
{
    add_name_line(text, b"from", &document.organization)?;
    add_name_line(text, b"to", &document.partner)?;
    add_text_line(text, b"identifier", document.id.as_received().as_bytes())?;
    add_size_line(text, document.content.len())
}

/// Appends all that is known of a document, a line each. Memory where it runs out; a part may be appended then.
pub fn add_document(text: &mut Vec<u8>, document: &OutEntry) -> Result<(), Memory>
    ensures { OnOk result (text.new.items ≡ text.old.items ++ shown_words document.now) }
{
    add_tries(text, document)?;
    add_names(text, document)?;
    add_evidence_line(text, document.evidence.as_ref())?;
    Ok(())
}
