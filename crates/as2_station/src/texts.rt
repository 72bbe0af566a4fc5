//! Texts of what is listed and shown.
ghost use Rattle.std.specs.Prelude.{◌≡◌, ◌++◌, IfOk, IfErr, string_bytes, true};
ghost use Rattle.std.specs.List.{filter, flat_map};
ghost use Rattle.as2_views.specs.Texts.{shown_words};
ghost use Rattle.as2_records.specs.Standing.{may_come};
ghost use Rattle.as2_views.specs.Counting.{counts_text};
ghost use Rattle.as2_views.specs.Lists.{Rise, is_outstanding, marked_line};
ghost use Rattle.as2_views.specs.RowLines.{in_row_line};

use as2_exchange::{OutEntry, StoreFault};
use as2_records::{Counts, InRow, OutRow};
use as2_text::Moment;
use as2_views::{add_counts, add_document, add_in_lines, add_out_lines, keep_outstanding};
use std::alloc::Global;

/// The bytes as a text. They are one, as long as names and identifiers are.
fn text_of(bytes: Vec<u8>) -> Result<String, StoreFault>
    ensures text { IfOk result (λ text. string_bytes text ≡ bytes.items) }
    ensures fault { IfErr result (λ f. may_come f ≡ true) }
{
    match String::from_utf8(bytes) {
        Ok(text) => Ok(text),
        Err(_) => Err(StoreFault::Refused),
    }
}

/// The lines of received documents. Memory where it runs out.
pub fn in_text(alloc: Global, rows: &[InRow]) -> Result<String, StoreFault>
    ensures lines { IfOk result (λ text. string_bytes text ≡ flat_map in_row_line rows.now) }
    ensures fault { IfErr result (λ f. may_come f ≡ true) }
{
    let mut text = Vec::new(alloc);
    add_in_lines(&mut text, rows)?;
    text_of(text)
}

/// The lines of documents that are sent; `settled` has the numbers of those that a receipt has settled, from the least to the
/// greatest. Memory where it runs out.
pub fn out_text(alloc: Global, rows: &[OutRow], settled: &[u64]) -> Result<String, StoreFault>
    ensures lines { Rise settled.now
        → IfOk result (λ text. string_bytes text ≡ flat_map (marked_line settled.now) rows.now) }
    ensures fault { IfErr result (λ f. may_come f ≡ true) }
{
    let mut text = Vec::new(alloc);
    add_out_lines(&mut text, rows, settled)?;
    text_of(text)
}

/// The counts, and the lines of those of the documents that are outstanding at this moment. Memory where it runs out.
pub fn outstanding_text(
    alloc: Global,
    counts: Counts,
    mut rows: Vec<OutRow>,
    settled: &[u64],
    moment: Moment,
) -> Result<String, StoreFault>
    ensures lines { Rise settled.now
        → IfOk result (λ text. string_bytes text
        ≡ counts_text counts ++ flat_map (marked_line settled.now) (filter (is_outstanding moment) rows.items)) }
    ensures fault { IfErr result (λ f. may_come f ≡ true) }
{
    keep_outstanding(&mut rows, moment);
    let mut text = Vec::new(alloc);
    add_counts(&mut text, counts)?;
    add_out_lines(&mut text, rows.as_slice(), settled)?;
    text_of(text)
}

/// A document in full. Memory where it runs out.
pub fn document_text(alloc: Global, document: &OutEntry) -> Result<String, StoreFault>
    ensures shown { IfOk result (λ text. string_bytes text ≡ shown_words document.now) }
    ensures fault { IfErr result (λ f. may_come f ≡ true) }
{
    let mut text = Vec::new(alloc);
    add_document(&mut text, document)?;
    text_of(text)
}
