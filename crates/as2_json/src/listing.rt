//! What is seen of the records, in objects: listings, what is outstanding, one document in full.
ghost use Rattle.std.specs.Prelude.{◌≡◌, IfErr, IfOk, map, option_map, true};
ghost use Rattle.as2_records.specs.Calls.{Reads};
ghost use Rattle.as2_records.specs.Standing.{may_come};
ghost use Rattle.as2_json.specs.Lines.{object_line, object_lines};
ghost use Rattle.as2_json.specs.Listings.{Continues, HasOutstanding, list_in_objects, list_out_objects, listing_objects, outstanding_objects, shown_object};
ghost use Rattle.as2_json.specs.Objects.{counts_object, document_object, in_object};

use crate::counts::add_counts_object;
use crate::document::add_document_object;
use crate::lists::{add_in_objects, add_out_objects};
use as2_exchange::{OutEntry, StoreFault};
use as2_mdn::DetailClass;
use as2_records::{Counts, InRow, OutRow, Records};
use as2_text::Moment;
use as2_views::{Filter, keep_outstanding};
use std::alloc::Global;

/// The lines of rows of received documents. Memory where it runs out.
fn in_objects(alloc: Global, rows: &[InRow]) -> Result<Vec<u8>, StoreFault>
    ensures lines { IfOk result (λ text. text.items ≡ object_lines (map in_object rows.now)) }
    ensures may { IfErr result (λ f. may_come f ≡ true) }
{
    let mut text = Vec::new(alloc);
    add_in_objects(&mut text, rows)?;
    Ok(text)
}

/// The line of the counts. Memory where it runs out.
fn counts_object(alloc: Global, counts: Counts) -> Result<Vec<u8>, StoreFault>
    ensures line { IfOk result (λ text. text.items ≡ object_line (counts_object counts)) }
    ensures may { IfErr result (λ f. may_come f ≡ true) }
{
    let mut text = Vec::new(alloc);
    add_counts_object(&mut text, counts)?;
    Ok(text)
}

/// The line of a document. Memory where it runs out.
fn document_object(alloc: Global, document: &OutEntry) -> Result<Vec<u8>, StoreFault>
    ensures line { IfOk result (λ text. text.items ≡ object_line (document_object document.now)) }
    ensures may { IfErr result (λ f. may_come f ≡ true) }
{
    let mut text = Vec::new(alloc);
    add_document_object(&mut text, document)?;
    Ok(text)
}

/// The text, and behind it the lines of rows of documents that are sent. Answers Memory, Disk, Refused or Damaged.
fn with_rows<R: Records>(
    records: &mut R,
    mut text: Vec<u8>,
    rows: &[OutRow],
) -> Result<Vec<u8>, StoreFault>
    ensures listed { Reads (λ s made. Continues s rows.now text.items made.items) (R.shows records.old)
        (R.shows records.new) result }
    ensures may { IfErr result (λ f. may_come f ≡ true) }
{
    let settled = records.settled(*text.allocator())?;
    add_out_objects(&mut text, rows, settled.as_slice())?;
    Ok(text)
}

/// The text, and behind it the lines of the documents that are outstanding at this moment. Answers Memory, Disk, Refused or Damaged.
fn with_outstanding<R: Records>(
    records: &mut R,
    text: Vec<u8>,
    moment: Moment,
) -> Result<Vec<u8>, StoreFault>
    ensures listed { Reads (λ s made. HasOutstanding s moment text.items made.items) (R.shows records.old)
        (R.shows records.new) result }
    ensures may { IfErr result (λ f. may_come f ≡ true) }
{
    let mut rows = records.list_out(*text.allocator(), None)?;
    keep_outstanding(&mut rows, moment);
    with_rows(records, text, rows.as_slice())
}

/// The lines of received documents, in order of number. Answers Memory, Disk, Refused or Damaged.
fn received_in_objects<R: Records>(records: &mut R, alloc: Global) -> Result<Vec<u8>, StoreFault>
    ensures listed { Reads (λ s text. text.items
        ≡ object_lines (list_in_objects s)) (R.shows records.old) (R.shows records.new) result }
    ensures may { IfErr result (λ f. may_come f ≡ true) }
{
    let rows = records.list_in(alloc)?;
    in_objects(alloc, rows.as_slice())
}

/// The lines of the documents that are sent, in order of number: those of that state, or all. Answers Memory, Disk, Refused or Damaged.
fn sent_in_objects<R: Records>(
    records: &mut R,
    alloc: Global,
    wanted: Option<DetailClass>,
) -> Result<Vec<u8>, StoreFault>
    ensures listed { Reads (λ s text. text.items
        ≡ object_lines (list_out_objects s wanted)) (R.shows records.old) (R.shows records.new) result }
    ensures may { IfErr result (λ f. may_come f ≡ true) }
{
    let rows = records.list_out(alloc, wanted)?;
    with_rows(records, Vec::new(alloc), rows.as_slice())
}

/// The lines of the listing, in order of number. Answers Memory, Disk, Refused or Damaged.
pub fn listing_in_objects<R: Records>(
    records: &mut R,
    alloc: Global,
    filter: Filter,
) -> Result<Vec<u8>, StoreFault>
    ensures listed { Reads (λ s text. text.items
        ≡ object_lines (listing_objects filter s)) (R.shows records.old) (R.shows records.new) result }
    ensures may { IfErr result (λ f. may_come f ≡ true) }
{
    match filter {
        Filter::Outbox(wanted) => sent_in_objects(records, alloc, wanted),
        Filter::Inbox => received_in_objects(records, alloc),
    }
}

/// The line of how much is outstanding, and those of the documents that are outstanding at this moment, in order of number. Answers
/// Memory, Disk, Refused or Damaged.
pub fn outstanding_in_objects<R: Records>(
    records: &mut R,
    alloc: Global,
    moment: Moment,
) -> Result<Vec<u8>, StoreFault>
    ensures outstanding { Reads (λ s text. text.items
        ≡ object_lines (outstanding_objects s moment)) (R.shows records.old) (R.shows records.new) result }
    ensures may { IfErr result (λ f. may_come f ≡ true) }
{
    let counts = records.counts(alloc)?;
    let text = counts_object(alloc, counts)?;
    with_outstanding(records, text, moment)
}

/// The line of the document of this number in full, if there is one. Answers Memory, Disk, Refused or Damaged.
pub fn show_in_objects<R: Records>(
    records: &mut R,
    alloc: Global,
    number: u64,
) -> Result<Option<Vec<u8>>, StoreFault>
    ensures shown { Reads (λ s text. option_map (λ t. t.items) text
        ≡ option_map object_line (shown_object s number)) (R.shows records.old) (R.shows records.new) result }
    ensures may { IfErr result (λ f. may_come f ≡ true) }
{
    match records.find_out(alloc, number)? {
        Some(document) => Ok(Some(document_object(alloc, &document)?)),
        None => Ok(None),
    }
}
