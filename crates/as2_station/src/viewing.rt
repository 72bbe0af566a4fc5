//! What is seen of the records: listings, what is outstanding, one document in full, the content of a received one.
ghost use Rattle.std.specs.Prelude.{◌≡◌, IfErr, option_map, string_bytes, true};
ghost use Rattle.as2_views.specs.Texts.{fetch, list_in, list_out, outstanding_text, show_text};
ghost use Rattle.as2_records.specs.Calls.{Reads};
ghost use Rattle.as2_records.specs.Listing.{listed_rows, settled_numbers};
ghost use Rattle.as2_records.specs.Standing.{may_come};

use crate::texts::{document_text, in_text, out_text, outstanding_text};
use as2_exchange::StoreFault;
use as2_mdn::DetailClass;
use as2_records::{OutRow, Records};
use as2_text::Moment;
use std::alloc::Global;

/// Documents that are sent, and the numbers of all that a receipt has settled.
#[derive(Drop)]
pub struct Marked {
    pub rows: Vec<OutRow>,
    pub settled: Vec<u64>,
}

/// The documents of that state, or all, with the numbers of all that a receipt has settled.
fn documents<R: Records>(
    records: &mut R,
    alloc: Global,
    wanted: Option<DetailClass>,
) -> Result<Marked, StoreFault>
    ensures marked { Reads (λ s m. (m.rows.items ≡ listed_rows wanted s)
        × (m.settled.items ≡ settled_numbers s)) (R.shows records.old) (R.shows records.new) result }
    ensures fault { IfErr result (λ f. may_come f ≡ true) }
{
    let rows = records.list_out(alloc, wanted)?;
    let settled = records.settled(alloc)?;
    Ok(Marked { rows, settled })
}

/// The lines of the documents of that state, or of all.
pub fn sent_listing<R: Records>(
    records: &mut R,
    alloc: Global,
    wanted: Option<DetailClass>,
) -> Result<String, StoreFault>
    ensures listing { Reads (λ s text. string_bytes text
        ≡ list_out s wanted) (R.shows records.old) (R.shows records.new) result }
    ensures fault { IfErr result (λ f. may_come f ≡ true) }
{
    let documents = documents(records, alloc, wanted)?;
    out_text(
        alloc,
        documents.rows.as_slice(),
        documents.settled.as_slice(),
    )
}

/// The lines of all received documents.
pub fn received_listing<R: Records>(records: &mut R, alloc: Global) -> Result<String, StoreFault>
    ensures listing { Reads (λ s text. string_bytes text
        ≡ list_in s) (R.shows records.old) (R.shows records.new) result }
    ensures fault { IfErr result (λ f. may_come f ≡ true) }
{
    let rows = records.list_in(alloc)?;
    in_text(alloc, rows.as_slice())
}

/// How much is outstanding, and the lines of the documents that are outstanding at this moment.
pub fn outstanding<R: Records>(
    records: &mut R,
    alloc: Global,
    moment: Moment,
) -> Result<String, StoreFault>
    ensures outstanding { Reads (λ s text. string_bytes text
        ≡ outstanding_text s moment) (R.shows records.old) (R.shows records.new) result }
    ensures fault { IfErr result (λ f. may_come f ≡ true) }
{
    let counts = records.counts(alloc)?;
    let documents = documents(records, alloc, None)?;
    outstanding_text(
        alloc,
        counts,
        documents.rows,
        documents.settled.as_slice(),
        moment,
    )
}

/// The document of this number in full, if there is one.
pub fn show<R: Records>(
    records: &mut R,
    alloc: Global,
    number: u64,
) -> Result<Option<String>, StoreFault>
    ensures shown { Reads (λ s text. option_map string_bytes text
        ≡ show_text s number) (R.shows records.old) (R.shows records.new) result }
    ensures fault { IfErr result (λ f. may_come f ≡ true) }
{
    match records.find_out(alloc, number)? {
        Some(document) => Ok(Some(document_text(alloc, &document)?)),
        None => Ok(None),
    }
}

/// The content of the received document of this number, if there is one.
pub fn fetch<R: Records>(
    records: &mut R,
    alloc: Global,
    number: u64,
) -> Result<Option<Vec<u8>>, StoreFault>
    ensures fetched { Reads (λ s content. option_map (λ v. v.items) content
        ≡ fetch s number) (R.shows records.old) (R.shows records.new) result }
    ensures fault { IfErr result (λ f. may_come f ≡ true) }
{
    match records.find_in_number(alloc, number)? {
        Some(entry) => Ok(Some(entry.posted.content.joined()?)),
        None => Ok(None),
    }
}
