//! The outbox as a list.

ghost use Rattle.std.specs.Prelude.{◌≡◌, ◌==◌, ◌&&◌, [], ◌∷◌, ◌++◌, if◌then◌else◌, map, filter, find, IfOk, OnOk, OnErr, Some, true, not, count_by, is_some, option_map};
ghost use Rattle.std.specs.List.{IsDistinct, position};
ghost use Rattle.std.specs.Option.{option_map_or};
ghost use Rattle.std.specs.Str.{bytes_eq};
ghost use Rattle.as2_exchange.specs.Documents.{passed_document, passes_at, passes_into, settled_as};
ghost use Rattle.as2_exchange.specs.Readings.{value_of};
ghost use Rattle.as2_exchange.specs.State.{is_settled};
ghost use Rattle.as2_exchange.specs.Due.{is_due_document, may_begin};
ghost use Rattle.as2_exchange.specs.Progress.{is_awaited, is_in, is_new};
ghost use Rattle.as2_records.specs.Due.{is_behind};
ghost use Rattle.as2_records.specs.Progressing.{come_to};
ghost use Rattle.as2_records.specs.Resending.{queued_anew};
ghost use Rattle.as2_records.specs.Summaries.{out_summary};

use crate::copies::copy_document;
use crate::due::{is_behind, is_due};
use crate::rows::out_row;
use as2_exchange::{Attempt, Evidence, OutEntry};
use as2_mdn::{Detail, DetailClass};
use as2_records::{OutRow, Progress};
use as2_text::{Memory, Moment};
use std::alloc::Global;

/// The document of this number, if there is one.
pub fn document_of(documents: &[OutEntry], number: u64) -> Option<&OutEntry>
    ensures { option_map (λ d. d.now) result ≡ find (λ d. d.number == number) documents.now }
{
    documents.iter().find(|document| document.number == number)
}

/// Whether there is a document of this number.
pub fn has_document(documents: &[OutEntry], number: u64) -> bool
    ensures { result ≡ is_some (find (λ d. d.number == number) documents.now) }
{
    document_of(documents, number).is_some()
}

/// Whether the document has an identifier of this value.
#[tactic(auto, unfolding(as2_exchange::specs::Readings::value_of))]
fn is_named(document: &OutEntry, id_value: &[u8]) -> bool
    ensures { result ≡ bytes_eq (value_of document.now.id) id_value.now }
{
    document.id.value().as_bytes() == id_value
}

/// The document with an identifier of this value, if there is one.
pub fn document_named<'a>(documents: &'a [OutEntry], id_value: &[u8]) -> Option<&'a OutEntry>
    ensures { option_map (λ d. d.now) result ≡ find (λ d. bytes_eq (value_of d.id) id_value.now) documents.now }
{
    documents
        .iter()
        .find(|document| is_named(document, id_value))
}

/// Whether a document has an identifier of the value of this one's.
#[tactic(auto, unfolding(as2_exchange::specs::Readings::value_of))]
pub fn has_id_of(documents: &[OutEntry], other: &OutEntry) -> bool
    ensures { result ≡ is_some (find (λ d. bytes_eq (value_of d.id) (value_of other.now.id)) documents.now) }
{
    document_named(documents, other.id.value().as_bytes()).is_some()
}

/// Adds a copy of the document at the end. Where there is no memory, the list stays.
pub fn add(alloc: Global, documents: &mut Vec<OutEntry>, document: &OutEntry) -> Result<(), Memory>
    ensures added { OnOk result (documents.new.items ≡ documents.old.items ++ document.now ∷ []) }
    ensures same { OnErr result (documents.new.items ≡ documents.old.items) }
{
    let copy = copy_document(alloc, document)?;
    match documents.push(copy) {
        Ok(()) => Ok(()),
        Err(_) => Err(Memory),
    }
}

/// Sets how far the document has come.
fn set(document: &mut OutEntry, progress: Progress)
    ensures { document.new ≡ come_to progress document.old }
{
    document.begun = document.begun || progress.tries >= 1;
    document.tries = progress.tries;
    document.attempt = progress.attempt;
    document.due = progress.due;
    document.detail = progress.detail;
}

/// Sets how far the document of this number, if there is one, has come.
pub fn set_numbered(documents: &mut Vec<OutEntry>, number: u64, progress: Progress)
    ensures { documents.new.items
        ≡ map (λ d. if d.number == number then come_to progress d else d) documents.old.items }
{
    for document in documents.iter_mut() {
        if document.number == number {
            set(document, progress);
        }
    }
}

/// Queues the document to be sent anew.
fn queue(document: &mut OutEntry, moment: Moment)
    ensures { document.new ≡ queued_anew moment document.old }
{
    document.tries = 0;
    document.attempt = Attempt::Idle;
    document.due = Some(moment.seconds());
    document.detail = Detail::New;
}

/// Queues the document of this number, if there is one, to be sent anew.
pub fn queue_numbered(documents: &mut Vec<OutEntry>, number: u64, moment: Moment)
    ensures { documents.new.items
        ≡ map (λ d. if d.number == number then queued_anew moment d else d) documents.old.items }
{
    for document in documents.iter_mut() {
        if document.number == number {
            queue(document, moment);
        }
    }
}

/// Whether there is a document of this number that no receipt has settled.
pub fn is_unsettled(documents: &[OutEntry], number: u64) -> bool
    ensures { result ≡ not (option_map_or is_settled (find (λ d. d.number == number) documents.now) true) }
{
    match document_of(documents, number) {
        Some(document) => document.evidence.is_none(),
        None => false,
    }
}

/// The place of the document of this number, if there is one.
fn place_of(documents: &[OutEntry], number: u64) -> Option<usize>
    ensures { result ≡ position (λ d. d.number == number) documents.now }
{
    documents
        .iter()
        .position(|document| document.number == number)
}

/// Settles the document by a receipt.
fn settle(document: &mut OutEntry, detail: Detail, evidence: Evidence)
    ensures { document.new ≡ settled_as detail evidence document.old }
{
    document.attempt = Attempt::Idle;
    document.due = None;
    document.detail = detail;
    document.evidence = Some(evidence);
}

/// Settles the document of this number, if there is one, by a receipt.
pub fn settle_numbered(
    documents: &mut Vec<OutEntry>,
    number: u64,
    detail: Detail,
    evidence: Evidence,
)
    ensures { IsDistinct (λ a b. a == b) (map (λ d. d.number) documents.old.items)
        → documents.new.items
        ≡ map (λ d. if d.number == number then settled_as detail evidence d else d) documents.old.items }
{
    if let Some(place) = place_of(documents, number) {
        settle(&mut documents[place], detail, evidence);
    }
}

/// What the document passes into at this moment, if it does.
fn passes_at(moment: Moment, document: &OutEntry) -> Option<Detail>
    ensures { result ≡ passes_at moment document.now }
{
    if !is_due(moment, document.due) {
        return None;
    }
    match (document.detail, document.attempt) {
        (Detail::Awaiting, _) => Some(Detail::Overdue),
        (Detail::Sending, Attempt::Last) => Some(Detail::TriesUsed),
        _ => None,
    }
}

/// Lets the document pass into what it passes into at this moment, if it does, and answers whether it does.
fn pass(document: &mut OutEntry, moment: Moment) -> bool
    ensures passed { document.new ≡ passed_document document.old (passes_at moment document.old) }
    ensures told { result ≡ is_some (passes_at moment document.old) }
{
    match passes_at(moment, document) {
        Some(detail) => {
            document.due = None;
            document.detail = detail;
            true
        }
        None => false,
    }
}

/// Lets each document pass into what it passes into at this moment, and answers how many do.
pub fn expire(documents: &mut Vec<OutEntry>, moment: Moment) -> u64
    ensures passed { documents.new.items ≡ map (λ d. passed_document d (passes_at moment d)) documents.old.items }
    ensures counted { result ≡ count_by (λ d. is_some (passes_at moment d)) documents.old.items }
{
    let mut count = 0;
    for document in documents.iter_mut() {
        if pass(document, moment) {
            count += 1;
        }
    }
    count
}

/// Whether a try of such a document may begin, once its moment has come.
fn may_begin(detail: Detail, attempt: Attempt) -> bool
    ensures { result ≡ may_begin detail attempt }
{
    match detail {
        Detail::New | Detail::Retry => true,
        Detail::Sending => attempt == Attempt::Running,
        _ => false,
    }
}

/// Whether a try of the document may begin at this moment.
fn is_due_document(moment: Moment, document: &OutEntry) -> bool
    ensures { result ≡ is_due_document moment document.now }
{
    may_begin(document.detail, document.attempt) && is_due(moment, document.due)
}

/// The number of the first document of which a try may begin at this moment, behind that number where one is given.
pub fn first_due(documents: &[OutEntry], moment: Moment, behind: Option<u64>) -> Option<u64>
    ensures { result ≡ option_map (λ d. d.number)
        (find (λ d. is_due_document moment d && is_behind behind d.number) documents.now) }
{
    let due = documents.iter().find(|document| is_due_document(moment, document)
        && is_behind(behind, document.number));
    match due {
        Some(document) => Some(document.number),
        None => None,
    }
}

/// Whether the document is in this state, where one is asked for.
fn is_in(wanted: Option<DetailClass>, document: &OutEntry) -> bool
    ensures { result ≡ is_in wanted document.now }
{
    match wanted {
        Some(state) => document.detail.class() == state,
        None => true,
    }
}

/// The documents of that state, or all, without their contents and their evidence.
pub fn rows(
    alloc: Global,
    documents: &[OutEntry],
    wanted: Option<DetailClass>,
) -> Result<Vec<OutRow>, Memory>
    ensures { IfOk result (λ rows. rows.items ≡ map out_summary (filter (is_in wanted) documents.now)) }
{
    let mut rows = Vec::new(alloc);
    for document in documents {
        if is_in(wanted, document) {
            let row = out_row(document)?;
            rows.push(row)?;
        }
    }
    Ok(rows)
}

/// The numbers of the documents that a receipt has settled.
pub fn settled_numbers(alloc: Global, documents: &[OutEntry]) -> Result<Vec<u64>, Memory>
    ensures { IfOk result (λ numbers. numbers.items ≡ map (λ d. d.number) (filter is_settled documents.now)) }
{
    let mut numbers = Vec::new(alloc);
    for document in documents {
        if document.evidence.is_some() {
            numbers.push(document.number)?;
        }
    }
    Ok(numbers)
}

/// How many of the documents are new.
pub fn not_sent(documents: &[OutEntry]) -> u64
    ensures { result ≡ count_by is_new documents.now }
{
    documents
        .iter()
        .filter(|document| document.detail == Detail::New)
        .count() as u64
}

/// For how many of the documents a receipt is awaited.
pub fn awaited(documents: &[OutEntry]) -> u64
    ensures { result ≡ count_by is_awaited documents.now }
{
    documents
        .iter()
        .filter(|document| document.detail == Detail::Awaiting)
        .count() as u64
}

/// How many of the documents are in this state.
pub fn in_state(documents: &[OutEntry], state: DetailClass) -> u64
    ensures { result ≡ count_by (is_in (Some state)) documents.now }
{
    documents
        .iter()
        .filter(|document| document.detail.class() == state)
        .count() as u64
}
