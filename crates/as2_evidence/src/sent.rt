//! Documents that are sent.
ghost use Rattle.std.specs.Prelude.{◌≡◌, ◌++◌, IfOk, OnOk, None, Some, option_map, string_bytes};
ghost use Rattle.as2_audit.specs.Faults.{kept_receipt};
ghost use Rattle.as2_evidence.specs.Evidence.{AreSentFiles, IsReceiptMoment};
ghost use Rattle.as2_evidence.specs.Files.{files_of};
ghost use Rattle.as2_evidence.specs.Pages.{fields_command, known_lines, receipt_heading, receipt_lines, said_lines, sent_page, sent_title};

use crate::files::{NewFile, files_in};
use crate::lines::{add_check_commands, add_checks, add_found, stem};
use crate::words::{detail_words, disposition_words, printing_text, read_mic_words};
use as2_audit::{Mailbox, sent_fault};
use as2_exchange::{Evidence, OutEntry};
use as2_mdn::{Receipt, read_report};
use as2_messages::date_of;
use as2_mic::Pieces;
use as2_text::{MediaType, Memory};
use as2_views::{add_document, add_text_line};
use std::alloc::{AllocError, Global};

/// How the fields of a receipt are read.
#[tactic(auto, unfolding(crate::specs::Pages::fields_command))]
fn fields_command(alloc: Global, stem: &str) -> Result<String, AllocError>
    ensures { IfOk result (λ text. string_bytes text ≡ fields_command stem.now) }
{
    format!(in alloc;
        "\nIts fields; those of its second part count, and a MIC there has to be the one by its digest:\n    grep -a -i -A 2 -E '^(Original-Message-ID|Disposition|Received-Content-MIC):' {stem}.receipt\n"
    )
}

/// Appends what a receipt says.
fn add_receipt(alloc: Global, text: &mut Vec<u8>, receipt: &Receipt<'_>) -> Result<(), AllocError>
    ensures { OnOk result (text.new.items ≡ text.old.items ++ said_lines (Some receipt.now)) }
{
    let document = printing_text(alloc, receipt.original_id)?;
    let disposition = disposition_words(alloc, &receipt.disposition)?;
    let disposition = printing_text(alloc, &disposition)?;
    let mic = read_mic_words(alloc, &receipt.mic)?;
    let mic = printing_text(alloc, &mic)?;
    add_text_line(text, b"document", &document)?;
    add_text_line(text, b"says", &disposition)?;
    add_text_line(text, b"MIC", &mic)
}

/// Appends that a receipt can't be read.
fn add_unread(text: &mut Vec<u8>) -> Result<(), Memory>
    ensures { OnOk result (text.new.items ≡ text.old.items ++ said_lines None) }
{
    add_text_line(text, b"says", b"it can't be read")?;
    Ok(())
}

/// Appends what the receipt that is kept says, where it can be read.
#[tactic(auto, unfolding(as2_exchange::specs::Readings::report_in))]
fn add_said(alloc: Global, text: &mut Vec<u8>, evidence: &Evidence) -> Result<(), Memory>
    ensures { OnOk result (text.new.items ≡ text.old.items ++ said_lines (kept_receipt evidence.now)) }
{
    let body = evidence.body.joined()?;
    let Ok(media) = MediaType::parse(evidence.content_type.as_slice()) else {
        return add_unread(text);
    };
    let Ok(receipt) = read_report(&media, &body) else {
        return add_unread(text);
    };
    add_receipt(alloc, text, &receipt)?;
    Ok(())
}

/// What stands before a receipt.
#[tactic(auto, unfolding(crate::specs::Pages::receipt_heading))]
fn receipt_heading() -> &'static str
    ensures { result.now ≡ receipt_heading }
{
    "\nThe receipt that settled it (RFC 8098); it isn't signed:\n"
}

/// Appends the receipt, where one settled the document, and how it is read.
#[tactic(auto, unfolding(crate::specs::Pages::receipt_lines))]
fn add_evidence(
    alloc: Global,
    text: &mut Vec<u8>,
    stem: &str,
    came: &[u8],
    evidence: Option<&Evidence>,
) -> Result<(), Memory>
    ensures { OnOk result (text.new.items
        ≡ text.old.items ++ receipt_lines stem.now came.now (option_map (λ e. e.now) evidence.entry)) }
{
    let Some(evidence) = evidence else {
        return Ok(());
    };
    text.extend_from_slice(receipt_heading().as_bytes())?;
    add_text_line(text, b"came", came)?;
    let media = printing_text(alloc, evidence.content_type.as_slice())?;
    add_text_line(text, b"type", &media)?;
    add_said(alloc, text, evidence)?;
    text.extend_from_slice(fields_command(alloc, stem)?.as_bytes())?;
    Ok(())
}

/// Appends all that is known of a document.
#[tactic(auto, unfolding(crate::specs::Pages::known_lines))]
fn add_known(text: &mut Vec<u8>, document: &OutEntry) -> Result<(), Memory>
    ensures { OnOk result (text.new.items ≡ text.old.items ++ known_lines document.now) }
{
    add_document(text, document)
}

/// What the page begins with.
#[tactic(auto, unfolding(crate::specs::Pages::sent_title))]
fn sent_title() -> &'static str
    ensures { result.now ≡ sent_title }
{
    "Evidence of a document that is sent by AS2 (RFC 4130)\n\n"
}

/// The page of a document.
fn sent_page(
    alloc: Global,
    migrated: bool,
    document: &OutEntry,
    submitted: &[u8],
    came: &[u8],
) -> Result<Vec<u8>, Memory>
    ensures { IfOk result (λ text. text.items ≡ sent_page migrated document.now submitted.now came.now) }
{
    let stem = stem(alloc, Mailbox::Outbox, document.number)?;
    let mut text = Vec::from_slice(alloc, sent_title().as_bytes())?;
    add_known(&mut text, document)?;
    add_text_line(&mut text, b"submitted", submitted)?;
    add_checks(&mut text, &document.content)?;
    add_text_line(
        &mut text,
        b"meaning",
        detail_words(document.detail).as_bytes(),
    )?;
    add_found(&mut text, sent_fault(migrated, document)?)?;
    add_check_commands(alloc, &mut text, &stem)?;
    add_evidence(alloc, &mut text, &stem, came, document.evidence.as_ref())?;
    Ok(text)
}

/// The date on which the receipt came, or no text where none did.
fn came_on(alloc: Global, evidence: Option<&Evidence>) -> Result<Vec<u8>, AllocError>
    ensures { IfOk result (λ text. IsReceiptMoment (option_map (λ e. e.now) evidence.entry) text.items) }
{
    let Some(evidence) = evidence else {
        return Ok(Vec::new(alloc));
    };
    Vec::from_slice(alloc, &date_of(evidence.moment))
}

/// The receipt that settled a document, as it came.
fn body_of(evidence: Option<Evidence>) -> Option<Pieces>
    ensures { result ≡ option_map (λ e. e.body) evidence }
{
    let Evidence { body, .. } = evidence?;
    Some(body)
}

/// The files of a document: its content, its receipt where one settled it, and the page. In migrated records the receipt may be of
/// before. Memory where it runs out.
pub fn sent_files(alloc: Global, migrated: bool, document: OutEntry) -> Result<Vec<NewFile>, Memory>
    ensures { IfOk result (λ files. AreSentFiles migrated document (files_of files.items)) }
{
    let submitted = date_of(document.moment);
    let came = came_on(alloc, document.evidence.as_ref())?;
    let page = sent_page(alloc, migrated, &document, &submitted, &came)?;
    let stem = stem(alloc, Mailbox::Outbox, document.number)?;
    let OutEntry {
        content,
        evidence,
        ..
    } = document;
    files_in(alloc, &stem, content, body_of(evidence), &page)
}
