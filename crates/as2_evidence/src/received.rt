//! Documents that were received.
ghost use Rattle.std.specs.Prelude.{◌≡◌, ◌++◌, IfOk, OnOk};
ghost use Rattle.as2_evidence.specs.Evidence.{AreReceivedFiles, own_receipt};
ghost use Rattle.as2_evidence.specs.Files.{files_of};
ghost use Rattle.as2_evidence.specs.Pages.{outcome_lines, received_content, received_names, received_page, received_title};
ghost use Rattle.as2_exchange.specs.Readings.{receipt_bytes};
ghost use Rattle.as2_exchange.specs.Recording.{receipt_out};

use crate::files::{NewFile, files_in, in_pieces};
use crate::lines::{add_check_commands, add_checks, add_found, stem};
use crate::words::{own_mic_words, printing_text, receipt_stage_words};
use as2_agreement::Agreements;
use as2_audit::{Mailbox, received_fault};
use as2_exchange::{InEntry, Posted, ReceiptStage};
use as2_mdn::write_receipt;
use as2_messages::date_of;
use as2_mic::Pieces;
use as2_posts::receipt_out;
use as2_text::Memory;
use as2_views::{add_name_line, add_number_line, add_size_line, add_text_line};
use std::alloc::{AllocError, Global};

/// Appends from whom and to whom the document is, and which.
#[tactic(auto, unfolding(crate::specs::Pages::received_names))]
fn add_names(text: &mut Vec<u8>, entry: &InEntry) -> Result<(), AllocError>
    ensures { OnOk result (text.new.items ≡ text.old.items ++ received_names entry.now) }
{
    add_number_line(text, b"number", entry.number)?;
    add_name_line(text, b"from", &entry.posted.sender)?;
    add_name_line(text, b"to", &entry.posted.receiver)?;
    add_text_line(
        text,
        b"identifier",
        entry.posted.id.as_received().as_bytes(),
    )
}

/// Appends what the document is, how long, and the integrity checks of its content.
#[tactic(auto, unfolding(crate::specs::Pages::received_content))]
fn add_content(alloc: Global, text: &mut Vec<u8>, entry: &InEntry) -> Result<(), AllocError>
    ensures { OnOk result (text.new.items ≡ text.old.items ++ received_content entry.now) }
{
    let media = printing_text(alloc, entry.posted.content_type.as_slice())?;
    add_text_line(text, b"type", &media)?;
    add_size_line(text, entry.posted.content.len())?;
    add_checks(text, &entry.posted.content)
}

/// Appends what became of the document, and how its receipt stands.
#[tactic(auto, unfolding(crate::specs::Pages::outcome_lines))]
fn add_outcome(alloc: Global, text: &mut Vec<u8>, entry: &InEntry) -> Result<(), AllocError>
    ensures { OnOk result (text.new.items ≡ text.old.items ++ outcome_lines entry.now) }
{
    let mic = own_mic_words(alloc, entry.posted.mic)?;
    add_text_line(
        text,
        b"receipt",
        receipt_stage_words(&entry.posted.how, entry.receipt_stage).as_bytes(),
    )?;
    add_text_line(text, b"outcome", entry.posted.outcome.text().as_bytes())?;
    add_text_line(text, b"MIC", &mic)
}

/// What the page begins with.
#[tactic(auto, unfolding(crate::specs::Pages::received_title))]
fn received_title() -> &'static str
    ensures { result.now ≡ received_title }
{
    "Evidence of a document that was received by AS2 (RFC 4130)\n\n"
}

/// The page of a document.
fn received_page(alloc: Global, entry: &InEntry, came: &[u8]) -> Result<Vec<u8>, Memory>
    ensures { IfOk result (λ text. text.items ≡ received_page entry.now came.now) }
{
    let stem = stem(alloc, Mailbox::Inbox, entry.number)?;
    let mut text = Vec::from_slice(alloc, received_title().as_bytes())?;
    add_names(&mut text, entry)?;
    add_text_line(&mut text, b"received", came)?;
    add_content(alloc, &mut text, entry)?;
    add_outcome(alloc, &mut text, entry)?;
    add_found(&mut text, received_fault(&entry.posted))?;
    add_check_commands(alloc, &mut text, &stem)?;
    Ok(text)
}

/// The body of the receipt that the station gives for a document.
#[tactic(auto, unfolding(as2_exchange::specs::Readings::receipt_bytes))]
fn receipt_of(alloc: Global, agreements: &Agreements, entry: &InEntry) -> Result<Pieces, Memory>
    ensures { IfOk result (λ bytes. bytes
        ≡ receipt_bytes (receipt_out agreements.now entry.now.number entry.now.posted)) }
{
    let out = receipt_out(agreements, entry.number, &entry.posted)?;
    let text = write_receipt(alloc, &out)?;
    in_pieces(alloc, &text)
}

/// The receipt of a document, where it was given.
fn own_receipt(
    alloc: Global,
    agreements: &Agreements,
    entry: &InEntry,
) -> Result<Option<Pieces>, Memory>
    ensures { IfOk result (λ receipt. receipt ≡ own_receipt agreements.now entry.now entry.now.receipt_stage) }
{
    match entry.receipt_stage {
        ReceiptStage::Sent => Ok(Some(receipt_of(alloc, agreements, entry)?)),
        ReceiptStage::Unasked | ReceiptStage::Pending => Ok(None),
    }
}

/// The files of a document: its content, the receipt that was given, as these agreements have it, and the page. Memory where it runs
/// out.
pub fn received_files(
    alloc: Global,
    agreements: &Agreements,
    entry: InEntry,
) -> Result<Vec<NewFile>, Memory>
    ensures { IfOk result (λ files. AreReceivedFiles agreements.now entry (files_of files.items)) }
{
    let came = date_of(entry.moment);
    let page = received_page(alloc, &entry, &came)?;
    let stem = stem(alloc, Mailbox::Inbox, entry.number)?;
    let receipt = own_receipt(alloc, agreements, &entry)?;
    let Posted { content, .. } = entry.posted;
    files_in(alloc, &stem, content, receipt, &page)
}
