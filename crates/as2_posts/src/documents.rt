//! A posted document, and what is made of it.
ghost use Rattle.std.specs.Prelude.{◌≡◌, false, IfOk, codes};
ghost use Rattle.as2_names.specs.Heads.{values};
ghost use Rattle.as2_media.specs.Kinds.{kind_of};
ghost use Rattle.as2_text.specs.ReceiptRequests.{delivery_option, is_given_twice, request_of, text_of};
ghost use Rattle.as2_mdn.specs.Outcomes.{report_mic};
ghost use Rattle.as2_exchange.specs.Readings.{asked_how};
ghost use Rattle.as2_exchange.specs.Versions.{AllDigests};
ghost use Rattle.as2_exchange.specs.Posts.{posted_document};
ghost use Rattle.as2_posts.specs.Documents.{is_asked, read_as};
ghost use Rattle.as2_posts.specs.Openings.{document_by, names_in, opened_type};

use crate::encodings::encoding_refused;
use crate::fields::id_in;
use crate::opening::Opened;
use as2_exchange::{Address, Bytes, Line, Posted, ReceiptDelivery};
use as2_mdn::{Outcome, ReceiptMic, outcome_of};
use as2_mic::{Alg, Pieces, mic_of_pieces};
use as2_text::{Head, How, Memory, MessageId, Once, ReceiptAsk};
use std::alloc::Global;

/// The text of the address that the receipt is to be sent to.
fn delivery_address(head: &Head) -> &[u8]
    ensures { is_given_twice (delivery_option head.now) ≡ false → result.now ≡ text_of (delivery_option head.now) }
{
    match head.value(b"receipt-delivery-option") {
        Once::One(text) => text,
        Once::Absent | Once::Twice => b"",
    }
}

/// How a receipt is asked for, its address as spelled.
fn how_of(alloc: Global, head: &Head, ask: &ReceiptAsk<'_>) -> Result<ReceiptDelivery, Memory>
    requires { is_asked head.now (request_of ask.now) }
    ensures { IfOk result (λ how. how ≡ asked_how ask.now.how (text_of (delivery_option head.now))) }
{
    match ask.how {
        How::NoReceipt => Ok(ReceiptDelivery::NoReceipt),
        How::Sync => Ok(ReceiptDelivery::Sync),
        How::Async(_) => Ok(ReceiptDelivery::Async(Address::keep(alloc, delivery_address(head))?)),
    }
}

/// The MIC of a content that has that outcome: under the first known digest of those that are asked for, or else under
/// SHA-1. Only a processed document has one (RFC 4130, section 7.3.1).
fn mic_for(outcome: Outcome, ask: &ReceiptAsk<'_>, content: &Pieces) -> Option<ReceiptMic>
    ensures { result ≡ report_mic AllDigests outcome (request_of ask.now) content.now }
{
    if outcome != Outcome::Processed {
        return None;
    }
    let digest = match Alg::first_of(ask.digests) {
        Some(digest) => digest,
        None => Alg::Sha1,
    };
    Some(ReceiptMic {
        digest,
        text: mic_of_pieces(digest, content),
    })
}

/// A head, and how it asks for a receipt.
#[derive(Drop)]
struct AskingHead<'a> {
    head: &'a Head,
    ask: ReceiptAsk<'a>,
}

/// The document, with what is made of it.
#[tactic(auto, unfolding(as2_exchange::specs::Readings::document_outcome, as2_exchange::specs::Readings::how_of, as2_exchange::specs::Readings::mic_for))]
fn posted(
    alloc: Global,
    opened: Opened<'_>,
    id: MessageId,
    asking: &AskingHead<'_>,
    content: Pieces,
) -> Result<Posted, Memory>
    requires { is_asked asking.now.head.now (request_of asking.now.ask) }
    ensures { IfOk result (λ p. p
        ≡ posted_document AllDigests (names_in opened.entry) id (opened_type opened.entry) asking.now.head.now content
        (request_of asking.now.ask)) }
{
    let AskingHead { head, ask } = asking;
    let outcome = outcome_of(opened.media.kind(), encoding_refused(head), ask);
    let how = how_of(alloc, head, ask)?;
    let mic = mic_for(outcome, ask, &content);
    Ok(Posted {
        sender: opened.from,
        receiver: opened.to,
        id,
        content_type: Bytes::keep(alloc, opened.content_type)?,
        content,
        outcome,
        how,
        mic,
    })
}

/// Reads a post as a document: what is made of it, or the first line that refuses it, by its identifier or by how it
/// asks for a receipt. The content isn't copied.
#[tactic(auto, unfolding(as2_exchange::specs::Readings::ask_of))]
pub fn document(
    alloc: Global,
    opened: Opened<'_>,
    head: &Head,
    content: Pieces,
) -> Result<Result<Posted, Line>, Memory>
    ensures { IfOk result (λ read. document_by AllDigests opened.entry head.now content ≡ read_as read) }
{
    let Some(id) = id_in(alloc, head)? else {
        return Ok(Err(Line::BadId));
    };
    let Ok(ask) = ReceiptAsk::read(head) else {
        return Ok(Err(Line::BadAsk));
    };
    let asking = AskingHead { head, ask };
    Ok(Ok(posted(alloc, opened, id, &asking, content)?))
}
