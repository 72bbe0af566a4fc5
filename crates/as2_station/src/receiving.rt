//! Receipts that are posted: each settles its document once.
ghost use Rattle.std.specs.Prelude.{◌≡◌, ◌&&◌, List, ℕ, Some, IsTrue};
ghost use Rattle.as2_exchange.specs.Agreement.{Agreements};
ghost use Rattle.as2_exchange.specs.Posts.{IsReceipt};
ghost use Rattle.as2_exchange.specs.Readings.{named_by};
ghost use Rattle.as2_exchange.specs.Receipts.{bears};
ghost use Rattle.as2_exchange.specs.State.{AllDigests, document_named};
ghost use Rattle.as2_exchange.specs.declared.answer.HttpBody.TheVariants.{Nothing};
ghost use Rattle.as2_posts.specs.Openings.{receipt_by, report_by};
ghost use Rattle.as2_station.specs.Steps.{TakesPost, always};

use crate::receipts::{bears, evidence_of};
use crate::terms::Terms;
use as2_exchange::{HttpAnswer, HttpBody, Line, OutEntry, StoreFault};
use as2_mdn::{Receipt, read_report, verdict_pieces};
use as2_mic::Pieces;
use as2_posts::Opened;
use as2_records::Records;
use as2_text::without_brackets;

/// A posted receipt that could be read, and the head that it came with.
#[derive(Drop)]
struct NamedReceipt<'o, 'h, 'r, 't> {
    opened: &'o Opened<'h>,
    receipt: &'r Receipt<'t>,
}

/// Whether the receipt is for the document, and that was begun.
fn is_for(opened: &Opened<'_>, receipt: &Receipt<'_>, document: &OutEntry) -> bool
    ensures { (body : List ℕ)
        → result ≡
        (bears (receipt_by AllDigests opened.now receipt.now body) document.now.organization document.now.partner
        document.now.id
        && document.now.begun) }
{
    bears(opened, receipt, document) && document.begun
}

/// The answer to a receipt that is taken.
fn taken() -> HttpAnswer
    ensures { result ≡ record { status = 200; body = Nothing } }
{
    HttpAnswer {
        status: 200,
        body: HttpBody::Nothing,
    }
}

/// Takes a receipt that names this document: it settles the document if it is for it, unless one has settled it before.
#[tactic(auto, unfolding(as2_exchange::specs::Documents::settle, as2_exchange::specs::Readings::verdict))]
fn settle_named<R: Records>(
    records: &mut R,
    terms: &Terms<'_>,
    named: &NamedReceipt<'_, '_, '_, '_>,
    body: Pieces,
    document: &OutEntry,
) -> Result<HttpAnswer, StoreFault>
    requires open { (R.shows records.old).IsClean → IsTrue (R.shows records.old).is_open }
    ensures taken { (A : Agreements)
        → TakesPost R.shows A terms.now.moment
        (IsReceipt (receipt_by AllDigests named.now.opened.now named.now.receipt.now body))
        (λ s. document_named s (named_by named.now.receipt.now) ≡ Some document.now) records.old records.new result }
{
    let NamedReceipt { opened, receipt } = named;
    if !is_for(opened, receipt, document) {
        return Ok(Line::NoSuchMessage.answer());
    }
    if document.evidence.is_some() {
        return Ok(taken());
    }
    let evidence = evidence_of(terms.alloc, opened, body, terms.moment)?;
    let detail = verdict_pieces(receipt, &document.content);
    records.settle(document.number, detail, &evidence)?;
    Ok(taken())
}

/// Takes a posted report: a receipt, unless it can't be read. The document that it names is settled, if one is there.
#[tactic(auto, unfolding(as2_exchange::specs::Documents::settle, as2_exchange::specs::Readings::report_in))]
pub(crate) fn receive<R: Records>(
    records: &mut R,
    terms: &Terms<'_>,
    opened: &Opened<'_>,
    body: Pieces,
) -> Result<HttpAnswer, StoreFault>
    ensures taken { (A : Agreements)
        → TakesPost R.shows A terms.now.moment (report_by AllDigests opened.now body) always records.old records.new
        result }
{
    let report = body.joined()?;
    let Ok(receipt) = read_report(&opened.media, &report) else {
        return Ok(Line::UnreadableReceipt.answer());
    };
    let id_value = without_brackets(receipt.original_id);
    let named = NamedReceipt {
        opened,
        receipt: &receipt,
    };
    match records.find_out_by_id(terms.alloc, id_value)? {
        Some(document) => settle_named(records, terms, &named, body, &document),
        None => Ok(Line::NoSuchMessage.answer()),
    }
}
