//! Receipts as they come, posted or in the answer to a try.
ghost use Rattle.std.specs.Prelude.{◌≡◌, List, ℕ, IfOk};
ghost use Rattle.as2_exchange.specs.Readings.{Receipt as TheReceipt, named_by, value_of};
ghost use Rattle.as2_exchange.specs.Receipts.{bears, evidence_of};
ghost use Rattle.as2_exchange.specs.State.{AllDigests};
ghost use Rattle.as2_posts.specs.Openings.{receipt_by};

use as2_exchange::{Bytes, Evidence, OutEntry};
use as2_mdn::Receipt;
use as2_mic::Pieces;
use as2_posts::Opened;
use as2_text::{Memory, Moment, without_brackets};
use std::alloc::Global;

/// Whether the receipt is for the document: it comes from the document's partner, to its organization, and names its
/// identifier (RFC 4130, section 6.2; RFC 8098, section 3.2.5).
#[tactic(auto, unfolding(as2_exchange::specs::Readings::named_by, as2_exchange::specs::Readings::value_of))]
pub fn bears(opened: &Opened<'_>, receipt: &Receipt<'_>, document: &OutEntry) -> bool
    ensures { (body : List ℕ)
        → result ≡ bears (receipt_by AllDigests opened.now receipt.now body) document.now.organization
        document.now.partner document.now.id }
{
    document.organization.bytes() == opened.to.bytes()
        && document.partner.bytes() == opened.from.bytes()
        && document.id.value().as_bytes() == without_brackets(receipt.original_id)
}

/// What is kept of a receipt that settles a document at this moment.
pub fn evidence_of(
    alloc: Global,
    opened: &Opened<'_>,
    body: Pieces,
    moment: Moment,
) -> Result<Evidence, Memory>
    ensures { IfOk result (λ evidence. (receipt : TheReceipt)
        → evidence ≡ evidence_of moment (receipt_by AllDigests opened.now receipt body)) }
{
    Ok(Evidence {
        moment,
        content_type: Bytes::keep(alloc, opened.content_type)?,
        body,
    })
}
