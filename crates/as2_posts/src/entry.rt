//! Entries of the inbox.
ghost use Rattle.std.specs.Prelude.{◌≡◌};
ghost use Rattle.as2_exchange.specs.Recording.{first_entry};
ghost use Rattle.as2_posts.specs.Answers.{is_requeued};

use as2_exchange::{Attempt, InEntry, Posted, ReceiptDelivery, ReceiptStage};
use as2_text::Moment;

/// The entry of a document that is posted for the first time.
pub fn first_entry(number: u64, moment: Moment, posted: Posted) -> InEntry
    ensures { result ≡ first_entry number moment posted }
{
    let (receipt_stage, due) = match posted.how {
        ReceiptDelivery::NoReceipt => (ReceiptStage::Unasked, None),
        ReceiptDelivery::Sync => (ReceiptStage::Sent, None),
        ReceiptDelivery::Async(_) => (ReceiptStage::Pending, Some(moment.seconds())),
    };
    InEntry {
        number,
        posted,
        moment,
        receipt_stage,
        tries: 0,
        attempt: Attempt::Idle,
        due,
    }
}

/// Whether a repeat of the document queues its receipt again: it is sent later, and was sent, or is on or past its last
/// try.
pub fn is_requeued(entry: &InEntry) -> bool
    ensures { result ≡ is_requeued entry.now }
{
    matches!(entry.posted.how, ReceiptDelivery::Async(_))
        && (entry.receipt_stage == ReceiptStage::Sent
            || matches!(entry.attempt, Attempt::Last | Attempt::Used))
}
