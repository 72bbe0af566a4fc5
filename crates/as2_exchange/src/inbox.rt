//! Posted documents, as they are recorded, and the receipts that are owed for them.

use crate::address::Address;
use crate::attempt::Attempt;
use crate::bytes::Bytes;
use as2_mdn::{Outcome, ReceiptMic};
use as2_mic::Pieces;
use as2_text::{AsName, MessageId, Moment};

/// How a receipt is asked for in a post (RFC 4130, section 7.3).
#[derive(Drop)]
pub enum ReceiptDelivery {
    /// It isn't.
    NoReceipt,
    /// In the answer to the post.
    Sync,
    /// Later, by a request to this address.
    Async(Address),
}

/// How the receipt for a posted document stands.
#[derive(Clone, Copy, Debug, PartialEq, Eq)]
pub enum ReceiptStage {
    /// None was asked for.
    Unasked,
    /// It is to be sent.
    Pending,
    /// It was sent.
    Sent,
}

/// A posted document, and what was made of it.
#[derive(Drop)]
pub struct Posted {
    /// The partner that posted it.
    pub sender: AsName,
    /// The organization that it was posted to.
    pub receiver: AsName,
    /// Its identifier, as received.
    pub id: MessageId,
    /// Its content type, as spelled; `application/octet-stream` where none was given.
    pub content_type: Bytes,
    /// Its bytes.
    pub content: Pieces,
    /// What became of it.
    pub outcome: Outcome,
    /// How a receipt was asked for.
    pub how: ReceiptDelivery,
    /// The digest and the MIC of a processed document; None for any other.
    pub mic: Option<ReceiptMic>,
}

/// An entry of the inbox: a posted document and its receipt.
#[derive(Drop)]
pub struct InEntry {
    /// The number of the receipt: 1 to 999,999,999,999.
    pub number: u64,
    /// The document.
    pub posted: Posted,
    /// When it was posted first.
    pub moment: Moment,
    /// How its receipt stands.
    pub receipt_stage: ReceiptStage,
    /// How often a receipt that is sent later was tried.
    pub tries: u64,
    /// Whether such a try is open.
    pub attempt: Attempt,
    /// From when on the next try may begin, in seconds since 1970, where it is waited for.
    pub due: Option<u64>,
}
