//! Entries without their contents, as they are listed.

ghost use Rattle.std.specs.Prelude.{◌≡◌};
ghost use Rattle.as2_records.specs.Summaries.{in_entry, out_entry};

use as2_exchange::{
    Attempt, Bytes, Evidence, InEntry, OutEntry, Posted, ReceiptDelivery, ReceiptStage,
};
use as2_mdn::{Detail, Outcome, ReceiptMic};
use as2_mic::Pieces;
use as2_text::{AsName, MessageId, Moment};

/// An entry of the inbox with the length of its content in place of the content.
#[derive(Drop)]
pub struct InRow {
    /// The number of the receipt.
    pub number: u64,
    /// The partner that posted the document.
    pub sender: AsName,
    /// The organization that it was posted to.
    pub receiver: AsName,
    /// Its identifier, as received.
    pub id: MessageId,
    /// Its content type, as spelled.
    pub content_type: Bytes,
    /// How many bytes its content has.
    pub length: u64,
    /// When it was posted first.
    pub moment: Moment,
    /// What became of it.
    pub outcome: Outcome,
    /// How a receipt was asked for.
    pub how: ReceiptDelivery,
    /// The digest and the MIC of a processed document.
    pub mic: Option<ReceiptMic>,
    /// How its receipt stands.
    pub receipt_stage: ReceiptStage,
    /// How often a receipt that is sent later was tried.
    pub tries: u64,
    /// Whether such a try is open.
    pub attempt: Attempt,
    /// From when on the next try may begin, in seconds since 1970, where it is waited for.
    pub due: Option<u64>,
}

impl InRow {
    /// The entry, with its content.
    pub fn with_content(self, content: Pieces) -> InEntry
        ensures { result ≡ in_entry self content }
    {
        InEntry {
            number: self.number,
            posted: Posted {
                sender: self.sender,
                receiver: self.receiver,
                id: self.id,
                content_type: self.content_type,
                content,
                outcome: self.outcome,
                how: self.how,
                mic: self.mic,
            },
            moment: self.moment,
            receipt_stage: self.receipt_stage,
            tries: self.tries,
            attempt: self.attempt,
            due: self.due,
        }
    }
}

/// An entry of the outbox with the length of its content in place of the content, and without its evidence.
#[derive(Drop)]
pub struct OutRow {
    /// Its number.
    pub number: u64,
    /// The organization that sends it.
    pub organization: AsName,
    /// The partner that it is sent to.
    pub partner: AsName,
    /// Its identifier, `<out-N@domain>`.
    pub id: MessageId,
    /// How many bytes its content has.
    pub length: u64,
    /// When it was submitted.
    pub moment: Moment,
    /// How often it was tried.
    pub tries: u64,
    /// Whether a try is open.
    pub attempt: Attempt,
    /// When the next try may begin, or what is waited for is overdue, in seconds since 1970; None where nothing is
    /// waited for. It may pass the last moment.
    pub due: Option<u64>,
    /// How it stands.
    pub detail: Detail,
}

impl OutRow {
    /// The entry, with its content and its evidence, where it was begun or not.
    pub fn with_content(self, begun: bool, content: Pieces, evidence: Option<Evidence>) -> OutEntry
        ensures { result ≡ out_entry self begun content evidence }
    {
        OutEntry {
            number: self.number,
            organization: self.organization,
            partner: self.partner,
            id: self.id,
            content,
            moment: self.moment,
            begun,
            tries: self.tries,
            attempt: self.attempt,
            due: self.due,
            detail: self.detail,
            evidence,
        }
    }
}
