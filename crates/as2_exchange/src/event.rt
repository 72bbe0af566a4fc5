//! What the machine takes: posts, commands, tries and moments.

use as2_mic::Pieces;
use as2_text::{AsName, Head, Moment};

/// What came of a try to send.
#[derive(Drop)]
pub enum TryAnswer {
    /// No whole answer.
    NoAnswer,
    /// An HTTP answer.
    Reply {
        /// Its status.
        status: u16,
        /// Its head fields.
        head: Head,
        /// Its body.
        body: Pieces,
    },
}

/// What happens to the station.
#[derive(Drop)]
pub enum Event {
    /// A message is posted: a document, or a receipt.
    Post {
        /// Its head fields.
        head: Head,
        /// Its body.
        body: Pieces,
        /// When it came, in seconds since 1970.
        moment: Moment,
    },
    /// A document is handed in for a partner.
    Submit {
        /// The organization that sends it.
        organization: AsName,
        /// The partner that it is for.
        partner: AsName,
        /// Its bytes.
        content: Pieces,
        /// When it was handed in, in seconds since 1970.
        moment: Moment,
    },
    /// A try to send a document begins.
    Begin {
        /// The document's number.
        number: u64,
        /// When the try begins, in seconds since 1970.
        moment: Moment,
    },
    /// A try to send a document has ended.
    Outcome {
        /// The document's number.
        number: u64,
        /// What came of it.
        answer: TryAnswer,
        /// When the answer came, or none was waited for any more, in seconds since 1970.
        moment: Moment,
    },
    /// A try to send a receipt begins.
    BeginReceipt {
        /// The receipt's number.
        number: u64,
        /// When the try begins, in seconds since 1970.
        moment: Moment,
    },
    /// A try to send a receipt has ended.
    OutcomeReceipt {
        /// The receipt's number.
        number: u64,
        /// What came of it.
        answer: TryAnswer,
        /// When the answer came, or none was waited for any more, in seconds since 1970.
        moment: Moment,
    },
    /// A document that failed is to be sent anew.
    Resend {
        /// The document's number.
        number: u64,
        /// From when on it is to be sent, in seconds since 1970.
        moment: Moment,
    },
    /// Time has come to this moment.
    Tick {
        /// The moment, in seconds since 1970.
        moment: Moment,
    },
}
