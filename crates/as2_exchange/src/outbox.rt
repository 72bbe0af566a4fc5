//! Documents that are sent, as they are kept.
ghost use Rattle.std.specs.Prelude.{◌≡◌};
ghost use Rattle.as2_exchange.specs.Invariants.{is_by_receipt};

use crate::attempt::Attempt;
use crate::bytes::Bytes;
use as2_mdn::Detail;
use as2_mic::Pieces;
use as2_text::{AsName, MessageId, Moment};

/// The receipt that settled a document.
#[derive(Drop)]
pub struct Evidence {
    /// When it came.
    pub moment: Moment,
    /// Its content type, as spelled.
    pub content_type: Bytes,
    /// The report.
    pub body: Pieces,
}

/// An entry of the outbox: a document that is sent to a partner.
#[derive(Drop)]
pub struct OutEntry {
    /// Its number: 1 to 999,999,999,999.
    pub number: u64,
    /// The organization that sends it.
    pub organization: AsName,
    /// The partner that it is sent to.
    pub partner: AsName,
    /// Its identifier, `<out-N@domain>`.
    pub id: MessageId,
    /// Its bytes.
    pub content: Pieces,
    /// When it was submitted.
    pub moment: Moment,
    /// Whether a try of it has ever begun. From then on a receipt that is posted settles it.
    pub begun: bool,
    /// How often it was tried since it was last to be sent anew.
    pub tries: u64,
    /// Whether a try is open.
    pub attempt: Attempt,
    /// When the next try may begin, or what is waited for is overdue, in seconds since 1970; None where nothing is
    /// waited for. It may pass the last moment.
    pub due: Option<u64>,
    /// How it stands.
    pub detail: Detail,
    /// The receipt that settled it, if one has.
    pub evidence: Option<Evidence>,
}

/// Whether a receipt alone gives this detail.
pub fn is_by_receipt(detail: Detail) -> bool
    ensures { result ≡ is_by_receipt detail }
{
    matches!(
        detail,
        Detail::Processed
            | Detail::Warning
            | Detail::NoMic
            | Detail::UnknownMic
            | Detail::NotProcessed
            | Detail::ErrorModifier
            | Detail::MicDiffers
    )
}
