//! The verdict of a receipt on the content that was sent.

ghost use Rattle.std.specs.Prelude.{◌≡◌};
ghost use Rattle.as2_mic.specs.Algs.{AllDigests};
ghost use Rattle.as2_mdn.specs.Verdicts.{verdict_on, verdict_of};

use crate::{Detail, Disposition, MicPart, Receipt};
use as2_mic::{Compared, Pieces};

/// The verdict on a disposition and on what came of comparing the content with the MIC, where one is given. What stands
/// first counts: no success is told of a content that differs, whatever else the receipt says.
fn judged(disposition: &Disposition<'_>, found: Option<Compared>) -> Detail
    ensures { result ≡ verdict_on disposition.now found }
{
    if !disposition.is_processed() {
        return Detail::NotProcessed;
    }
    if disposition.has_error() {
        return Detail::ErrorModifier;
    }
    match found {
        Some(Compared::Differs) => Detail::MicDiffers,
        _ if disposition.has_modifier() => Detail::Warning,
        None => Detail::NoMic,
        Some(Compared::UnknownAlg) => Detail::UnknownMic,
        Some(Compared::Same) => Detail::Processed,
    }
}

/// What a receipt says of the document with that content: one of the details `NotProcessed`, `ErrorModifier`,
/// `MicDiffers`, `Warning`, `NoMic`, `UnknownMic` and `Processed`, the first that fits (RFC 8098, section 3.2.6;
/// RFC 4130, section 7.5).
pub fn verdict(receipt: &Receipt<'_>, content: &[u8]) -> Detail
    ensures { result ≡ verdict_of AllDigests receipt.now content.now }
{
    let found = match &receipt.mic {
        MicPart::Missing => None,
        MicPart::Unreadable => Some(Compared::UnknownAlg),
        MicPart::Given(field) => Some(field.compare(content)),
    };
    judged(&receipt.disposition, found)
}

/// The same verdict on a content in pieces.
pub fn verdict_pieces(receipt: &Receipt<'_>, content: &Pieces) -> Detail
    ensures { result ≡ verdict_of AllDigests receipt.now content.now }
{
    let found = match &receipt.mic {
        MicPart::Missing => None,
        MicPart::Unreadable => Some(Compared::UnknownAlg),
        MicPart::Given(field) => Some(field.compare_pieces(content)),
    };
    judged(&receipt.disposition, found)
}
