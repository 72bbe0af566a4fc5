//! What became of a posted document, as its receipt says it (RFC 4130, section 7.5).

ghost use Rattle.std.specs.Prelude.{◌≡◌};
ghost use Rattle.as2_mic.specs.Algs.{AllDigests};
ghost use Rattle.as2_text.specs.ReceiptRequests.{request_of};
ghost use Rattle.as2_mdn.specs.Outcomes.{outcome_of_kind, outcome_of_plain, outcome_text, requires_unknown_digest};

use as2_mic::Alg;
use as2_text::{Kind, ReceiptAsk};

/// What became of a received document, as its receipt tells it (RFC 4130, section 7.5).
#[derive(Clone, Copy, Debug, PartialEq, Eq)]
pub enum Outcome {
    /// The content is encrypted, and nothing here decrypts.
    DecryptionFailed,
    /// The content is compressed, and nothing here decompresses.
    DecompressionFailed,
    /// The content is signed, and nothing here verifies a signature.
    AuthenticationFailed,
    /// The encoding of the content, or something that the receipt is required to have, isn't supported.
    UnsupportedFormat,
    /// None of the digests that the receipt is required to use is known.
    UnsupportedMicAlgorithms,
    /// The document was taken.
    Processed,
}

impl Outcome {
    /// The disposition type and its modifier, as the `Disposition` field spells them (RFC 8098, section 3.2.6).
    pub fn text(&self) -> &'static str
        ensures { result.now ≡ outcome_text self.now }
    {
        match self {
            Outcome::DecryptionFailed => "processed/error: decryption-failed",
            Outcome::DecompressionFailed => "processed/error: decompression-failed",
            Outcome::AuthenticationFailed => "processed/error: authentication-failed",
            Outcome::UnsupportedFormat => "failed/failure: unsupported format",
            Outcome::UnsupportedMicAlgorithms => "failed/failure: unsupported MIC-algorithms",
            Outcome::Processed => "processed",
        }
    }
}

/// Whether a digest is required, and none that is listed is known.
fn requires_unknown_digest(ask: &ReceiptAsk<'_>) -> bool
    ensures { result ≡ requires_unknown_digest AllDigests (request_of ask.now) }
{
    ask.digests_required && Alg::first_of(ask.digests).is_none()
}

/// The outcome of a content that is neither enveloped nor compressed nor signed.
fn outcome_of_plain(encoding_refused: bool, ask: &ReceiptAsk<'_>) -> Outcome
    ensures { result ≡ outcome_of_plain AllDigests encoding_refused (request_of ask.now) }
{
    if encoding_refused || ask.other_required {
        Outcome::UnsupportedFormat
    } else if requires_unknown_digest(ask) {
        Outcome::UnsupportedMicAlgorithms
    } else {
        Outcome::Processed
    }
}

/// The outcome of a document of that kind (RFC 4130, section 7.5): the first that fits in the order of the variants.
/// Its encoding is refused where the content isn't given as it is.
pub fn outcome_of(kind: Kind, encoding_refused: bool, ask: &ReceiptAsk<'_>) -> Outcome
    ensures { result ≡ outcome_of_kind AllDigests kind encoding_refused (request_of ask.now) }
{
    match kind {
        Kind::Enveloped => Outcome::DecryptionFailed,
        Kind::Compressed => Outcome::DecompressionFailed,
        Kind::Signed => Outcome::AuthenticationFailed,
        Kind::Document | Kind::Report => outcome_of_plain(encoding_refused, ask),
    }
}
