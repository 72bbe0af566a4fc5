//! The field of a receipt that has its MIC (RFC 4130, section 7.4.3).

ghost use Rattle.std.specs.Prelude.{◌≡◌, ℕ, List, Some, IfSome, IfNone};
ghost use Rattle.as2_mic.specs.Algs.{AllDigests};
ghost use Rattle.as2_mic.specs.Field.{IsMicField, comparison, compared_to};

use crate::{Alg, MicText, Pieces, mic_of, mic_of_pieces};
use as2_names::{cut_at, without_blanks_and_line_ends};
use std::marker::Model;

/// What comes of comparing a content with the MIC that a field gives.
#[derive(Clone, Copy, Debug, PartialEq, Eq)]
pub enum Compared {
    /// The field names no digest that is known.
    UnknownAlg,
    /// The field gives the MIC of the content, byte for byte.
    Same,
    /// The field gives another text.
    Differs,
}

/// The value of a `Received-content-MIC` field (RFC 4130, section 7.4.3).
#[derive(Drop)]
pub struct MicField<'a> {
    mic: &'a [u8],
    digest: &'a [u8],
}

impl<'a> Model for MicField<'a> {
    ghost use Rattle.std.specs.Prelude.{ℕ, List};

    ghost Value = { List ℕ × List ℕ };

    ghost view = { λ f. (f.mic.now, f.digest.now) };
}

/// What a text is to the MIC that it should be.
fn compared_to(text: &[u8], mic: &MicText) -> Compared
    ensures { result ≡ compared_to text.now mic.now }
{
    if text == mic.bytes() {
        Compared::Same
    } else {
        Compared::Differs
    }
}

impl<'a> MicField<'a> {
    /// The text of the MIC, as it is spelled.
    pub fn mic(&self) -> &'a [u8]
        ensures { result.now ≡ self.now.0 }
    {
        self.mic
    }

    /// The name of the digest, as it is spelled.
    pub fn digest(&self) -> &'a [u8]
        ensures { result.now ≡ self.now.1 }
    {
        self.digest
    }

    /// Reads a field's value: the text before the first comma and the text behind it, without the
    /// blanks and line ends at their ends, and neither empty.
    pub fn parse(value: &'a [u8]) -> Option<MicField<'a>>
        // What is read stands in the value.
        ensures found { IfSome result (IsMicField value.now) }
        // What stands in the value is read.
        ensures only { (field : List ℕ × List ℕ) → IsMicField value.now field → result ≡ Some field }
        // Where nothing is read, nothing stands there.
        ensures none { IfNone result ((field : List ℕ × List ℕ) → ¬ IsMicField value.now field) }
    {
        let Some((before, behind)) = cut_at(value, b',') else {
            return None;
        };
        let mic = without_blanks_and_line_ends(before);
        let digest = without_blanks_and_line_ends(behind);
        if mic.is_empty() || digest.is_empty() {
            return None;
        }
        Some(MicField { mic, digest })
    }

    /// Compares the MIC that the field gives with the one of the content.
    pub fn compare(&self, content: &[u8]) -> Compared
        ensures { result ≡ comparison AllDigests self.now content.now }
    {
        match Alg::named(self.digest) {
            Some(alg) => compared_to(self.mic, &mic_of(alg, content)),
            None => Compared::UnknownAlg,
        }
    }

    /// Compares the MIC that the field gives with the one of a content in pieces.
    pub fn compare_pieces(&self, content: &Pieces) -> Compared
        ensures { result ≡ comparison AllDigests self.now content.now }
    {
        match Alg::named(self.digest) {
            Some(alg) => compared_to(self.mic, &mic_of_pieces(alg, content)),
            None => Compared::UnknownAlg,
        }
    }
}
