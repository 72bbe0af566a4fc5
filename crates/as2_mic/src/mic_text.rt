//! The text of a MIC: base64 of the value of its digest.

ghost use Rattle.std.specs.Prelude.{◌≡◌, ◌<◌, ◌≤◌, length};
ghost use Rattle.as2_mic.specs.Mic.{IsMicText, mic_text, base64_text};

use base64::engine::general_purpose::STANDARD;
use std::marker::Model;

/// The most bytes that a MIC's text has: the base64 text of 32 bytes.
const MOST: usize = 44;

/// The text of a MIC: 1 to 44 bytes, kept in place.
#[derive(Clone, Copy)]
pub struct MicText {
    // zeros behind the text, so that equal texts are equal values
    bytes: [u8; MOST],
    len: usize,
}

impl Model for MicText {
    ghost use Rattle.std.specs.Prelude.{◌≡◌, ◌-◌, ◌<◌, ◌≤◌, ◌++◌, List, ℕ, length, take, replicate};
    ghost use Rattle.std.proofs.Common.{arith, length-take-le, sym};

    ghost Value = { List ℕ };

    ghost view = { λ t. take t.len t.bytes };

    ghost invariant = { λ t. (0 < t.len) × (t.len ≤ 44) × (length t.bytes ≡ 44) × (t.bytes ≡ take t.len t.bytes ++ replicate (44 - t.len) 0) };

    ghost inverse = { λ l. record { bytes = l ++ replicate (44 - length l) 0; len = length l } };

    ghost inverse_ok = { λ t h i. let same : length (take t.len t.bytes) ≡ t.len = length-take-le t.len t.bytes (omega (arith, h.1, h.2)) in
        let back : take t.len t.bytes ++ replicate (44 - length (take t.len t.bytes)) 0 ≡ t.bytes = rw same (sym h.3) in
        record { bytes = back i; len = same i } };
}

/// The base64 text, with padding, of a digest (RFC 4648, section 4).
pub fn spelled(digest: &[u8]) -> MicText
    requires some { 0 < length digest.now }
    requires short { length digest.now ≤ 32 }
    ensures { result ≡ base64_text digest.now }
{
    let mut bytes = [0u8; MOST];
    match STANDARD.encode_slice(digest, &mut bytes) {
        Ok(len) => MicText { bytes, len },
        Err(_) => unreachable!(),
    }
}

impl MicText {
    /// The text that the bytes are; none where they are not 1 to 44.
    pub fn of(bytes: &[u8]) -> Option<MicText>
        ensures { result ≡ mic_text bytes.now }
    {
        let len = bytes.len();
        if len == 0 || len > MOST {
            return None;
        }
        let mut kept = [0u8; MOST];
        kept[..len].copy_from_slice(bytes);
        Some(MicText { bytes: kept, len })
    }

    /// The bytes of the text.
    pub fn bytes(&self) -> &[u8]
        ensures bytes { result.now ≡ self.now }
        ensures text { IsMicText self.now }
    {
        &self.bytes[..self.len]
    }
}
