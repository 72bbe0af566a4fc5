//! A receipt as it was read (RFC 8098).

ghost use Rattle.std.specs.Prelude.{◌≡◌, ◌↔◌, IsTrue};
ghost use Rattle.as2_names.specs.Identifiers.{without_brackets};

use crate::Disposition;
use as2_mic::MicField;
use as2_text::without_brackets;
use std::marker::Model;

/// What a receipt gives as the MIC of the document (RFC 4130, section 7.4.3).
#[derive(Drop)]
pub enum MicPart<'a> {
    /// No MIC.
    Missing,
    /// A field that can't be read, or more than one.
    Unreadable,
    /// A MIC and the name of its digest.
    Given(MicField<'a>),
}

/// What is read of a receipt (RFC 8098, section 3.2).
#[derive(Drop)]
pub struct Receipt<'a> {
    /// The identifier of the document that the receipt is of, as it was received.
    pub original_id: &'a [u8],
    /// What became of the document.
    pub disposition: Disposition<'a>,
    /// The MIC of the document.
    pub mic: MicPart<'a>,
}

impl<'a> Model for Receipt<'a> {
    ghost use Rattle.as2_mdn.specs.Receipts.{ReceiptRead, mic_of};

    ghost Value = { ReceiptRead };

    ghost view = { λ r. record { original_id = r.original_id.now; disposition = r.disposition; mic = mic_of r.mic } };
}

impl<'a> Receipt<'a> {
    /// Whether the receipt is of the document whose identifier has that value: the identifiers are compared without the
    /// angle brackets around them (RFC 4130, section 5.3.3).
    pub fn names(&self, id_value: &str) -> bool
        ensures { IsTrue result ↔ (without_brackets self.now.original_id ≡ id_value.now) }
    {
        without_brackets(self.original_id) == id_value.as_bytes()
    }
}
