//! Dispositions (RFC 8098, section 3.2.6).

ghost use Rattle.std.specs.Prelude.{◌≡◌, ℕ, List, Ok, IfOk, option_map};
ghost use Rattle.std.specs.Str.{str_eq_ignore_ascii_case};
ghost use Rattle.as2_names.specs.Ascii.{slash};
ghost use Rattle.as2_names.specs.Cuts.{cut_at};
ghost use Rattle.as2_mdn.specs.Dispositions.{IsDisposition, disposition_reading, type_and_modifier, given_modifier, has_modifier, has_error, begins_with, says_processed, is_action_mode, is_sending_mode};

use as2_text::{cut_at, without_blanks_and_line_ends};
use std::marker::Model;

/// Why a value has no disposition: the first fault in this order.
#[derive(Clone, Copy, Debug, PartialEq, Eq)]
pub enum DispositionFault {
    /// There is no `;`, or no `/` before it.
    NoMode,
    /// The words before the `;` are no action mode and sending mode.
    BadMode,
    /// The disposition type is empty.
    NoType,
}

/// The value of a `Disposition` field (RFC 8098, section 3.2.6; RFC 4130, section 7.4.3).
#[derive(Drop)]
pub struct Disposition<'a> {
    disposition_type: &'a [u8],
    // empty where there is none
    modifier: &'a [u8],
}

impl<'a> Model for Disposition<'a> {
    ghost use Rattle.std.specs.Prelude.{ℕ, List};

    ghost Value = { List ℕ × List ℕ };

    ghost view = { λ d. (d.disposition_type.now, d.modifier.now) };
}

/// Whether the text begins with the word, without regard to case.
fn begins_with(text: &[u8], word: &[u8]) -> bool
    ensures { result ≡ begins_with text.now word.now }
{
    word.len() <= text.len() && text[..word.len()].eq_ignore_ascii_case(word)
}

/// Whether the text is an action mode.
fn is_action_mode(text: &[u8]) -> bool
    ensures { result ≡ is_action_mode text.now }
{
    let mode = without_blanks_and_line_ends(text);
    mode.eq_ignore_ascii_case(b"manual-action") || mode.eq_ignore_ascii_case(b"automatic-action")
}

/// Whether the text is a sending mode.
fn is_sending_mode(text: &[u8]) -> bool
    ensures { result ≡ is_sending_mode text.now }
{
    let mode = without_blanks_and_line_ends(text);
    mode.eq_ignore_ascii_case(b"MDN-sent-manually")
        || mode.eq_ignore_ascii_case(b"MDN-sent-automatically")
}

/// The type and the modifier of the text behind the `;`.
fn type_and_modifier(text: &[u8]) -> Disposition<'_>
    ensures { result ≡ type_and_modifier text.now (cut_at slash text.now) }
{
    match cut_at(text, b'/') {
        Some((before, behind)) => Disposition {
            disposition_type: without_blanks_and_line_ends(before),
            modifier: without_blanks_and_line_ends(behind),
        },
        None => Disposition {
            disposition_type: without_blanks_and_line_ends(text),
            modifier: &[],
        },
    }
}

/// The disposition that a value has, or its first fault.
fn read(value: &[u8]) -> Result<Disposition<'_>, DispositionFault>
    ensures { result ≡ disposition_reading value.now }
{
    let Some((mode, rest)) = cut_at(value, b';') else {
        return Err(DispositionFault::NoMode);
    };
    let Some((action, sending)) = cut_at(mode, b'/') else {
        return Err(DispositionFault::NoMode);
    };
    if !is_action_mode(action) || !is_sending_mode(sending) {
        return Err(DispositionFault::BadMode);
    }
    let disposition = type_and_modifier(rest);
    if disposition.disposition_type.is_empty() {
        return Err(DispositionFault::NoType);
    }
    Ok(disposition)
}

impl<'a> Disposition<'a> {
    /// Reads a field's value: `action-mode/sending-mode; type` or `action-mode/sending-mode; type/modifier`, whatever
    /// the case of the modes. Blanks and line ends may stand at the ends and around the first `/`, the first `;` and the
    /// type's `/`. A type may have any bytes but `/`.
    pub fn parse(value: &'a [u8]) -> Result<Disposition<'a>, DispositionFault>
        // What is read stands in the value.
        ensures found { IfOk result (IsDisposition value.now) }
        // What stands in the value is read.
        ensures only { (disposition : List ℕ × List ℕ) → IsDisposition value.now disposition → result ≡ Ok disposition }
        // Which fault it is.
        ensures exact { result ≡ disposition_reading value.now }
    {
        read(value)
    }

    /// The type, as it is spelled, without the blanks and line ends at its ends.
    pub fn disposition_type(&self) -> &'a [u8]
        ensures { result.now ≡ self.now.0 }
    {
        self.disposition_type
    }

    /// Whether the type is `processed`, whatever its case.
    pub fn is_processed(&self) -> bool
        ensures { result ≡ says_processed self.now }
    {
        let spelled = self.disposition_type;
        spelled.eq_ignore_ascii_case(b"processed")
    }

    /// The modifier: all that stands behind the type's `/`, without the blanks and line ends at its ends; none where
    /// that is empty.
    pub fn modifier(&self) -> Option<&'a [u8]>
        ensures { option_map (λ m. m.now) result ≡ given_modifier self.now }
    {
        if self.modifier.is_empty() {
            None
        } else {
            Some(self.modifier)
        }
    }

    /// Whether there is a modifier.
    pub(crate) fn has_modifier(&self) -> bool
        ensures { result ≡ has_modifier self.now }
    {
        !self.modifier.is_empty()
    }

    /// Whether the modifier is an error or a failure, be it only by its first letters.
    pub(crate) fn has_error(&self) -> bool
        ensures { result ≡ has_error self.now }
    {
        begins_with(self.modifier, b"error") || begins_with(self.modifier, b"failure")
    }
}
