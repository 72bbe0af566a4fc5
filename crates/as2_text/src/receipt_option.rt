//! An option of a request for a receipt (RFC 8098, section 2.2).

// One parameter of a receipt request's options (RFC 8098, section 2.2).
ghost use Rattle.std.specs.Prelude.{◌≡◌, Some};
ghost use Rattle.as2_names.specs.Ascii.{comma};
ghost use Rattle.as2_names.specs.Cuts.{cut_at};
ghost use Rattle.as2_text.specs.ReceiptOptions.{are_values, has_name, importance_of, is_empty, is_other_required, is_required, micalg, option_behind, option_of, option_with};

use as2_media::is_token;
use as2_names::{cut_at, without_blanks};
use std::marker::Model;

/// The name of the option that lists digests (RFC 4130, section 7.3).
pub const MICALG: &[u8] = b"signed-receipt-micalg";

/// Whether who can't do as an option says may go on.
#[derive(Clone, Copy, Debug, PartialEq, Eq)]
pub enum Importance {
    /// It must be refused.
    Required,
    /// It may be left aside.
    Optional,
}

impl Importance {
    pub fn is_required(self) -> bool
        ensures { result ≡ is_required self }
    {
        self == Importance::Required
    }
}

/// An option: its name, its importance, and its values as one text.
#[derive(Drop)]
pub struct ReceiptOption<'a> {
    name: &'a [u8],
    importance: Importance,
    values: &'a [u8],
}

impl<'a> Model for ReceiptOption<'a> {
    ghost use Rattle.as2_text.specs.ReceiptOptions as options;

    ghost Value = { options.ReceiptOption };

    ghost view = { λ o. record { name = o.name.now; importance = o.importance; values = o.values.now } };
}

/// Nothing but blanks.
pub fn is_empty(text: &[u8]) -> bool
    ensures { result ≡ is_empty text.now }
{
    without_blanks(text).is_empty()
}

/// The importance that a word says.
fn importance_of(word: &[u8]) -> Option<Importance>
    ensures { result ≡ importance_of word.now }
{
    if word.eq_ignore_ascii_case(b"required") {
        Some(Importance::Required)
    } else if word.eq_ignore_ascii_case(b"optional") {
        Some(Importance::Optional)
    } else {
        None
    }
}

/// No value between the commas is empty.
fn are_values(text: &[u8]) -> bool
    ensures { result ≡ are_values text.now }
{
    text.split(|b| *b == b',').all(|value| !is_empty(value))
}

impl<'a> ReceiptOption<'a> {
    fn with(name: &'a [u8], importance: Importance, values: &'a [u8]) -> Option<ReceiptOption<'a>>
        ensures { result ≡ option_with name.now (Some importance) values.now }
    {
        if !is_token(name) || !are_values(values) {
            return None;
        }
        Some(ReceiptOption {
            name,
            importance,
            values: without_blanks(values),
        })
    }

    /// The option of that name, and what stands behind its `=`.
    fn behind(name: &'a [u8], text: &'a [u8]) -> Option<ReceiptOption<'a>>
        ensures { result ≡ option_behind name.now (cut_at comma text.now) }
    {
        let Some((word, values)) = cut_at(text, b',') else {
            return None;
        };
        match importance_of(without_blanks(word)) {
            Some(importance) => ReceiptOption::with(name, importance, values),
            None => None,
        }
    }

    /// The option that a parameter is.
    pub fn of(parameter: &'a [u8]) -> Option<ReceiptOption<'a>>
        ensures { result ≡ option_of parameter.now }
    {
        if is_empty(parameter) {
            return None;
        }
        match cut_at(parameter, b'=') {
            Some((name, text)) => ReceiptOption::behind(without_blanks(name), text),
            None => None,
        }
    }

    /// Whether it has that name, whatever the case of its letters.
    pub fn has_name(&self, name: &[u8]) -> bool
        ensures { result ≡ has_name name.now self.now }
    {
        self.name.eq_ignore_ascii_case(name)
    }

    /// Whether it is an option other than the one that lists digests, and required.
    pub fn is_other_required(&self) -> bool
        ensures { result ≡ is_other_required self.now }
    {
        self.importance.is_required() && !self.has_name(MICALG)
    }

    pub fn name(&self) -> &'a [u8]
        ensures { result.now ≡ self.now.name }
    {
        self.name
    }

    pub fn importance(&self) -> Importance
        ensures { result ≡ self.now.importance }
    {
        self.importance
    }

    pub fn values(&self) -> &'a [u8]
        ensures { result.now ≡ self.now.values }
    {
        self.values
    }
}
