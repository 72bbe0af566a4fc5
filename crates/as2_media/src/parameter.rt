//! A parameter of a media type (RFC 2045, section 5.1).

// One parameter of a media type.
ghost use Rattle.std.specs.Prelude.{◌≡◌};
ghost use Rattle.std.specs.Str.{str_eq_ignore_ascii_case};
ghost use Rattle.as2_media.specs.Parameters.{parameter};

use crate::token::is_token;
use crate::value::value_of;
use as2_names::{cut_at, without_blanks_and_line_ends};
use std::marker::Model;

/// A parameter: its name, and its value as it stands between quotes where it has them.
#[derive(Default, Drop)]
pub(crate) struct Parameter<'a> {
    name: &'a [u8],
    value: &'a [u8],
}

impl<'a> Model for Parameter<'a> {
    ghost use Rattle.std.specs.Prelude.{ℕ, List};

    ghost Value = { List ℕ × List ℕ };

    ghost view = { λ p. (p.name.now, p.value.now) };
}

impl<'a> Parameter<'a> {
    /// The parameter that a segment holds: a token, `=` and a value, with blanks around them.
    pub(crate) fn parse(segment: &'a [u8]) -> Option<Parameter<'a>>
        ensures { result ≡ parameter segment.now }
    {
        let (before, behind) = cut_at(segment, b'=')?;
        let name = without_blanks_and_line_ends(before);
        if !is_token(name) {
            return None;
        }
        let value = value_of(without_blanks_and_line_ends(behind))?;
        Some(Parameter { name, value })
    }

    /// Whether it has that name, without regard to case.
    pub(crate) fn is_named(&self, name: &[u8]) -> bool
        ensures { result ≡ str_eq_ignore_ascii_case self.now.0 name.now }
    {
        self.name.eq_ignore_ascii_case(name)
    }

    pub(crate) fn value(&self) -> &'a [u8]
        ensures { result.now ≡ self.now.1 }
    {
        self.value
    }
}
