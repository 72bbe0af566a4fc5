//! A media type's type and subtype (RFC 2045, section 5.1).

// The type and subtype of a media type.
ghost use Rattle.std.specs.Prelude.{◌≡◌};
ghost use Rattle.as2_media.specs.MediaTypes.{essence, is_type};

use crate::fault::TypeFault;
use crate::token::is_token;
use as2_names::{cut_at, without_blanks_and_line_ends};
use std::marker::Model;

/// A type and a subtype.
#[derive(Drop)]
pub(crate) struct Essence<'a> {
    type_name: &'a [u8],
    subtype: &'a [u8],
}

impl<'a> Model for Essence<'a> {
    ghost use Rattle.std.specs.Prelude.{ℕ, List};

    ghost Value = { List ℕ × List ℕ };

    ghost view = { λ e. (e.type_name.now, e.subtype.now) };
}

impl<'a> Essence<'a> {
    /// The type and subtype that the text before a media type's first `;` gives.
    pub(crate) fn parse(text: &'a [u8]) -> Result<Essence<'a>, TypeFault>
        ensures { result ≡ essence text.now }
    {
        match cut_at(without_blanks_and_line_ends(text), b'/') {
            None => Err(TypeFault::NoSlash),
            Some((type_name, subtype)) if is_token(type_name) && is_token(subtype) => {
                Ok(Essence { type_name, subtype })
            }
            Some(_) => Err(TypeFault::BadToken),
        }
    }

    /// Whether it is that type and subtype, without regard to case.
    pub(crate) fn is_type(&self, type_name: &[u8], subtype: &[u8]) -> bool
        ensures { result ≡ is_type type_name.now subtype.now self.now }
    {
        self.type_name.eq_ignore_ascii_case(type_name) && self.subtype.eq_ignore_ascii_case(subtype)
    }
}
