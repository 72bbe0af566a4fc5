//! The parameters of a media type, of which there are eight at most.

// The parameters of a media type.
ghost use Rattle.std.specs.Prelude.{◌≡◌, option_map};
ghost use Rattle.as2_media.specs.Cuts.{segments_of};
ghost use Rattle.as2_media.specs.Parameters.{parameters, first_value};

use crate::cuts::cut_segment;
use crate::fault::TypeFault;
use crate::parameter::Parameter;
use arrayvec::ArrayVec;
use as2_names::without_blanks_and_line_ends;
use std::marker::Model;

/// The most parameters that a media type has.
const MOST: usize = 8;

/// At most eight parameters in order.
#[derive(Drop)]
pub(crate) struct Parameters<'a> {
    held: ArrayVec<Parameter<'a>, MOST>,
}

impl<'a> Model for Parameters<'a> {
    ghost use Rattle.std.specs.Prelude.{ℕ, List};

    ghost Value = { List (List ℕ × List ℕ) };

    ghost view = { λ p. p.held.items };
}

impl<'a> Parameters<'a> {
    /// The parameters that stand behind a media type's first `;`, if it has one.
    pub(crate) fn parse(text: Option<&'a [u8]>) -> Result<Parameters<'a>, TypeFault>
        ensures { result ≡ parameters 8 (segments_of (option_map (λ t. t.now) text.entry)) }
    {
        let mut held = ArrayVec::new();
        let mut rest = text;
        while let Some(text) = rest {
            let (segment, behind) = cut_segment(text);
            if !without_blanks_and_line_ends(segment).is_empty() {
                if held.is_full() {
                    return Err(TypeFault::TooMany);
                }
                match Parameter::parse(segment) {
                    Some(parameter) => held.push(parameter),
                    None => return Err(TypeFault::BadParameter),
                }
            }
            rest = behind;
        }
        Ok(Parameters { held })
    }

    /// The value of the first parameter of that name, whatever the case of its letters.
    pub(crate) fn first_value(&self, name: &[u8]) -> Option<&'a [u8]>
        ensures { option_map (λ v. v.now) result ≡ first_value name.now self.now }
    {
        for parameter in self.held.as_slice() {
            if parameter.is_named(name) {
                return Some(parameter.value());
            }
        }
        None
    }
}
