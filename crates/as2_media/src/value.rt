//! Values of parameters: tokens, and texts in quotes (RFC 2045, section 5.1).

// The spelling of a parameter's value.
ghost use Rattle.std.specs.Prelude.{◌≡◌, false, option_map};
ghost use Rattle.as2_media.specs.Values.{is_quoted_text, between_quotes, spelled_value};

use crate::token::{all_bare_bytes, is_line_byte};

/// Each byte stands as it may between quotes: a quote behind a backslash only, a backslash before another byte.
fn is_quoted_text(text: &[u8]) -> bool
    ensures { result ≡ is_quoted_text false text.now }
{
    let mut escaped = false;
    for b in text {
        if is_line_byte(*b) || (!escaped && *b == b'"') {
            return false;
        }
        escaped = !escaped && *b == b'\\';
    }
    !escaped
}

/// What stands between the quotes that a text begins and ends with.
#[tactic(auto, unfolding(crate::specs::Values::between_quotes))]
fn between_quotes(text: &[u8]) -> Option<&[u8]>
    ensures { option_map (λ v. v.now) result ≡ between_quotes text.now }
{
    match text {
        [b'"', value @ .., b'"'] => Some(value),
        _ => None,
    }
}

/// The value that a text without blanks at its ends spells: what stands between its quotes, or the text itself where it
/// has none.
pub(crate) fn value_of(spelled: &[u8]) -> Option<&[u8]>
    ensures { option_map (λ v. v.now) result ≡ spelled_value spelled.now }
{
    match between_quotes(spelled) {
        Some(value) => {
            if is_quoted_text(value) {
                Some(value)
            } else {
                None
            }
        }
        None => {
            if !spelled.is_empty() && all_bare_bytes(spelled) {
                Some(spelled)
            } else {
                None
            }
        }
    }
}
