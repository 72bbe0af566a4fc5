//! The options of a request for a receipt (RFC 8098, section 2.2; RFC 4130, section 7.3).

// The options of a receipt request, parameters that semicolons part (RFC 8098, section 2.2).
ghost use Rattle.std.specs.Prelude.{◌≡◌};
ghost use Rattle.std.specs.List.{list_all, list_any, slice_split};
ghost use Rattle.as2_text.specs.ReceiptOptions.{are_distinct, are_options, first_named, has_name, is_other_required, is_readable, is_required_other, is_semicolon, named_again, option_of, options_in, where_named};

use crate::receipt_option::{ReceiptOption, is_empty};
use as2_names::cut_at;

/// An empty parameter, or one that is an option.
fn is_readable(parameter: &[u8]) -> bool
    ensures { result ≡ is_readable parameter.now }
{
    is_empty(parameter) || ReceiptOption::of(parameter).is_some()
}

fn all_readable(value: &[u8]) -> bool
    ensures { result ≡ list_all is_readable (slice_split is_semicolon value.now) }
{
    value
        .split(|b| *b == b';')
        .all(|parameter| is_readable(parameter))
}

/// The option that a parameter is, where it has that name.
fn named<'a>(parameter: &'a [u8], name: &[u8]) -> Option<ReceiptOption<'a>>
    ensures { result ≡ where_named name.now (option_of parameter.now) }
{
    match ReceiptOption::of(parameter) {
        Some(option) if option.has_name(name) => Some(option),
        _ => None,
    }
}

/// The first option of that name.
pub fn first_named<'a>(value: &'a [u8], name: &[u8]) -> Option<ReceiptOption<'a>>
    ensures { result ≡ first_named name.now (options_in value.now) }
{
    let mut rest = value;
    while let Some((parameter, behind)) = cut_at(rest, b';') {
        if let Some(option) = named(parameter, name) {
            return Some(option);
        }
        rest = behind;
    }
    named(rest, name)
}

/// An option of that name stands in the value.
fn any_named(value: &[u8], name: &[u8]) -> bool
    ensures { result ≡ list_any (has_name name.now) (options_in value.now) }
{
    first_named(value, name).is_some()
}

/// The name of the parameter's option stands in the value.
fn is_named_again(parameter: &[u8], value: &[u8]) -> bool
    ensures { result ≡ named_again (option_of parameter.now) (options_in value.now) }
{
    match ReceiptOption::of(parameter) {
        Some(option) => any_named(value, option.name()),
        None => false,
    }
}

/// No two options have one name.
fn are_distinct(value: &[u8]) -> bool
    ensures { result ≡ are_distinct (options_in value.now) }
{
    let mut rest = value;
    while let Some((parameter, behind)) = cut_at(rest, b';') {
        if is_named_again(parameter, behind) {
            return false;
        }
        rest = behind;
    }
    true
}

/// Whether the value says options.
pub fn are_options(value: &[u8]) -> bool
    ensures { result ≡ are_options value.now }
{
    all_readable(value) && are_distinct(value)
}

fn requires_other(parameter: &[u8]) -> bool
    ensures { result ≡ is_required_other (option_of parameter.now) }
{
    match ReceiptOption::of(parameter) {
        Some(option) => option.is_other_required(),
        None => false,
    }
}

/// Whether the value requires anything but digests.
pub fn other_required(value: &[u8]) -> bool
    ensures { result ≡ list_any is_other_required (options_in value.now) }
{
    value
        .split(|b| *b == b';')
        .any(|parameter| requires_other(parameter))
}
