//! Numbers in decimal digits.

ghost use Rattle.std.specs.Prelude.{◌≡◌};
ghost use Rattle.std.specs.List.{list_all};
ghost use Rattle.std.specs.Char.{is_ascii_digit};
ghost use Rattle.as2_names.specs.Numbers.{is_number, decimal_value};

fn all_digits(text: &[u8]) -> bool
    ensures { result ≡ list_all is_ascii_digit text.now }
{
    text.iter().all(|byte| byte.is_ascii_digit())
}

/// Whether a text is one or more decimal digits.
pub fn is_number(text: &[u8]) -> bool
    ensures { result ≡ is_number text.now }
{
    !text.is_empty() && all_digits(text)
}

/// The value of a text of one or more decimal digits; none for another text, or where it has more than 64 bits.
pub fn decimal_value(text: &[u8]) -> Option<u64>
    ensures { result ≡ decimal_value text.now }
{
    if !is_number(text) {
        return None;
    }
    match str::from_utf8(text).unwrap().parse::<u64>() {
        Ok(value) => Some(value),
        Err(_) => None,
    }
}
