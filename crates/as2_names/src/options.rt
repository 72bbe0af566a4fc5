//! Options among the members of a value (RFC 9110, section 5.6.1).

ghost use Rattle.std.specs.Prelude.{◌≡◌};
ghost use Rattle.as2_names.specs.Options.{is_option, lists};

use crate::blanks::without_blanks;

fn is_option(member: &[u8], option: &[u8]) -> bool
    ensures { result ≡ is_option option.now member.now }
{
    without_blanks(member).eq_ignore_ascii_case(option)
}

/// Whether a value has the option among the members that commas part (RFC 9110, section 5.6.1): without the blanks
/// around a member, and whatever the case of its letters.
pub fn lists(value: &[u8], option: &[u8]) -> bool
    ensures { result ≡ lists option.now value.now }
{
    value
        .split(|byte| *byte == b',')
        .any(|member| is_option(member, option))
}
