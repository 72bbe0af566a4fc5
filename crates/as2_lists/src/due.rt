//! What is due, in lists.

ghost use Rattle.std.specs.Prelude.{◌≡◌};
ghost use Rattle.as2_exchange.specs.Tries.{is_due};
ghost use Rattle.as2_records.specs.Due.{is_behind};

use as2_text::Moment;

/// Whether what is waited for has come by this moment.
pub fn is_due(moment: Moment, due: Option<u64>) -> bool
    ensures { result ≡ is_due moment due }
{
    match due {
        Some(due) => due <= moment.seconds(),
        None => false,
    }
}

/// Whether a number is behind that one, where one is given.
pub fn is_behind(behind: Option<u64>, number: u64) -> bool
    ensures { result ≡ is_behind behind number }
{
    match behind {
        Some(last) => last < number,
        None => true,
    }
}
