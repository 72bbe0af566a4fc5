//! Moments, in seconds since 1970.

ghost use Rattle.std.specs.Prelude.{◌≡◌, ◌≤◌, ℕ};
ghost use Rattle.as2_names.specs.Moments.{last_moment, moment_of};

use std::marker::Model;

/// The last second of the year 9999, in seconds since 1970: the last that a date of HTTP can name (RFC 9110, section 5.6.7).
pub const LAST_MOMENT: u64 = 253_402_300_799;

/// A moment: a count of seconds since the start of 1970 (UTC), up to the end of the year 9999.
#[derive(Clone, Copy, Debug, PartialEq, Eq, PartialOrd, Ord)]
pub struct Moment {
    seconds: u64,
}

impl Model for Moment {
    ghost Value = { ℕ };

    ghost view = { λ m. m.seconds };

    ghost inverse = { λ n. record { seconds = n } };

    ghost invariant = { λ m. m.seconds ≤ last_moment };
}

impl Moment {
    /// The moment so many seconds after the start of 1970; None past `LAST_MOMENT`.
    pub fn new(seconds: u64) -> Option<Moment>
        ensures { result ≡ moment_of seconds }
    {
        if seconds <= LAST_MOMENT {
            Some(Moment { seconds })
        } else {
            None
        }
    }

    /// How many seconds after the start of 1970 it is.
    pub fn seconds(self) -> u64
        ensures seconds { result ≡ self }
        ensures bound { result ≤ last_moment }
    {
        self.seconds
    }
}
