//! The first number of a store.
ghost use Rattle.std.specs.Prelude.{◌≡◌, ◌<◌, ◌≤◌, ℕ};
ghost use Rattle.as2_exchange.specs.State.{end_of_numbers};
ghost use Rattle.as2_commands.specs.Options.{first_number};

use as2_exchange::END_OF_NUMBERS;
use std::marker::Model;

/// The first number of a store that is made: 1 to 999,999,999,999.
#[derive(Clone, Copy)]
pub struct FirstNumber {
    number: u64,
}

impl Model for FirstNumber {
    ghost use Rattle.std.specs.Prelude.{◌<◌, ◌≤◌, ℕ};
    ghost use Rattle.as2_exchange.specs.State.{end_of_numbers};

    ghost Value = { ℕ };

    ghost view = { λ f. f.number };

    ghost inverse = { λ n. record { number = n } };

    ghost invariant = { λ f. (1 ≤ f.number) × (f.number < end_of_numbers) };
}

impl FirstNumber {
    /// None for a number that no entry has.
    pub fn new(number: u64) -> Option<FirstNumber>
        ensures { result ≡ first_number number }
    {
        if 1 <= number && number < END_OF_NUMBERS {
            Some(FirstNumber { number })
        } else {
            None
        }
    }

    /// The number.
    pub fn get(self) -> u64
        ensures value { result ≡ self }
        ensures least { 1 ≤ result }
        ensures most { result < end_of_numbers }
    {
        self.number
    }
}
