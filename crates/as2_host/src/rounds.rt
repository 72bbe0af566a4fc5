//! Stores whose records can be written in rounds.
ghost use Rattle.std.specs.Prelude.{◌≡◌, ℕ};
ghost use Rattle.as2_exchange.specs.State.{State};
ghost use Rattle.as2_records.specs.Rounds.{PassesOn};

use crate::stores::OpenStores;
use as2_records::Rounds;

/// Stores that are opened by a path, and whose records can be written in rounds.
pub trait OpenRounds: OpenStores {
    /// The records of a path, which have rounds.
    type Holding: Rounds + Drop;

    /// The records that were opened, as those.
    fn holding(records: Self::Opened) -> Self::Holding
        ensures { PassesOn (Self.Opened.shows records) (Self.Holding.shows result) };

    /// Closes records, which are kept under that path from then on.
    fn close_holding(&mut self, path: &str, records: Self::Holding)
        ensures clean { Self.is_clean self.new → (Self.Holding.shows records).IsClean }
        ensures kept { Self.is_clean self.new → (s : State) → (Self.Holding.shows records).Rests s → (number : ℕ)
            → Self.keeps self.new path.now number s }
        ensures counted { Self.opens self.new ≡ Self.opens self.old };

    /// Closes the records of a round that was lost. What is kept under that path then is what a stop of the computer leaves of them.
    fn let_go(&mut self, path: &str, round: <Self::Holding as Rounds>::Round)
        ensures clean { Self.is_clean self.new → (Self.Holding.Round.shows round).IsClean }
        ensures kept { Self.is_clean self.new → (s : State) → (Self.Holding.Round.shows round).Rests s → (number : ℕ)
            → Self.keeps self.new path.now number s }
        ensures counted { Self.opens self.new ≡ Self.opens self.old };
}
