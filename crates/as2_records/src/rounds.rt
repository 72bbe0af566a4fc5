//! Rounds: what is written in one is committed with it, all at once.
ghost use Rattle.std.specs.Prelude.{◌≡◌, true, IfErr, IfOk};
ghost use Rattle.as2_records.specs.Rounds.{IsLost, PassesOn, StaysOpen};
ghost use Rattle.as2_records.specs.Standing.{may_come};

use crate::records::Records;
use as2_exchange::StoreFault;

/// Records that can hold back what is written, to commit all of it at once.
pub trait Rounds: Records {
    /// The records within a round. They stand for what was written as if it were committed. Before `commit` a stop of the computer may
    /// leave none of it.
    type Round: Records + Drop;

    /// Begins a round. Where that fails the records are given back.
    fn hold(self) -> Result<Self::Round, (Self, StoreFault)>
        ensures begun { IfOk result (λ round. PassesOn (Self.shows self) (Self.Round.shows round)) }
        ensures open { IfOk result (λ round. StaysOpen (Self.shows self) (Self.Round.shows round)) }
        ensures back { IfErr result (λ e. PassesOn (Self.shows self) (Self.shows e.0)) }
        ensures fault { IfErr result (λ e. may_come e.1 ≡ true) };

    /// Commits what was written in a round, and ends it. Where that fails the round is lost, and its records are shut.
    fn commit(round: Self::Round) -> Result<Self, Self::Round>
        ensures committed { IfOk result (λ records. PassesOn (Self.Round.shows round) (Self.shows records)) }
        ensures still_open { IfOk result (λ records. StaysOpen (Self.Round.shows round) (Self.shows records)) }
        ensures lost { IfErr result (λ left. IsLost (Self.Round.shows round) (Self.Round.shows left)) };
}
