//! What holds across any number of restarts.
ghost use Rattle.std.specs.Prelude.{ℕ, List};
ghost use Rattle.as2_exchange.specs.Agreement.{Agreements};
ghost use Rattle.as2_exchange.specs.Invariants.{IsCounter};
ghost use Rattle.as2_exchange.specs.Run.{Trace, Run};
ghost use Rattle.as2_exchange.specs.State.{State, Version, empty};
ghost use Rattle.as2_station.specs.Theorem.{EndsByHistory, IsSuccessful};
ghost use Rattle.as2_restart.specs.Restarts.{ComesInTurn};

/// What is done over any number of stops is one run of the machine, in which what stands of each document is its history.
pub fn one_run()
    ensures run { (A : Agreements) (lists : List Trace) (events : Trace) (s t : State) → ComesInTurn A lists events s t
        → Run A s events t }
    ensures by_history { (A : Agreements) (lists : List Trace) (events : Trace) (s t : State)
        → ComesInTurn A lists events s t → EndsByHistory A s events t }
{}

/// A document that stood as successful stands so after any number of stops.
pub fn success_stays()
    ensures { (A : Agreements) (v : Version) (first : ℕ) (before : Trace) (lists : List Trace) (events : Trace)
        (s t : State) (k : ℕ) → IsCounter first → Run A (empty v first) before s
        → ComesInTurn A lists events s t → IsSuccessful s k → IsSuccessful t k }
{}
