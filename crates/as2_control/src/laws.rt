//! What a frame says, whoever reads it.
ghost use Rattle.std.specs.Prelude.{◌≡◌, ℕ, List};
ghost use Rattle.as2_control.specs.Demands.{DemandValue, IsDemandFrame};
ghost use Rattle.as2_control.specs.Outcomes.{IsOutcomeFrame, OutcomeValue};

/// A frame is that of one demand or of one outcome, and of none besides: so what is read of a frame that was written is
/// what it was written from.
pub fn one_message_a_frame()
    ensures demand { (frame : List ℕ) (a b : DemandValue) → IsDemandFrame frame a → IsDemandFrame frame b → a ≡ b }
    ensures outcome { (frame : List ℕ) (a b : OutcomeValue) → IsOutcomeFrame frame a → IsOutcomeFrame frame b → a ≡ b }
    ensures apart { (frame : List ℕ) (a : DemandValue) (b : OutcomeValue) → IsDemandFrame frame a
        → ¬ IsOutcomeFrame frame b }
{}
