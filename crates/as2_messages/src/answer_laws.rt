//! What holds of every answer, whoever reads it.
ghost use Rattle.as2_messages.specs.AnswerLaws.{HoldsOneAnswer, NeverAnswers, NeverOpensAnswers, NeverOpensNone};

/// An input holds one answer at most, and none where it begins with none. It is open, so that more of it is awaited, in neither case.
pub fn one_answer()
    ensures one { HoldsOneAnswer }
    ensures none { NeverAnswers }
    ensures whole { NeverOpensAnswers }
    ensures never_open { NeverOpensNone }
{}
