//! What holds of every text, whoever reads it.
ghost use Rattle.as2_messages.specs.Laws.{BeginsWithOne, RefusesInOneWay, NeverRefusesRequests, NeverOpensRequests, NeverOpensRefused, RepliesInOneWay};

/// A text begins with one request at most, and one thing follows it.
pub fn one_request()
    ensures { BeginsWithOne }
{}

/// A text is refused in one way at most.
pub fn one_refusal()
    ensures { RefusesInOneWay }
{}

/// Of these a text does one at most: it begins with a request, it is refused, or it is open.
pub fn one_beginning()
    ensures never_refused { NeverRefusesRequests }
    ensures never_open { NeverOpensRequests }
    ensures refused_for_good { NeverOpensRefused }
{}

/// An answer has one reply at a moment.
pub fn one_reply_text()
    ensures { RepliesInOneWay }
{}
