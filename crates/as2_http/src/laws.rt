//! What holds of every stream, whoever serves it.
ghost use Rattle.as2_http.specs.StreamLaws.{ServesInOneWay};

/// In one state an input is served in one way, where no read, write or memory failed, and the store neither. The same
/// requests get the same, their replies and the end are the same, and so is what is left.
pub fn one_stream()
    ensures { ServesInOneWay }
{}
