//! What the bytes of a connection begin with.
use as2_messages::{Refused, Request};

/// What the bytes of a connection begin with.
#[derive(Drop)]
pub enum Beginning {
    /// A request.
    Request(Request),
    /// No request, however they go on: nothing more is read.
    NoRequest(Refused),
}
