//! What happens at the connections.

/// What happens at the connections.
#[derive(Drop)]
pub enum Input {
    /// A connection is opened at this place.
    Opens(usize),
    /// These bytes come from it.
    Comes(usize, Vec<u8>),
    /// A round, over the connections at these places.
    Turns(Vec<usize>),
    /// As many bytes as this at most went to it.
    Goes(usize, usize),
    /// It is closed.
    Closes(usize),
}
