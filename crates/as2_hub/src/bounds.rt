//! How much is read.

/// How much is read. What is past it isn't.
#[derive(Clone, Copy, Debug, PartialEq, Eq)]
pub struct Bounds {
    /// Connections, each at a place of its own.
    pub connections: usize,
    /// Bytes of one connection that came and aren't answered. A request with more of them never becomes whole.
    pub bytes_of_one: usize,
    /// Bytes of all connections that came and aren't answered.
    pub bytes_of_all: usize,
    /// Requests that are answered in one round.
    pub requests: usize,
}
