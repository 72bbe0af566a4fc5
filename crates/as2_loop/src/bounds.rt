//! How much is done in one turn, and how long a peer is waited for.

/// Connections that are served at once.
pub(crate) const CONNECTIONS: usize = 1_000;

/// Bytes of one connection that came and aren't answered: a head, a body in chunks of one byte, and some.
pub(crate) const BYTES_OF_ONE: usize = 8_388_608;

/// Bytes of all connections that came and aren't answered.
pub(crate) const BYTES_OF_ALL: usize = 268_435_456;

/// Requests that are answered in one round.
pub(crate) const REQUESTS: usize = 64;

/// Bytes that are read at once.
pub(crate) const PIECE: usize = 65_536;

/// Reads of one connection in one turn.
pub(crate) const READS: usize = 4;

/// Connections that are accepted in one turn.
pub(crate) const ACCEPTS: usize = 64;

/// How often the limits are looked at, in milliseconds.
pub(crate) const LOOK: u64 = 1_000;

/// .. while the system has no descriptor to give.
pub(crate) const SHORT_LOOK: u64 = 250;

/// How long no connection is accepted where the system had none to give, in milliseconds.
pub(crate) const PAUSE: u64 = 100;

/// How long a peer is waited for, in milliseconds.
#[derive(Clone, Copy, Debug, PartialEq, Eq)]
pub(crate) struct Waits {
    /// For its next byte within a request, for room to write, and for the end of what it sends behind its last reply.
    pub wait: u64,
    /// For the whole of a request, from its first byte.
    pub whole: u64,
    /// For another request.
    pub idle: u64,
}

/// How long another request is waited for where all connections are taken and somebody waits for one, in milliseconds.
pub(crate) const CROWDED_IDLE: u64 = 2_000;

/// .. and if the system has no descriptor for whoever waits. A client that connects sends its request at once.
pub(crate) const SHORT_IDLE: u64 = 250;

/// The least pace of a request, in bytes a millisecond. If there is no room for others, the one that is furthest behind it is given up.
pub(crate) const PACE: u64 = 16;

/// How long what is under way may take once the station is to stop, in milliseconds.
pub(crate) const STOP: u64 = 10_000;

/// For how long each thing is committed alone behind a round that was lost, so that each has its own answer: milliseconds.
pub(crate) const ALONE: u64 = 10_000;
