//! Where in a chunked body bytes end (RFC 9112, section 7.1).
use crate::scan::LineSoFar;

/// Where in a chunked body the bytes so far end.
#[derive(Clone, Copy, Debug, PartialEq, Eq)]
pub enum ChunkPlace {
    /// In a chunk line, of which all bytes are kept.
    Line,
    /// In the bytes of a chunk, of which so many are missing.
    Bytes(usize),
    /// Behind the bytes of a chunk.
    Behind,
    /// Behind these and CR.
    Return,
    /// In the trailer, of which so many bytes came, the last line of them with that.
    Trailer(usize, LineSoFar),
}
