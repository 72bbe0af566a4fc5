//! The bytes of a head that came so far (RFC 9112, sections 2.1 and 2.2).
ghost use Rattle.std.specs.Prelude.{◌+◌, ◌≤◌, vec_len};
ghost use Rattle.as2_framing.specs.HeadText.{head_limit};

use crate::scan::LineSoFar;

/// The bytes of a head that came so far.
#[derive(Drop)]
pub struct HeadBytes {
    /// Those behind the CR and LF at the front.
    pub text: Vec<u8>,
    /// How many CR and LF there were.
    pub skipped: usize,
    /// What stands of the last line.
    pub line: LineSoFar,
    ghost within: { skipped + vec_len text ≤ head_limit },
}

/// What a piece does to a head.
#[derive(Clone, Copy, Debug, PartialEq, Eq)]
pub enum HeadPiece {
    /// It doesn't end it.
    Open,
    /// So many of its bytes end it.
    Whole(usize),
    /// No head ends in 16,384 bytes.
    TooLong,
}
