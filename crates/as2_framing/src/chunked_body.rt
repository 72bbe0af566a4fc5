//! What is kept of a chunked body that comes in pieces (RFC 9112, section 7.1).
ghost use Rattle.std.specs.Prelude.{◌≡◌, ◌≤◌, ◌<◌, ℕ, vec_len};
ghost use Rattle.as2_framing.specs.declared.place.ChunkPlace.TheVariants.{Bytes};
ghost use Rattle.as2_framing.specs.Chunks.{HasNoLine, line_limit};

use crate::place::ChunkPlace;
use std::alloc::Global;

/// A chunked body, as far as it came. Its bytes are kept elsewhere.
#[derive(Drop)]
pub struct ChunkedBody {
    /// Where it ends.
    pub place: ChunkPlace,
    /// The bytes of a chunk line that isn't whole.
    pub line: Vec<u8>,
    /// Takes the memory for these.
    pub alloc: Global,
    ghost within: { vec_len line ≤ line_limit },
    ghost none: { HasNoLine line.items },
    ghost some: { (n : ℕ) → place ≡ Bytes n → 0 < n },
}
