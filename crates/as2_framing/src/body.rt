//! A body whose bytes come in any pieces: of a length, or in chunks (RFC 9112, section 6.3).
ghost use Rattle.std.specs.Prelude.{◌≡◌, List, ℕ, [], length, IfOk};
ghost use Rattle.as2_framing.specs.BodyPieces.{FeedsBody, HoldsBody};
ghost use Rattle.as2_framing.specs.ChunkPieces.{BodyWithin};
ghost use Rattle.as2_framing.specs.declared.body.BodyFraming.{BodyFraming as Framing};
ghost use Rattle.as2_framing.specs.declared.body.BodyFraming.TheVariants as framing;
ghost use Rattle.as2_framing.specs.declared.body.MissingBody.TheVariants as missing_body;

use crate::chunked::BodyPiece;
use crate::chunked_body::ChunkedBody;
use as2_mic::Pieces;
use as2_text::Memory;
use std::alloc::Global;
use std::cmp::min;

/// How the end of a body is told.
#[derive(Clone, Copy, Debug, PartialEq, Eq)]
pub enum BodyFraming {
    /// It has so many bytes.
    Length(usize),
    /// It is chunked.
    Chunked,
}

/// What is missing of a body.
#[derive(Drop)]
pub enum MissingBody {
    /// So many bytes.
    Length(usize),
    /// The rest of a chunked body.
    Chunked(ChunkedBody),
}

/// Takes what is there of so many bytes that are missing.
fn feed_length(missing: &mut usize, bytes: &[u8], body: &mut Pieces) -> Result<BodyPiece, Memory>
    ensures within { IfOk result (BodyWithin (length bytes.now)) }
    ensures fed { IfOk result (λ f. (size : ℕ) (text : List ℕ)
        → HoldsBody (missing_body.Length missing.old) (framing.Length size) body.old text bytes.now
        → FeedsBody (missing_body.Length missing.old) (missing_body.Length missing.new) (framing.Length size) body.new
        text bytes.now f) }
{
    let used = min(*missing, bytes.len());
    body.append(&bytes[..used])?;
    *missing -= used;
    if *missing == 0 {
        Ok(BodyPiece::Whole(used))
    } else {
        Ok(BodyPiece::Open)
    }
}

impl MissingBody {
    /// No byte of the body came yet.
    pub fn new(alloc: Global, framing: BodyFraming) -> MissingBody
        ensures { (text : List ℕ) → HoldsBody result framing [] text text }
    {
        match framing {
            BodyFraming::Length(length) => MissingBody::Length(length),
            BodyFraming::Chunked => MissingBody::Chunked(ChunkedBody::new(alloc)),
        }
    }

    /// Takes the next piece, and appends what is of the body: each of its bytes is appended once. Behind the end of the body nothing
    /// is taken; behind a fault or Memory nothing more is to be given. Memory means that memory for the body wasn't there.
    pub fn feed(&mut self, bytes: &[u8], body: &mut Pieces) -> Result<BodyPiece, Memory>
        ensures within { IfOk result (BodyWithin (length bytes.now)) }
        ensures fed { IfOk result (λ f. (framing : Framing) (text : List ℕ)
            → HoldsBody self.old framing body.old text bytes.now
            → FeedsBody self.old self.new framing body.new text bytes.now f) }
    {
        match self {
            MissingBody::Length(missing) => feed_length(missing, bytes, body),
            MissingBody::Chunked(chunked) => chunked.feed(bytes, body),
        }
    }
}
