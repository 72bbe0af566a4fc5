//! A head whose bytes come in pieces (RFC 9112, sections 2.1 and 2.2).
ghost use Rattle.std.specs.Prelude.{◌≡◌, ◌+◌, ◌≤◌, List, ℕ, [], length, take, vec_len, IfOk, IfSome};
ghost use Rattle.as2_framing.specs.HeadText.{head_limit};
ghost use Rattle.as2_framing.specs.HeadPieces.{Adds, HoldsHead, HoldsText, LeavesRest, PieceWithin, FeedsHead};

use crate::head_bytes::{HeadBytes, HeadPiece};
use crate::head_text::{HEAD_LIMIT, blank_length};
use crate::scan::{LineSoFar, Scanned, scan};
use std::alloc::{AllocError, Global};

/// The first of the bytes, so many at most.
pub fn first(bytes: &[u8], most: usize) -> &[u8]
    ensures { result.now ≡ take most bytes.now }
{
    if bytes.len() <= most {
        bytes
    } else {
        &bytes[..most]
    }
}

impl HeadBytes {
    /// No byte came yet.
    pub fn new(alloc: Global) -> HeadBytes
        ensures { HoldsHead result [] }
    {
        HeadBytes {
            text: Vec::new(alloc),
            skipped: 0,
            line: LineSoFar::Nothing,
        }
    }

    /// How many bytes of a piece are CR and LF at the front of the text.
    fn blank_in(&self, front: &[u8]) -> usize
        ensures rest { LeavesRest self.now.text.items front.now result }
        ensures within { result ≤ length front.now }
    {
        if self.text.is_empty() {
            blank_length(front)
        } else {
            0
        }
    }

    /// Keeps bytes of which there is room for all, up to the end of the head; tells where that is.
    fn add(&mut self, front: &[u8]) -> Result<Option<usize>, AllocError>
        requires room { self.old.skipped + vec_len self.old.text + length front.now ≤ head_limit }
        ensures within { IfOk result (λ end. IfSome end (λ n. n ≤ length front.now)) }
        ensures added { IfOk result (λ end. (text : List ℕ) → HoldsText self.old text
            → Adds self.new text front.now end) }
    {
        let blank = self.blank_in(front);
        let rest = &front[blank..];
        match scan(self.line, rest) {
            Scanned::Ended(count) => {
                self.text.extend_from_slice(&rest[..count])?;
                self.skipped += blank;
                Ok(Some(blank + count))
            }
            Scanned::Open(line) => {
                self.text.extend_from_slice(rest)?;
                self.skipped += blank;
                self.line = line;
                Ok(None)
            }
        }
    }

    /// Forgets all bytes, and keeps the room for the next.
    pub fn clear(&mut self)
        ensures { HoldsHead self.new [] }
    {
        self.text.clear();
        self.skipped = 0;
        self.line = LineSoFar::Nothing;
    }

    /// Takes a piece, each byte looked at once. What comes behind the end of the head isn't kept.
    pub fn feed(&mut self, bytes: &[u8]) -> Result<HeadPiece, AllocError>
        ensures within { IfOk result (PieceWithin (length bytes.now)) }
        ensures fed { IfOk result (λ piece. (text : List ℕ) → HoldsHead self.old text
            → FeedsHead self.new text bytes.now piece) }
    {
        let room = HEAD_LIMIT - self.skipped - self.text.len();
        match self.add(first(bytes, room))? {
            Some(count) => Ok(HeadPiece::Whole(count)),
            None if bytes.len() < room => Ok(HeadPiece::Open),
            None => Ok(HeadPiece::TooLong),
        }
    }
}
