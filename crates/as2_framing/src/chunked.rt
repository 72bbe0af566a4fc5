//! A chunked body whose bytes come in any pieces (RFC 9112, section 7.1).
ghost use Rattle.std.specs.Prelude.{◌≡◌, ◌≤◌, ◌<◌, List, ℕ, [], ◌++◌, length, Ok, IfOk};
ghost use Rattle.as2_framing.specs.Chunks.{line_limit};
ghost use Rattle.as2_framing.specs.ChunkPieces.{BodyWithin, Feeds, FindsLine, HoldsChunked, HoldsAt, HoldsLine, LineWithin, ReadsLine, StepsTo, StepWithin};
ghost use Rattle.as2_framing.specs.Places.{GoesOn};

use crate::chunk_line::{LINE_LIMIT, LineRead, read_line};
use crate::chunked_body::ChunkedBody;
use crate::head_feed::first;
use crate::place::ChunkPlace;
use crate::scan::{LineSoFar, Scanned, scan};
use as2_mic::Pieces;
use as2_text::Memory;
use std::alloc::{AllocError, Global};
use std::cmp::min;
use std::mem;

/// How many bytes a trailer may have, its empty line among them.
const TRAILER_LIMIT: usize = 16_384;

/// How many bytes a body may have.
pub const BODY_LIMIT: usize = 1_048_576;

/// What some bytes of a piece do.
#[derive(Clone, Copy, Debug, PartialEq, Eq)]
pub enum ChunkStep {
    /// So many were taken.
    On(usize),
    /// The body ends with so many.
    Whole(usize),
    /// No chunk can come of them.
    Bad,
    /// The sizes are together more than 1,048,576.
    TooLarge,
}

/// What a piece does to a chunked body.
#[derive(Clone, Copy, Debug, PartialEq, Eq)]
pub enum BodyPiece {
    /// It doesn't end it.
    Open,
    /// So many of its bytes end it.
    Whole(usize),
    /// What came begins with no chunked body, however it goes on.
    Bad,
    /// The sizes of the chunks are together more than 1,048,576. No byte of the chunk was taken whose line says so.
    TooLarge,
}

/// Reads the line that a text begins with, the front behind it. Where that is open, the text has both afterwards; a line that all stands
/// in the front isn't copied.
fn read_behind(text: &mut Vec<u8>, front: &[u8]) -> Result<LineRead, AllocError>
    requires { length (text.old.items ++ front.now) ≤ line_limit }
    ensures read { IfOk result (ReadsLine (text.old.items ++ front.now)) }
    ensures kept { result ≡ Ok LineRead.Open → text.new.items ≡ text.old.items ++ front.now }
{
    if !text.is_empty() {
        text.extend_from_slice(front)?;
        return Ok(read_line(text));
    }
    let read = read_line(front);
    if read == LineRead::Open {
        text.extend_from_slice(front)?;
    }
    Ok(read)
}

/// Where a body goes on behind a line that says this size, where so many bytes came before. None where that is too much.
fn behind_line(size: u64, came: usize) -> Option<ChunkPlace>
    ensures { GoesOn size came result }
{
    if size == 0 {
        return Some(ChunkPlace::Trailer(0, LineSoFar::Nothing));
    }
    if size > BODY_LIMIT.saturating_sub(came) as u64 {
        return None;
    }
    Some(ChunkPlace::Bytes(size as usize))
}

impl ChunkedBody {
    /// No byte came yet.
    pub fn new(alloc: Global) -> ChunkedBody
        ensures { (text : List ℕ) → HoldsChunked result [] text text }
    {
        ChunkedBody {
            place: ChunkPlace::Line,
            line: Vec::new(alloc),
            alloc,
        }
    }

    /// Finds the end of a chunk line, or keeps what there is of it.
    fn find_line(&mut self, rest: &[u8]) -> Result<LineRead, AllocError>
        ensures place { self.new.place ≡ self.old.place }
        ensures within { IfOk result (LineWithin (length rest.now)) }
        ensures found { IfOk result (λ r. (body text : List ℕ) → HoldsLine self.old.line.items body text rest.now
            → FindsLine self.new.line.items body text rest.now r) }
    {
        let mut text = mem::replace(&mut self.line, Vec::new(self.alloc));
        let kept = text.len();
        match read_behind(&mut text, first(rest, LINE_LIMIT - kept))? {
            LineRead::Open => {
                self.line = text;
                Ok(LineRead::Open)
            }
            LineRead::Line(used, size) => Ok(LineRead::Line(used - kept, size)),
            LineRead::Bad => Ok(LineRead::Bad),
        }
    }

    /// Takes what is there of a chunk line. So many bytes of body came before.
    fn take_line(&mut self, rest: &[u8], came: usize) -> Result<ChunkStep, AllocError>
        requires place { self.old.place ≡ ChunkPlace.Line }
        requires some { 0 < length rest.now }
        ensures within { IfOk result (StepWithin (length rest.now)) }
        ensures taken { IfOk result (λ s. (body text : List ℕ) → length body ≡ came
            → HoldsLine self.old.line.items body text rest.now → StepsTo self.new body text rest.now s) }
    {
        match self.find_line(rest)? {
            LineRead::Open => Ok(ChunkStep::On(rest.len())),
            LineRead::Bad => Ok(ChunkStep::Bad),
            LineRead::Line(used, size) => match behind_line(size, came) {
                Some(place) => {
                    self.place = place;
                    Ok(ChunkStep::On(used))
                }
                None => Ok(ChunkStep::TooLarge),
            },
        }
    }

    /// Takes what is there of the bytes of a chunk, of which so many are missing.
    fn take_bytes(
        &mut self,
        missing: usize,
        rest: &[u8],
        body: &mut Pieces,
    ) -> Result<ChunkStep, Memory>
        requires missing { 0 < missing }
        requires some { 0 < length rest.now }
        ensures within { IfOk result (StepWithin (length rest.now)) }
        ensures taken { IfOk result (λ s. (text : List ℕ)
            → HoldsAt (ChunkPlace.Bytes missing) self.old.line.items body.old text rest.now
            → StepsTo self.new body.new text rest.now s) }
    {
        let used = min(missing, rest.len());
        body.append(&rest[..used])?;
        self.place = if used == missing {
            ChunkPlace::Behind
        } else {
            ChunkPlace::Bytes(missing - used)
        };
        Ok(ChunkStep::On(used))
    }

    /// Takes the CR behind a chunk.
    fn take_return(&mut self, rest: &[u8]) -> ChunkStep
        requires some { 0 < length rest.now }
        ensures within { StepWithin (length rest.now) result }
        ensures taken { (body text : List ℕ) → HoldsAt ChunkPlace.Behind self.old.line.items body text rest.now
            → StepsTo self.new body text rest.now result }
    {
        if rest[0] != b'\r' {
            return ChunkStep::Bad;
        }
        self.place = ChunkPlace::Return;
        ChunkStep::On(1)
    }

    /// Takes the LF behind that.
    fn take_feed(&mut self, rest: &[u8]) -> ChunkStep
        requires some { 0 < length rest.now }
        ensures within { StepWithin (length rest.now) result }
        ensures taken { (body text : List ℕ) → HoldsAt ChunkPlace.Return self.old.line.items body text rest.now
            → StepsTo self.new body text rest.now result }
    {
        if rest[0] != b'\n' {
            return ChunkStep::Bad;
        }
        self.place = ChunkPlace::Line;
        ChunkStep::On(1)
    }

    /// Takes what is there of the trailer.
    fn take_trailer(&mut self, count: usize, line: LineSoFar, rest: &[u8]) -> ChunkStep
        requires some { 0 < length rest.now }
        ensures within { StepWithin (length rest.now) result }
        ensures taken { (body text : List ℕ)
            → HoldsAt (ChunkPlace.Trailer count line) self.old.line.items body text rest.now
            → StepsTo self.new body text rest.now result }
    {
        let room = TRAILER_LIMIT.saturating_sub(count);
        let front = first(rest, room);
        match scan(line, front) {
            Scanned::Ended(length) => ChunkStep::Whole(length),
            Scanned::Open(line) => {
                if front.len() + line.missing() > room {
                    return ChunkStep::Bad;
                }
                self.place = ChunkPlace::Trailer(TRAILER_LIMIT - (room - front.len()), line);
                ChunkStep::On(front.len())
            }
        }
    }

    /// Takes some bytes, one at least.
    fn step(&mut self, rest: &[u8], body: &mut Pieces) -> Result<ChunkStep, Memory>
        requires some { 0 < length rest.now }
        ensures within { IfOk result (StepWithin (length rest.now)) }
        ensures taken { IfOk result (λ s. (text : List ℕ) → HoldsChunked self.old body.old text rest.now
            → StepsTo self.new body.new text rest.now s) }
    {
        match self.place {
            ChunkPlace::Line => Ok(self.take_line(rest, body.len())?),
            ChunkPlace::Bytes(missing) => self.take_bytes(missing, rest, body),
            ChunkPlace::Behind => Ok(self.take_return(rest)),
            ChunkPlace::Return => Ok(self.take_feed(rest)),
            ChunkPlace::Trailer(count, line) => Ok(self.take_trailer(count, line, rest)),
        }
    }

    /// Takes the next piece, and appends what is of a chunk to the body: each of these bytes is appended once, and no line costs more
    /// than its bytes while it comes whole. Behind the end of the body nothing is taken; behind a fault or Memory nothing more is to be
    /// given. Memory means that memory for the body wasn't there.
    pub fn feed(&mut self, bytes: &[u8], body: &mut Pieces) -> Result<BodyPiece, Memory>
        ensures within { IfOk result (BodyWithin (length bytes.now)) }
        ensures fed { IfOk result (λ f. (text : List ℕ) → HoldsChunked self.old body.old text bytes.now
            → Feeds self.new body.new text bytes.now f) }
    {
        let mut rest = bytes;
        while !rest.is_empty() {
            match self.step(rest, body)? {
                ChunkStep::On(used) => rest = &rest[used..],
                ChunkStep::Whole(used) => return Ok(BodyPiece::Whole(
                    bytes.len() - rest.len() + used,
                )),
                ChunkStep::Bad => return Ok(BodyPiece::Bad),
                ChunkStep::TooLarge => return Ok(BodyPiece::TooLarge),
            }
        }
        Ok(BodyPiece::Open)
    }
}
