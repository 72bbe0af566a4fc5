//! What is still to come of a frame, for whoever reads it piece by piece.
ghost use Rattle.std.specs.Prelude.{◌≡◌, ◌↔◌, [], ◌∷◌, IfNone, IfOk, IfSome, IsTrue, length, min, slice_index, take};
ghost use Rattle.as2_control.specs.Coming.{StillAwaits};
ghost use Rattle.as2_control.specs.Frames.{IsFrame, IsFrameOf, head_text, length_text, opening_line};

use crate::fields::length_of;
use std::alloc::{AllocError, Global};

/// The line that each frame opens with.
pub(crate) const OPENING: &[u8; 10] = b"as2desk 1\n";

/// How long a frame's head is: its opening line, and the length of what follows.
pub(crate) const HEAD: usize = 14;

/// What is still to come of a frame, behind the bytes that came.
#[derive(Clone, Copy, Debug, PartialEq, Eq)]
pub enum StillToCome {
    /// At the least so many bytes, and one at the least; exactly so many once the head came.
    Bytes(usize),
    /// Nothing: the bytes are a frame.
    Whole,
    /// No frame begins with these bytes.
    Never,
}

/// The byte of that place, or zero where it didn't come.
fn byte_at(came: &[u8], at: usize) -> u8
    ensures { result ≡ slice_index came.now at }
{
    came.get(at).copied().unwrap_or(0)
}

/// The length that the head spells, with zeros for those of its bytes that didn't come.
fn told_length(came: &[u8]) -> u32
    ensures { length_text result ≡ slice_index came.now 10 ∷ slice_index came.now 11 ∷ slice_index came.now 12
        ∷ slice_index came.now 13 ∷ [] }
{
    length_of(&[
        byte_at(came, 10),
        byte_at(came, 11),
        byte_at(came, 12),
        byte_at(came, 13),
    ])
}

/// Whether the bytes that came go along with the opening line, as far as both go.
fn may_open(came: &[u8]) -> bool
    ensures { let count = min (length came.now) 10
        in IsTrue result ↔ (take count came.now ≡ take count opening_line) }
{
    let count = came.len().min(10);
    came[..count] == OPENING[..count]
}

/// What is still to come of a frame with at most so many bytes behind its head, where these bytes came. It looks at the
/// head alone.
pub fn awaited(came: &[u8], most: u32) -> StillToCome
    ensures { StillAwaits most came.now result }
{
    let told = told_length(came);
    if !may_open(came) || told > most {
        return StillToCome::Never;
    }
    let whole = HEAD + told as usize;
    if came.len() < whole {
        StillToCome::Bytes(whole - came.len())
    } else if came.len() == whole {
        StillToCome::Whole
    } else {
        StillToCome::Never
    }
}

/// The body of a frame with at most so many bytes behind its head. None: the bytes are no such frame.
pub(crate) fn body_of(frame: &[u8], most: u32) -> Option<&[u8]>
    ensures found { IfSome result (λ body. IsFrameOf most frame.now body.now) }
    ensures none { IfNone result (¬ IsFrame most frame.now) }
{
    match awaited(frame, most) {
        StillToCome::Whole => Some(&frame[HEAD..]),
        _ => None,
    }
}

/// A text that is a frame's head, with room for the bytes that follow it.
pub(crate) fn begun(alloc: Global, len: u32) -> Result<Vec<u8>, AllocError>
    ensures { IfOk result (λ text. text.items ≡ head_text len) }
{
    let mut text = Vec::with_capacity(alloc, HEAD + len as usize)?;
    text.extend_from_slice(OPENING)?;
    text.extend_from_slice(&len.to_be_bytes())?;
    Ok(text)
}
