//! The line before a chunk (RFC 9112, section 7.1).
ghost use Rattle.std.specs.Prelude.{◌≡◌, ◌≤◌, length};
ghost use Rattle.as2_framing.specs.Chunks.{line_limit};
ghost use Rattle.as2_framing.specs.ChunkPieces.{ReadsLine, TellsRoom};

use httparse::{Status, parse_chunk_size};

/// How many bytes a chunk line may have, its CR LF among them.
pub const LINE_LIMIT: usize = 1_024;

/// What stands at the front of a chunk.
#[derive(Clone, Copy, Debug, PartialEq, Eq)]
pub enum LineRead {
    /// Less than a line.
    Open,
    /// A line of so many bytes, which says that size.
    Line(usize, u64),
    /// What is no line, and doesn't become one within 1,024 bytes.
    Bad,
}

/// There is room for the line end that is missing.
fn has_room(text: &[u8]) -> bool
    ensures { TellsRoom text.now result }
{
    match text.split_last() {
        Some((last, _)) if *last == b'\r' => text.len() < LINE_LIMIT,
        _ => text.len() < LINE_LIMIT - 1,
    }
}

/// Reads the line at the front of a chunk.
pub fn read_line(text: &[u8]) -> LineRead
    requires { length text.now ≤ line_limit }
    ensures { ReadsLine text.now result }
{
    match parse_chunk_size(text) {
        Ok(Status::Complete((length, size))) => LineRead::Line(length, size),
        Ok(Status::Partial) if has_room(text) => LineRead::Open,
        Ok(Status::Partial) | Err(_) => LineRead::Bad,
    }
}
