//! Where a message ends in bytes that come in any pieces: its head, and its body, by length or chunked. No reader is known here.
#![tactic(auto)]

mod body;
mod chunk_line;
mod chunked;
mod chunked_body;
mod head_bytes;
mod head_feed;
mod head_text;
mod laws;
mod place;
mod scan;

pub use body::{BodyFraming, MissingBody};
pub use chunked::{BODY_LIMIT, BodyPiece};
pub use chunked_body::ChunkedBody;
pub use head_bytes::{HeadBytes, HeadPiece};
pub use laws::one_chunked_body;
