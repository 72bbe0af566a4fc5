//! Digests and message integrity checks of AS2 (RFC 4130, section 7.3.1).
#![tactic(auto)]

mod alg;
mod digester;
mod field;
mod mic_text;
mod pieces;

pub use alg::Alg;
pub use digester::{Digester, mic_of};
pub use field::{Compared, MicField};
pub use mic_text::MicText;
pub use pieces::{PIECE, Pieces, mic_of_pieces};
