//! Bytes that are kept on the heap.

ghost use Rattle.std.specs.Prelude.{◌≡◌, IfOk};

use as2_text::Memory;
use std::alloc::Global;
use std::marker::Model;

/// A text that is kept as its bytes, whatever they are.
#[derive(Drop)]
pub struct Bytes {
    kept: Vec<u8>,
}

impl Model for Bytes {
    ghost use Rattle.std.specs.Prelude.{ℕ, List};

    ghost Value = { List ℕ };

    ghost view = { λ t. t.kept.items };
}

impl Bytes {
    /// Keeps a text.
    pub fn keep(alloc: Global, text: &[u8]) -> Result<Bytes, Memory>
        ensures { IfOk result (λ kept. kept ≡ text.now) }
    {
        let kept = Vec::from_slice(alloc, text)?;
        Ok(Bytes { kept })
    }

    /// A text that is kept already.
    pub fn of(kept: Vec<u8>) -> Bytes
        ensures { result ≡ kept.items }
    {
        Bytes { kept }
    }

    /// The bytes.
    pub fn as_slice(&self) -> &[u8]
        ensures { result.now ≡ self.now }
    {
        &self.kept
    }
}
