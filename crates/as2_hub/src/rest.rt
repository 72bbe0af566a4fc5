//! What came behind a request, and isn't read yet.
ghost use Rattle.std.specs.Prelude.{◌≡◌, ◌++◌, [], drop, length, OnOk, OnErr};

use as2_text::Memory;
use std::alloc::Global;
use std::marker::Model;

/// Bytes of which the first are taken off, request by request. They aren't moved for that.
#[derive(Drop)]
pub struct Rest {
    bytes: Vec<u8>,
    // so many of them are taken off
    from: usize,
}

impl Model for Rest {
    ghost use Rattle.std.specs.Prelude.{◌≤◌, List, ℕ, drop, length};

    ghost Value = { List ℕ };

    ghost view = { λ r. drop r.from r.bytes.items };

    ghost invariant = { λ r. r.from ≤ length r.bytes.items };
}

impl Rest {
    /// No bytes, and no memory.
    pub fn new(alloc: Global) -> Rest
        ensures { result ≡ [] }
    {
        Rest {
            bytes: Vec::new(alloc),
            from: 0,
        }
    }

    /// How many there are.
    pub fn len(&self) -> usize
        ensures { result ≡ length self.now }
    {
        self.bytes.len() - self.from
    }

    /// The bytes.
    pub fn bytes(&self) -> &[u8]
        ensures { result.now ≡ self.now }
    {
        &self.bytes[self.from..]
    }

    /// Appends these. Memory: nothing changes.
    pub fn append(&mut self, bytes: &[u8]) -> Result<(), Memory>
        ensures appended { OnOk result (self.new ≡ self.old ++ bytes.now) }
        ensures same { OnErr result (self.new ≡ self.old) }
    {
        self.bytes.extend_from_slice(bytes)?;
        Ok(())
    }

    /// Takes the first off, so many of them or all.
    pub fn skip(&mut self, count: usize)
        ensures { self.new ≡ drop count self.old }
    {
        self.from += count.min(self.len());
    }
}
