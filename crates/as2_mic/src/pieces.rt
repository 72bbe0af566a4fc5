//! Contents in pieces, so that one of many megabytes needs no single block of memory.

ghost use Rattle.std.specs.Prelude.{◌≡◌, ◌<◌, ◌≤◌, ◌+◌, ◌^◌, [], ◌∷◌, ◌++◌, length, take, IfOk, OnOk, OnErr};
ghost use Rattle.std.specs.Option.{option_map};
ghost use Rattle.std.specs.Str.{bytes_eq};
ghost use Rattle.as2_mic.specs.Mic.{mic};
ghost use Rattle.as2_mic.specs.Pieces.{AreWhole, IsKeptAs, joined_pieces, piece_size, piece_count, piece_at};

use crate::{Alg, Digester, MicText};
use as2_names::Memory;
use std::alloc::{AllocError, Global};
use std::cmp::min;
use std::marker::Model;
use std::mem;

/// The bytes of a piece but the last.
pub const PIECE: usize = 65_536;

/// A content as it is kept: one list of bytes, in pieces of 65,536 of which the last may be shorter
/// and none is empty.
#[derive(Drop)]
pub struct Pieces {
    alloc: Global,
    // pieces of 65,536 bytes each
    full: Vec<Vec<u8>>,
    // what stands behind them, of up to 65,536 bytes
    last: Vec<u8>,
    total: usize,
}

impl Model for Pieces {
    ghost use Rattle.std.specs.Prelude.{◌≡◌, ◌≤◌, List, ℕ, length};
    ghost use Rattle.as2_mic.specs.Pieces.{AreWhole, joined_pieces, piece_size};

    ghost Value = { List ℕ };

    ghost view = { λ p. joined_pieces (λ v. v.items) p.full.items p.last.items };

    ghost invariant = { λ p. AreWhole (λ v. v.items) p.full.items × (length p.last.items ≤ piece_size)
        × (p.total ≡ length (joined_pieces (λ v. v.items) p.full.items p.last.items)) };
}

/// Puts the last piece behind the full ones, and begins an empty one.
fn shelve(alloc: Global, full: &mut Vec<Vec<u8>>, last: &mut Vec<u8>) -> Result<(), Memory>
    ensures full { OnOk result (full.new.items ≡ full.old.items ++ last.old ∷ []) }
    ensures empty { OnOk result (last.new.items ≡ []) }
    ensures same_full { OnErr result (full.new.items ≡ full.old.items) }
    ensures same_last { OnErr result (last.new ≡ last.old) }
{
    let whole = mem::replace(last, Vec::new(alloc));
    match full.push(whole) {
        Ok(()) => Ok(()),
        Err(refused) => {
            *last = refused.value;
            Err(Memory)
        }
    }
}

/// Takes off all bytes behind the first `len`.
fn cut(full: &mut Vec<Vec<u8>>, last: &mut Vec<u8>, len: usize)
    requires whole { AreWhole (λ v. v.items) full.old.items }
    requires short { length last.old.items ≤ piece_size }
    requires within { len ≤ length (joined_pieces (λ v. v.items) full.old.items last.old.items) }
    ensures { IsKeptAs (λ v. v.items) full.new.items last.new.items
        (take len (joined_pieces (λ v. v.items) full.old.items last.old.items)) }
{
    let whole = len.saturating_sub(1) / PIECE;
    if whole < full.len() {
        *last = full.remove(whole);
        full.truncate(whole);
    }
    last.truncate(len - whole * PIECE);
}

impl Pieces {
    /// No bytes. What is appended takes its memory from `alloc`.
    pub fn new(alloc: Global) -> Pieces
        ensures { result ≡ [] }
    {
        Pieces {
            alloc,
            full: Vec::new(alloc),
            last: Vec::new(alloc),
            total: 0,
        }
    }

    /// How many bytes there are.
    pub fn len(&self) -> usize
        ensures { result ≡ length self.now }
    {
        self.total
    }

    /// How many pieces there are.
    pub fn count(&self) -> usize
        ensures { result ≡ piece_count self.now }
    {
        self.len().div_ceil(PIECE)
    }

    /// The piece at a place, counted from 0.
    pub fn piece(&self, i: usize) -> Option<&[u8]>
        ensures { option_map (λ p. p.now) result ≡ piece_at self.now i }
    {
        if i < self.full.len() {
            Some(self.full[i].as_slice())
        } else if i == self.full.len() && !self.last.is_empty() {
            Some(self.last.as_slice())
        } else {
            None
        }
    }

    /// Appends the first of the bytes, as many as one piece takes, and answers how many.
    fn put(&mut self, bytes: &[u8]) -> Result<usize, Memory>
        requires some { 0 < length bytes.now }
        requires fits { length self.old + length bytes.now < 2 ^ 64 }
        ensures some { IfOk result (λ n. 0 < n) }
        ensures most { IfOk result (λ n. n ≤ length bytes.now) }
        ensures ok { IfOk result (λ n. self.new ≡ self.old ++ take n bytes.now) }
        ensures unchanged { OnErr result (self.new ≡ self.old) }
    {
        if self.last.len() == PIECE {
            shelve(self.alloc, &mut self.full, &mut self.last)?;
        }
        let count = min(PIECE - self.last.len(), bytes.len());
        self.last.extend_from_slice(&bytes[..count])?;
        self.total += count;
        Ok(count)
    }

    /// Takes off all bytes behind the first `len`.
    fn cut_back(&mut self, len: usize)
        requires { len ≤ length self.old }
        ensures { self.new ≡ take len self.old }
    {
        cut(&mut self.full, &mut self.last, len);
        self.total = len;
    }

    /// Appends the bytes. Where there is no memory for them all, none is appended.
    pub fn append(&mut self, bytes: &[u8]) -> Result<(), Memory>
        ensures ok { OnOk result (self.new ≡ self.old ++ bytes.now) }
        ensures unchanged { OnErr result (self.new ≡ self.old) }
    {
        let before = self.len();
        if before.checked_add(bytes.len()).is_none() {
            return Err(Memory);
        }
        let mut rest = bytes;
        while !rest.is_empty() {
            match self.put(rest) {
                Ok(count) => rest = &rest[count..],
                Err(memory) => {
                    self.cut_back(before);
                    return Err(memory);
                }
            }
        }
        Ok(())
    }

    /// Whether both are the same bytes.
    pub fn same_bytes(&self, other: &Pieces) -> bool
        ensures { result ≡ bytes_eq self.now other.now }
    {
        if self.len() != other.len() {
            return false;
        }
        for i in 0..self.count() {
            if self.piece(i) != other.piece(i) {
                return false;
            }
        }
        true
    }

    /// Appends the content to a text. Where memory runs out, a part of it may be appended.
    pub fn append_to(&self, text: &mut Vec<u8>) -> Result<(), AllocError>
        ensures { OnOk result (text.new.items ≡ text.old.items ++ self.now) }
    {
        for piece in &self.full {
            text.extend_from_slice(piece.as_slice())?;
        }
        text.extend_from_slice(self.last.as_slice())
    }

    /// All bytes in one piece of memory.
    pub fn joined(&self) -> Result<Vec<u8>, Memory>
        ensures { IfOk result (λ v. v.items ≡ self.now) }
    {
        let mut all = Vec::with_capacity(self.alloc, self.len())?;
        self.append_to(&mut all)?;
        Ok(all)
    }
}

/// The MIC of a content in pieces (RFC 4130, section 7.3.1).
pub fn mic_of_pieces(alg: Alg, content: &Pieces) -> MicText
    ensures { result ≡ mic alg content.now }
{
    let mut digester = Digester::new(alg);
    for piece in &content.full {
        digester.update(piece.as_slice());
    }
    digester.update(content.last.as_slice());
    digester.finish()
}
