//! What a command writes to its two streams, kept.
//!
//! Hints and refusals go to one stream, in the order in which they are written. What a refusal says is told by contracts, so it stands
//! apart, with the place that it has among the hints.

use std::alloc::{AllocError, Global};
use std::cell::RefCell;
use std::io;
use std::io::{ErrorKind, Write};

/// What was hinted.
#[derive(Clone, Copy)]
pub(crate) struct HintPaper<'a> {
    pub text: &'a RefCell<Vec<u8>>,
}

impl Write for HintPaper<'_> {
    ghost use Rattle.std.specs.Prelude.{None};

    ghost contents = { λ _. None };

    fn write(&mut self, buf: &[u8]) -> io::Result<usize> {
        match self.text.try_borrow_mut() {
            Ok(mut text) => text.write(buf),
            Err(_) => Err(io::Error::from(ErrorKind::Other)),
        }
    }

    fn flush(&mut self) -> io::Result<()> {
        Ok(())
    }
}

impl HintPaper<'_> {
    /// How many bytes were hinted.
    fn len(&self) -> usize {
        match self.text.try_borrow() {
            Ok(text) => text.len(),
            Err(_) => 0,
        }
    }
}

/// What was said.
#[derive(Drop)]
pub(crate) struct ErrorPaper<'a> {
    pub text: Vec<u8>,
    /// How many bytes were hinted before.
    pub behind: Option<usize>,
    pub hints: HintPaper<'a>,
}

impl Write for ErrorPaper<'_> {
    ghost use Rattle.std.specs.Prelude.{Some};

    ghost contents = { λ p. Some p.text.items };

    fn write(&mut self, buf: &[u8]) -> io::Result<usize> {
        if self.behind.is_none() {
            self.behind = Some(self.hints.len());
        }
        self.text.write(buf)
    }

    fn flush(&mut self) -> io::Result<()> {
        Ok(())
    }
}

/// All that goes to the stream: the hints, and what was said at its place among them.
pub(crate) fn joined(
    alloc: Global,
    hints: &[u8],
    said: &[u8],
    behind: Option<usize>,
) -> Result<Vec<u8>, AllocError> {
    let (before, after) = hints.split_at(behind.unwrap_or(0).min(hints.len()));
    let mut text = Vec::new(alloc);
    text.extend_from_slice(before)?;
    text.extend_from_slice(said)?;
    text.extend_from_slice(after)?;
    Ok(text)
}
