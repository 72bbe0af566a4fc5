//! Standard input, output and error in memory, which may be broken.
use script_lines::{Answer, Settings};
use std::alloc::Global;
use std::cmp::min;
use std::io::{Error, ErrorKind, Read, Result as IoResult, Write};

/// How the calls of a stream go.
#[derive(Clone, Copy)]
pub struct Calls {
    /// How many bytes one gives or takes at most.
    pub most: usize,
    /// How many succeed. The next fails, or takes no byte.
    pub sound: usize,
    /// Whether the next takes no byte in place of failing.
    pub is_stuck: bool,
}

impl Calls {
    /// Counts a call that succeeds; whether it doesn't.
    fn is_out(&mut self) -> bool {
        if self.sound == 0 {
            return true;
        }
        self.sound -= 1;
        false
    }
}

/// The number of that text, or no limit.
fn limit(settings: &Settings, name: &str, answer: &mut Answer) -> usize {
    match settings.text(name) {
        Some(text) => answer.length_in(text),
        None => usize::MAX,
    }
}

/// How calls go, by the texts that tell how many bytes one gives or takes, and how many succeed.
pub fn calls_by(settings: &Settings, most: &str, sound: &str, answer: &mut Answer) -> Calls {
    Calls {
        most: limit(settings, most, answer),
        sound: limit(settings, sound, answer),
        is_stuck: settings.text("stuck").is_some(),
    }
}

/// A stream in parts: no read gives bytes of two of them.
#[derive(Drop)]
pub struct Input<'a> {
    /// What is left of the part that is read.
    part: &'a [u8],
    /// The parts behind it.
    next: &'a [Vec<u8>],
    calls: Calls,
}

impl Input<'_> {
    pub fn new(parts: &[Vec<u8>], calls: Calls) -> Input<'_> {
        Input {
            part: b"",
            next: parts,
            calls,
        }
    }

    /// How many bytes are left of the part that is read, and how many parts behind it.
    pub fn left(&self) -> (usize, usize) {
        (self.part.len(), self.next.len())
    }
}

impl Read for Input<'_> {
    fn read(&mut self, buf: &mut [u8]) -> IoResult<usize> {
        if self.calls.is_out() {
            return match self.calls.is_stuck {
                true => Ok(0),
                false => Err(Error::from(ErrorKind::BrokenPipe)),
            };
        }
        if self.part.is_empty()
            && let Some((first, rest)) = self.next.split_first()
        {
            self.part = first.as_slice();
            self.next = rest;
        }
        let most = min(buf.len(), self.calls.most);
        self.part.read(&mut buf[..most])
    }
}

/// What is written.
#[derive(Drop)]
pub struct Paper {
    pub bytes: Vec<u8>,
    calls: Calls,
}

impl Paper {
    pub fn new(alloc: Global, calls: Calls) -> Paper {
        Paper {
            bytes: Vec::new(alloc),
            calls,
        }
    }
}

impl Write for Paper {
    fn write(&mut self, buf: &[u8]) -> IoResult<usize> {
        if self.calls.is_out() {
            return match self.calls.is_stuck {
                true => Ok(0),
                false => Err(Error::from(ErrorKind::BrokenPipe)),
            };
        }
        let most = min(buf.len(), self.calls.most);
        self.bytes.write(&buf[..most])
    }

    fn flush(&mut self) -> IoResult<()> {
        Ok(())
    }
}
