//! Lines for the journal of the system: each with its moment, on standard error.

ghost use Rattle.std.specs.Prelude.{◌≤◌, length};

use as2_text::Moment;
use jiff::Timestamp;
use memchr::memrchr;
use mio::unix::SourceFd;
use mio::{Events, Interest, Poll, Token};
use std::alloc::{AllocError, Global};
use std::io;
use std::io::{Stderr, Write};
use std::os::fd::AsRawFd;
use std::time::Duration;

/// Bytes that a pipe takes without a wait once it says that it has room (`PIPE_BUF` of Linux).
const PIPE: usize = 4_096;

/// Where lines are written. One that can't be written is lost, and counted. So nobody is held up where nobody reads them.
#[derive(Drop)]
pub(crate) struct Notes {
    out: Stderr,
    poll: Poll,
    events: Events<Global>,
    lost: u64,
}

/// The moment, as RFC 3339 spells it, and a blank.
fn stamp(alloc: Global, moment: Moment) -> Result<String, AllocError> {
    let second = i64::try_from(moment.seconds()).unwrap_or(0);
    match Timestamp::from_second(second) {
        Ok(time) => format!(in alloc; "{time} "),
        Err(_) => Ok(String::new(alloc)),
    }
}

/// How many bytes of these lines are written at once: whole lines, as far as there is one.
fn first_lines(lines: &[u8]) -> usize
    ensures { result ≤ length lines.now }
{
    let most = lines.len().min(PIPE);
    match memrchr(b'\n', &lines[..most]) {
        Some(at) => at.saturating_add(1).min(most),
        None => most,
    }
}

impl Notes {
    /// Lines are written to standard error.
    pub(crate) fn new(rt: &HostRuntime) -> io::Result<Notes> {
        Ok(Notes {
            out: rt.stderr(),
            poll: Poll::new(rt)?,
            events: Events::with_capacity(rt.alloc(), 1)?,
            lost: 0,
        })
    }

    /// Whether there is room for some lines. A file is asked nothing: a write to it doesn't wait for anybody.
    fn has_room(&mut self) -> bool {
        let descriptor = self.out.as_raw_fd();
        let mut source = SourceFd(&descriptor);
        let registry = self.poll.registry();
        if registry
            .register(&mut source, Token(0), Interest::WRITABLE)
            .is_err()
        {
            return true;
        }
        let told = self.poll.poll(&mut self.events, Some(Duration::ZERO));
        let _ = self.poll.registry().deregister(&mut source);
        told.is_ok() && !self.events.is_empty()
    }

    /// Writes these lines, as far as there is room. Whether all were.
    fn write_all(&mut self, lines: &[u8]) -> bool {
        let mut rest = lines;
        for _ in 0..lines.len() {
            if rest.is_empty() {
                break;
            }
            let count = first_lines(rest);
            if !self.has_room() || self.out.write_all(&rest[..count]).is_err() {
                return false;
            }
            rest = &rest[count..];
        }
        true
    }

    /// Writes the lines of a text, each behind the moment.
    pub(crate) fn note(&mut self, alloc: Global, moment: Moment, lines: &[u8]) {
        if lines.is_empty() {
            return;
        }
        let is_written = match stamped(alloc, moment, self.lost, lines) {
            Ok(text) => self.write_all(&text),
            Err(_) => false,
        };
        self.lost = if is_written {
            0
        } else {
            self.lost.saturating_add(1)
        };
    }
}

/// The lines, each behind the moment; before them, how often lines were lost.
fn stamped(alloc: Global, moment: Moment, lost: u64, lines: &[u8]) -> Result<Vec<u8>, AllocError> {
    let stamp = stamp(alloc, moment)?;
    let mut text = Vec::new(alloc);
    if lost > 0 {
        let told = format!(in alloc; "{lost} times lines were lost\n")?;
        text.extend_from_slice(stamp.as_str().as_bytes())?;
        text.extend_from_slice(told.as_str().as_bytes())?;
    }
    for line in lines.split_inclusive(|byte| *byte == b'\n') {
        text.extend_from_slice(stamp.as_str().as_bytes())?;
        text.extend_from_slice(line)?;
    }
    Ok(text)
}
