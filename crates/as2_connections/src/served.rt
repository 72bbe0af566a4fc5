//! The two ends of a connection that is served. Behind a reply the wait for its peer is shorter. Where nothing more comes then, the peer is
//! at its end. So a client that keeps its connection open holds up no other for long (RFC 9112, section 9.8).

use crate::network::Stream;
use std::cell::Cell;
use std::io;
use std::io::{ErrorKind, Read, Write};
use std::time::Duration;

/// Where the requests of a connection are read.
#[derive(Drop)]
pub(crate) struct Requests<'a> {
    pub stream: Stream<'a>,
    /// The longest wait for another request.
    pub idle: Duration,
    /// Whether a reply was written since the last read.
    pub has_replied: &'a Cell<bool>,
}

/// Where its replies are written.
#[derive(Drop)]
pub(crate) struct Replies<'a> {
    pub stream: Stream<'a>,
    pub has_replied: &'a Cell<bool>,
}

impl Read for Requests<'_> {
    fn read(&mut self, buf: &mut [u8]) -> io::Result<usize> {
        if !self.has_replied.replace(false) {
            return self.stream.read(buf);
        }
        match self.stream.read_within(buf, self.idle) {
            Err(error) if error.kind() == ErrorKind::WouldBlock => Ok(0),
            done => done,
        }
    }
}

impl Write for Replies<'_> {
    fn write(&mut self, buf: &[u8]) -> io::Result<usize> {
        self.has_replied.set(true);
        self.stream.write(buf)
    }

    fn flush(&mut self) -> io::Result<()> {
        self.stream.flush()
    }
}
