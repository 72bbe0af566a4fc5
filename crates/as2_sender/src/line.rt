//! The socket of a link.

use crate::bounds::CONNECT;
use crate::kinds::Kind;
use as2_links::Link;
use as2_sending::LinkFault;
use mio::event::Event;
use mio::net::TcpStream;
use std::io;
use std::io::{ErrorKind, Read, Write};

/// How long a partner is waited for, in milliseconds.
#[derive(Clone, Copy, Debug, PartialEq, Eq)]
pub struct LinkWaits {
    /// For its next byte, and for room to write.
    pub wait: u64,
    /// For its whole answer, from the begin of the connection.
    pub whole: u64,
}

/// How far it is with a link.
#[derive(Clone, Copy, Debug, PartialEq, Eq)]
enum Phase {
    /// Its connection is being made.
    Connecting,
    /// Its connection stands.
    Open,
}

/// What was done at a link.
#[derive(Clone, Copy)]
pub(crate) enum Did {
    /// Nothing: it waits.
    Nothing,
    /// So many bytes were written.
    Wrote(usize),
    /// So many were read.
    Read(usize),
    /// The partner sends no more.
    Ended,
    /// It is over: a whole answer came, or none can come, and then that is why.
    Over(LinkFault),
}

/// The socket of a link.
#[derive(Drop)]
pub(crate) struct Line {
    stream: TcpStream,
    /// The place of the host that it is for.
    pub host: usize,
    /// The kind of what goes over it.
    pub kind: Kind,
    phase: Phase,
    may_read: bool,
    may_write: bool,
    /// It is to be gone on with.
    pub is_marked: bool,
    /// It is over, and its try is to end: a whole answer came, or none can come, and then that is why.
    pub over: Option<LinkFault>,
    began: u64,
    moved: u64,
}

/// What came of a connection that was to be made.
#[derive(Drop)]
pub(crate) enum Dialled {
    /// It begins to be made.
    Line(Line),
    /// There is no address to connect to.
    Nowhere,
    /// It can't be made.
    Failed,
    /// The system has nothing to make it with.
    Wanting,
}

/// Errors of Linux that say that the system has no more descriptors (ENFILE, EMFILE), memory (ENOMEM) or buffers (ENOBUFS).
const WANTING: [i32; 4] = [23, 24, 12, 105];

/// The system has nothing to make a connection with.
pub(crate) fn is_wanting(error: &io::Error) -> bool {
    match error.raw_os_error() {
        Some(number) => WANTING.contains(&number),
        None => false,
    }
}

/// Why no connection came about.
fn connect_fault(error: &io::Error) -> LinkFault {
    match error.kind() {
        ErrorKind::ConnectionRefused => LinkFault::ConnectionRefused,
        _ => LinkFault::NoConnection,
    }
}

impl Line {
    /// A connection that begins to be made.
    pub(crate) fn new(stream: TcpStream, host: usize, kind: Kind, now: u64) -> Line {
        Line {
            stream,
            host,
            kind,
            phase: Phase::Connecting,
            may_read: false,
            may_write: false,
            is_marked: false,
            over: None,
            began: now,
            moved: now,
        }
    }

    /// Notes what the system says of it.
    pub(crate) fn mark(&mut self, event: &Event) {
        let is_broken = event.is_error();
        self.may_read = self.may_read || event.is_readable() || event.is_read_closed() || is_broken;
        self.may_write = self.may_write || event.is_writable() || is_broken;
        self.is_marked = true;
    }

    /// Looks whether the connection stands by now. What is to be done where it doesn't.
    fn connected(&mut self, now: u64) -> Option<Did> {
        if !self.may_write {
            return Some(Did::Nothing);
        }
        match self.stream.take_error() {
            Ok(None) => {}
            Ok(Some(error)) => return Some(Did::Over(connect_fault(&error))),
            Err(_) => return Some(Did::Over(LinkFault::NoConnection)),
        }
        if self.stream.peer_addr().is_err() {
            self.may_write = false;
            return Some(Did::Nothing);
        }
        self.phase = Phase::Open;
        self.moved = now;
        None
    }

    /// Writes some of these bytes.
    fn write(&mut self, bytes: &[u8], now: u64) -> Did {
        if !self.may_write {
            return Did::Nothing;
        }
        match self.stream.write(bytes) {
            Ok(0) => return Did::Over(LinkFault::Broken),
            Ok(count) => {
                self.moved = now;
                return Did::Wrote(count);
            }
            Err(error) if error.kind() == ErrorKind::Interrupted => return Did::Wrote(0),
            Err(error) if error.kind() == ErrorKind::WouldBlock => {}
            Err(_) => return Did::Over(LinkFault::Broken),
        }
        self.may_write = false;
        Did::Nothing
    }

    /// Reads some bytes.
    fn read(&mut self, buffer: &mut [u8], now: u64) -> Did {
        if !self.may_read {
            return Did::Nothing;
        }
        match self.stream.read(buffer) {
            Ok(0) => return Did::Ended,
            Ok(count) => {
                self.moved = now;
                return Did::Read(count);
            }
            Err(error) if error.kind() == ErrorKind::Interrupted => return Did::Read(0),
            Err(error) if error.kind() == ErrorKind::WouldBlock => {}
            Err(_) => return Did::Over(LinkFault::Broken),
        }
        self.may_read = false;
        Did::Nothing
    }

    /// Goes on with the link: one call of its socket at most.
    pub(crate) fn go_on(&mut self, link: &Link, buffer: &mut [u8], now: u64) -> Did {
        if link.is_answered() {
            return Did::Over(LinkFault::NoAnswer);
        }
        if self.phase == Phase::Connecting {
            if let Some(did) = self.connected(now) {
                return did;
            }
        }
        if link.has_sent() {
            self.read(buffer, now)
        } else {
            self.write(link.unsent(), now)
        }
    }

    /// It is over.
    pub(crate) fn is_over(&self) -> bool {
        self.over.is_some()
    }

    /// How long it has stood by that time, in milliseconds.
    pub(crate) fn stood(&self, now: u64) -> u64 {
        now.saturating_sub(self.began)
    }

    /// Looks whether its time is over.
    pub(crate) fn look(&mut self, waits: LinkWaits, now: u64) {
        if self.over.is_none() {
            self.over = self.fault_by(waits, now);
        }
    }

    /// Why it is over by that time, where it is.
    fn fault_by(&self, waits: LinkWaits, now: u64) -> Option<LinkFault> {
        let stood = self.stood(now);
        if self.phase == Phase::Connecting && stood >= CONNECT.min(waits.wait) {
            return Some(LinkFault::NoConnection);
        }
        if stood >= waits.whole {
            return Some(LinkFault::Slow(waits.whole / 1_000));
        }
        if now.saturating_sub(self.moved) >= waits.wait {
            return Some(LinkFault::Silent(waits.wait / 1_000));
        }
        None
    }
}
