//! A connection that was accepted.

use crate::bounds::Waits;
use mio::net::TcpStream;

/// How far it is with a connection.
#[derive(Clone, Copy, Debug, PartialEq, Eq)]
pub(crate) enum Phase {
    /// Its requests are read and answered.
    Serving,
    /// All was said that is said to it: what it still sends is thrown away, so that it reads why (RFC 9112, section 9.6).
    Ending,
}

/// What is under way with a connection.
#[derive(Clone, Copy, Debug, PartialEq, Eq)]
pub(crate) enum Under {
    /// Nothing came of another request.
    Idle,
    /// A request came in part.
    Request,
    /// A reply is to be written.
    Reply,
}

/// A connection that was accepted.
#[derive(Drop)]
pub(crate) struct Peer {
    pub stream: TcpStream,
    /// More may have come.
    pub may_read: bool,
    /// The peer sends no more than has come.
    pub has_shut: bool,
    /// All that it sent was read.
    pub is_read_out: bool,
    /// More may be written.
    pub may_write: bool,
    pub phase: Phase,
    /// When the request began that is under way, or the end, in milliseconds.
    pub began: u64,
    /// When bytes last came or went, in milliseconds.
    pub moved: u64,
    /// Up to when its bytes would have come at the least pace, in milliseconds.
    pub paced: u64,
}

impl Peer {
    /// Accepted at this time.
    pub(crate) fn new(stream: TcpStream, now: u64) -> Peer {
        Peer {
            stream,
            may_read: true,
            has_shut: false,
            is_read_out: false,
            may_write: true,
            phase: Phase::Serving,
            began: now,
            moved: now,
            paced: now,
        }
    }

    /// When it is over, where nothing comes or goes until then, in milliseconds.
    pub(crate) fn end(&self, under: Under, waits: Waits) -> u64 {
        if self.phase == Phase::Ending {
            return self.began.saturating_add(waits.wait);
        }
        match under {
            Under::Idle => self.moved.saturating_add(waits.idle),
            Under::Reply => self.moved.saturating_add(waits.wait),
            Under::Request => self
                .moved
                .saturating_add(waits.wait)
                .min(self.began.saturating_add(waits.whole)),
        }
    }
}
