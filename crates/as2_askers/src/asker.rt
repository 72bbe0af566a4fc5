//! Somebody who asks at the control socket: one demand is read, and one outcome is told.

use crate::bounds::{DEMAND, PACE, READS, SILENCE, WAIT};
use as2_control::{MOST_BYTES, StillToCome, awaited};
use mio::net::UnixStream;
use std::alloc::Global;
use std::io::{ErrorKind, Read, Write};
use std::mem;

/// How a read or a write ended.
#[derive(Clone, Copy, Debug, PartialEq, Eq)]
pub(crate) enum Went {
    /// It goes on.
    On,
    /// It is over with whoever asks.
    Over,
}

/// How far it is with somebody who asks.
#[derive(Clone, Copy, Debug, PartialEq, Eq)]
pub(crate) enum Asking {
    /// The demand is read.
    Speaks,
    /// The demand was read, and is to be answered.
    Waits,
    /// The demand is to stop, and is answered once the station has stopped.
    Stops,
    /// The outcome is told.
    Hears,
}

/// Somebody who asks.
#[derive(Drop)]
pub(crate) struct Asker {
    pub stream: UnixStream,
    pub asking: Asking,
    pub may_read: bool,
    pub may_write: bool,
    /// The frame of the demand, as far as it came.
    pub came: Vec<u8>,
    /// The frame of the outcome.
    reply: Vec<u8>,
    /// How many bytes of it went.
    sent: usize,
    /// When bytes last came or went, in milliseconds.
    pub moved: u64,
    /// When the demand began, or the telling of its outcome, in milliseconds.
    pub began: u64,
}

impl Asker {
    /// Connected at this time.
    pub(crate) fn new(alloc: Global, stream: UnixStream, now: u64) -> Asker {
        Asker {
            stream,
            asking: Asking::Speaks,
            may_read: true,
            may_write: true,
            came: Vec::new(alloc),
            reply: Vec::new(alloc),
            sent: 0,
            moved: now,
            began: now,
        }
    }

    /// Reads what came of the demand, and no more than belongs to it.
    pub(crate) fn read(&mut self, buffer: &mut [u8], now: u64) -> Went {
        for _ in 0..READS {
            if !self.may_read || self.asking != Asking::Speaks {
                return Went::On;
            }
            let most = match awaited(&self.came, MOST_BYTES) {
                StillToCome::Bytes(count) => count.min(buffer.len()),
                StillToCome::Whole => {
                    self.asking = Asking::Waits;
                    return Went::On;
                }
                StillToCome::Never => return Went::Over,
            };
            match self.stream.read(&mut buffer[..most]) {
                Ok(0) => return Went::Over,
                Ok(count) => {
                    self.moved = now;
                    if self.came.extend_from_slice(&buffer[..count]).is_err() {
                        return Went::Over;
                    }
                }
                Err(error) if error.kind() == ErrorKind::WouldBlock => self.may_read = false,
                Err(error) if error.kind() == ErrorKind::Interrupted => {}
                Err(_) => return Went::Over,
            }
        }
        Went::On
    }

    /// Takes the frame of its demand. It is to be answered then, or to stop.
    pub(crate) fn take_demand(&mut self, alloc: Global) -> Vec<u8> {
        self.asking = Asking::Stops;
        mem::replace(&mut self.came, Vec::new(alloc))
    }

    /// Whether its time is over: a demand, and the telling of an outcome, has a limit as a whole. Who waits for an answer is waited for.
    pub(crate) fn is_slow(&self, now: u64) -> bool {
        let (wait, whole) = match self.asking {
            Asking::Waits | Asking::Stops => return false,
            Asking::Speaks if self.came.is_empty() => (SILENCE, DEMAND),
            Asking::Speaks => (WAIT, DEMAND),
            Asking::Hears => (WAIT, WAIT.saturating_add(self.reply.len() as u64 / PACE)),
        };
        self.moved.saturating_add(wait) <= now || self.began.saturating_add(whole) <= now
    }

    /// The outcome has this frame.
    pub(crate) fn answer(&mut self, frame: Vec<u8>, now: u64) {
        self.reply = frame;
        self.asking = Asking::Hears;
        self.moved = now;
        self.began = now;
    }

    /// Writes of the outcome what the system takes. Over too once all of it went.
    pub(crate) fn write(&mut self, now: u64) -> Went {
        for _ in 0..READS {
            if !self.may_write || self.asking != Asking::Hears {
                return Went::On;
            }
            let rest = &self.reply[self.sent.min(self.reply.len())..];
            if rest.is_empty() {
                return Went::Over;
            }
            match self.stream.write(rest) {
                Ok(0) => return Went::Over,
                Ok(count) => {
                    self.sent = self.sent.saturating_add(count);
                    self.moved = now;
                }
                Err(error) if error.kind() == ErrorKind::WouldBlock => self.may_write = false,
                Err(error) if error.kind() == ErrorKind::Interrupted => {}
                Err(_) => return Went::Over,
            }
        }
        Went::On
    }
}
