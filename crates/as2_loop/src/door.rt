//! Who waits to be accepted.

use crate::bounds::PAUSE;
use mio::net::{TcpListener, TcpStream};
use std::io::ErrorKind;

/// The socket that listens.
#[derive(Drop)]
pub(crate) struct Door {
    socket: Option<TcpListener>,
    /// Somebody may wait.
    pub may_accept: bool,
    /// Until when nobody is accepted, in milliseconds: the system had no descriptor to give.
    pub pause: u64,
    /// The system had no descriptor to give, when somebody was last to be accepted.
    pub is_short: bool,
}

impl Door {
    /// Nobody was accepted yet.
    pub(crate) fn new(socket: TcpListener) -> Door {
        Door {
            socket: Some(socket),
            may_accept: true,
            pause: 0,
            is_short: false,
        }
    }

    /// Somebody may be accepted at this time.
    pub(crate) fn is_open(&self, now: u64) -> bool {
        self.may_accept && self.pause <= now
    }

    /// How long it waits by itself from then on, in milliseconds, where it does.
    pub(crate) fn wait(&self, now: u64) -> Option<u64> {
        if !self.may_accept || self.pause <= now {
            return None;
        }
        Some(self.pause - now)
    }

    /// Nobody is accepted any more, and whoever connects is refused by the system.
    pub(crate) fn shut(&mut self) {
        self.socket = None;
        self.may_accept = false;
        self.is_short = false;
    }

    /// Who waits, if somebody does.
    pub(crate) fn accept(&mut self, now: u64) -> Option<TcpStream> {
        let Some(socket) = &self.socket else {
            self.may_accept = false;
            return None;
        };
        match socket.accept() {
            Ok((stream, _)) => {
                self.is_short = false;
                return Some(stream);
            }
            Err(error) if error.kind() == ErrorKind::WouldBlock => {
                self.may_accept = false;
                self.is_short = false;
            }
            Err(error) if error.kind() == ErrorKind::Interrupted => {}
            Err(_) => {
                self.is_short = true;
                self.pause = now.saturating_add(PAUSE);
            }
        }
        None
    }
}
