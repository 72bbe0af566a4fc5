//! All who ask at the control socket.

use crate::asker::{Asker, Asking, Went};
use crate::bounds::{ACCEPTS, LOOK, SEATS};
use crate::control::Control;
use as2_control::{FrameFault, Outcome, outcome_frame};
use mio::event::Event;
use mio::net::UnixStream;
use mio::{Interest, Registry, Token};
use std::alloc::Global;
use std::io;
use std::io::{ErrorKind, Write};

/// The token of the control socket.
const CONTROL: Token = Token(usize::MAX - 1);

/// The token of the first who asks; those of the others stand behind it.
const FIRST: usize = usize::MAX - 1 - SEATS;

/// The control socket, and who asks at it.
#[derive(Drop)]
pub struct Askers {
    control: Control,
    may_accept: bool,
    /// The system had no connection to give.
    is_held_up: bool,
    seats: Vec<Option<Asker>>,
    /// When the seats were last gone through, in milliseconds.
    went: u64,
}

/// The seat of a token, where it is that of somebody who asks.
fn seat_of(token: Token) -> Option<usize> {
    if token.0 < FIRST || token.0 >= FIRST + SEATS {
        return None;
    }
    Some(token.0 - FIRST)
}

/// What was asked at a seat: the frame of the demand.
#[derive(Drop)]
pub struct Asked {
    /// The seat.
    pub seat: usize,
    /// The frame of the demand, as it came.
    pub frame: Vec<u8>,
}

impl Askers {
    /// At this socket nobody has asked yet. An error where there is no memory for the seats.
    pub fn new(alloc: Global, control: Control) -> io::Result<Askers> {
        let mut seats = Vec::new(alloc);
        for _ in 0..SEATS {
            seats.push(None)?;
        }
        Ok(Askers {
            control,
            may_accept: true,
            is_held_up: false,
            seats,
            went: 0,
        })
    }

    /// Has the system tell of the control socket.
    pub fn register(&mut self, registry: &Registry) -> io::Result<()> {
        registry.register(&mut self.control.socket, CONTROL, Interest::READABLE)
    }

    /// Notes what the system says of the control socket, or of a seat. False where it says nothing of these.
    pub fn mark(&mut self, event: &Event) -> bool {
        if event.token() == CONTROL {
            self.may_accept = true;
            return true;
        }
        let Some(seat) = seat_of(event.token()) else {
            return false;
        };
        if let Some(Some(asker)) = self.seats.get_mut(seat) {
            asker.may_read = true;
            asker.may_write = true;
        }
        true
    }

    /// A seat that nobody has.
    fn free_seat(&self) -> Option<usize> {
        self.seats.iter().position(|seat| seat.is_none())
    }

    /// Who waits, if somebody does. Where the system has no connection to give it is tried again in the next turn.
    fn accept_one(&mut self) -> Option<UnixStream> {
        match self.control.socket.accept() {
            Ok((stream, _)) => {
                self.is_held_up = false;
                return Some(stream);
            }
            Err(error) if error.kind() == ErrorKind::WouldBlock => self.may_accept = false,
            Err(_) => self.is_held_up = true,
        }
        None
    }

    /// Accepts who waits, as far as there are seats. `now` is in milliseconds, here and below.
    pub fn accept(&mut self, alloc: Global, registry: &Registry, now: u64) {
        for _ in 0..ACCEPTS {
            if !self.may_accept {
                return;
            }
            let Some(at) = self.free_seat() else {
                return;
            };
            let Some(stream) = self.accept_one() else {
                return;
            };
            let mut stream = stream;
            let interest = Interest::READABLE | Interest::WRITABLE;
            let token = Token(FIRST.saturating_add(at));
            if registry.register(&mut stream, token, interest).is_err() {
                return;
            }
            if let Some(seat) = self.seats.get_mut(at) {
                *seat = Some(Asker::new(alloc, stream, now));
            }
        }
    }

    /// How long the station was busy since it last looked at who asks, in milliseconds. Nobody is slow for that.
    fn busy_since(&mut self, now: u64) -> u64 {
        let since = now.saturating_sub(self.went);
        self.went = now;
        since.saturating_sub(LOOK)
    }

    /// Reads and writes at each seat, and lets those go who are done, broken, or too slow.
    pub fn go_on(&mut self, buffer: &mut [u8], now: u64) {
        let busy = self.busy_since(now);
        for seat in &mut self.seats {
            let Some(asker) = seat else {
                continue;
            };
            asker.began = asker.began.saturating_add(busy);
            let is_over = asker.read(buffer, now) == Went::Over || asker.write(now) == Went::Over;
            if is_over || asker.is_slow(now) {
                *seat = None;
            }
        }
    }

    /// Somebody waits for an answer, or has more to say or to hear at once.
    pub fn has_more(&self) -> bool {
        if self.may_accept && !self.is_held_up && self.free_seat().is_some() {
            return true;
        }
        self.seats.iter().any(|seat| match seat {
            Some(asker) => match asker.asking {
                Asking::Speaks => asker.may_read,
                Asking::Waits => true,
                Asking::Stops => false,
                Asking::Hears => asker.may_write,
            },
            None => false,
        })
    }

    /// The seat of the one who has waited longest.
    fn longest(&self) -> Option<usize> {
        let mut longest = None;
        let mut first = u64::MAX;
        for at in 0..self.seats.len() {
            if let Some(Some(asker)) = self.seats.get(at) {
                if asker.asking == Asking::Waits && asker.moved < first {
                    first = asker.moved;
                    longest = Some(at);
                }
            }
        }
        longest
    }

    /// What the one asked who has waited longest.
    pub fn next_asked(&mut self, alloc: Global) -> Option<Asked> {
        let at = self.longest()?;
        let Some(Some(asker)) = self.seats.get_mut(at) else {
            return None;
        };
        Some(Asked {
            seat: at,
            frame: asker.take_demand(alloc),
        })
    }

    /// Tells the outcome at a seat by its frame.
    pub fn answer(&mut self, seat: usize, frame: Vec<u8>, now: u64) {
        if let Some(Some(asker)) = self.seats.get_mut(seat) {
            asker.answer(frame, now);
        }
    }

    /// Lets the one at a seat go.
    pub fn let_go(&mut self, seat: usize) {
        if let Some(seat) = self.seats.get_mut(seat) {
            *seat = None;
        }
    }

    /// Takes the control socket away, and tells those who asked to stop that the station has stopped.
    pub fn end(self, rt: &HostRuntime) {
        let Askers { control, seats, .. } = self;
        control.remove(rt);
        let Ok(frame) = stopped_frame(rt.alloc()) else {
            return;
        };
        for seat in seats {
            let Some(asker) = seat else {
                continue;
            };
            if asker.asking == Asking::Stops {
                let mut stream = asker.stream;
                let _ = stream.write(&frame);
            }
        }
    }
}

/// The outcome of `stop`: nothing is printed.
fn stopped_frame(alloc: Global) -> Result<Vec<u8>, FrameFault> {
    outcome_frame(
        alloc,
        &Outcome {
            status: 0,
            output: Vec::new(alloc),
            errors: Vec::new(alloc),
            files: Vec::new(alloc),
        },
    )
}
