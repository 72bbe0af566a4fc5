//! Streams over connections, whose waits are bounded.
ghost use Rattle.std.specs.Prelude.{◌≡◌, IfOk};
ghost use Rattle.std.specs.Io.{ReadsAtMost};
ghost use Rattle.std.specs.Io.KnownBytes.{ReadConsumes};

use crate::authority::host_and_port;
use crate::limits::Limits;
use std::io;
use std::io::{ErrorKind, Read, Write};
use std::net::{Net, OpenStream, Shutdown, TcpStream, ToSocketAddrs};
use std::time::{Clock, Duration, Instant};

/// How many signals in a row may break off one wait.
const MOST_SIGNALS: u64 = 1_000_000;

/// Since when a connection stands, by a clock, and how long its peer is waited for.
#[derive(Drop)]
struct Timer<'a, C> {
    clock: &'a C,
    opened: Instant,
    limits: Limits,
}

impl<'a, C: Clock> Timer<'a, C> {
    /// It begins now.
    fn start(clock: &'a C, limits: Limits) -> io::Result<Timer<'a, C>>
        ensures { IfOk result (λ timer. timer.limits ≡ limits) }
    {
        let opened = Instant::now(clock)?;
        Ok(Timer {
            clock,
            opened,
            limits,
        })
    }

    /// The same once more.
    fn again(&self) -> Timer<'a, C>
        ensures { result ≡ self.now }
    {
        Timer {
            clock: self.clock,
            opened: self.opened,
            limits: self.limits,
        }
    }

    /// How long the next wait may last, and no longer than `most`; `TimedOut` where the whole is over.
    fn wait(&self, most: Duration) -> io::Result<Duration> {
        match self.limits.left(self.opened.elapsed(self.clock)?) {
            Some(wait) if most < wait => Ok(most),
            Some(wait) => Ok(wait),
            None => Err(io::Error::from(ErrorKind::TimedOut)),
        }
    }
}

/// A stream over a connection. A read or a write that waits longer than the limits allow is an error (`WouldBlock`), and so is
/// each one after the whole of the connection is over (`TimedOut`). One that a signal breaks off waits on, as long as a single wait.
#[derive(Drop)]
pub struct TimedStream<'a, S, C> {
    stream: S,
    timer: Timer<'a, C>,
}

impl<'a, S: OpenStream + Drop, C: Clock> TimedStream<'a, S, C> {
    /// Over a connection that was accepted just now.
    pub fn new(stream: S, clock: &'a C, limits: Limits) -> io::Result<TimedStream<'a, S, C>>
        ensures stream { IfOk result (λ s. s.stream ≡ stream) }
        ensures limits { IfOk result (λ s. s.timer.limits ≡ limits) }
    {
        let timer = Timer::start(clock, limits)?;
        Ok(TimedStream { stream, timer })
    }

    /// Another handle of the same connection, which is over at the same time.
    pub fn try_clone(&self) -> io::Result<TimedStream<'a, S, C>>
        ensures end { IfOk result (λ s. s.timer ≡ self.now.timer) }
    {
        Ok(TimedStream {
            stream: self.stream.try_clone()?,
            timer: self.timer.again(),
        })
    }

    /// Closes the connection once the peer has ended it, a wait or the whole is over: until then what it still sends is read and
    /// thrown away. Closed at once, with bytes unread, the connection would be reset, and the peer could lose the reply that was
    /// written last (RFC 9112, section 9.6).
    pub fn linger(mut self)
    where
        S: Read,
    {
        if self.stream.shutdown(Shutdown::Write).is_err() {
            return;
        }
        let mut thrown_away = [0; 4_096];
        for _ in 0..u64::MAX {
            match self.read(&mut thrown_away) {
                Ok(0) | Err(_) => return,
                Ok(_) => {}
            }
        }
    }
}

impl<'a, S: Read + OpenStream, C: Clock> TimedStream<'a, S, C> {
    /// Reads, and waits for the next bytes no longer than `most`. What is longer is the error `WouldBlock`.
    pub fn read_within(&mut self, buf: &mut [u8], most: Duration) -> io::Result<usize>
        ensures bound { ReadsAtMost result buf.new }
        ensures bytes { ReadConsumes (S.remaining self.old.stream) (S.remaining self.new.stream) result buf.new }
    {
        for _ in 0..MOST_SIGNALS {
            let wait = self.timer.wait(most)?;
            self.stream.set_read_timeout(Some(wait))?;
            match self.stream.read(buf) {
                Err(error) if error.kind() == ErrorKind::Interrupted => {}
                done => return done,
            }
        }
        Err(io::Error::from(ErrorKind::TimedOut))
    }
}

impl<'a, S: Read + OpenStream, C: Clock> Read for TimedStream<'a, S, C> {
    ghost remaining = { λ s. S.remaining s.stream };

    fn read(&mut self, buf: &mut [u8]) -> io::Result<usize> {
        self.read_within(buf, self.timer.limits.wait)
    }
}

impl<'a, S: Write + OpenStream, C: Clock> Write for TimedStream<'a, S, C> {
    ghost contents = { λ s. S.contents s.stream };

    fn write(&mut self, buf: &[u8]) -> io::Result<usize> {
        for _ in 0..MOST_SIGNALS {
            let wait = self.timer.wait(self.timer.limits.wait)?;
            self.stream.set_write_timeout(Some(wait))?;
            match self.stream.write(buf) {
                Err(error) if error.kind() == ErrorKind::Interrupted => {}
                done => return done,
            }
        }
        Err(io::Error::from(ErrorKind::TimedOut))
    }

    fn flush(&mut self) -> io::Result<()> {
        self.stream.flush()
    }
}

/// Opens a connection to the host and port of an authority. Each address of the host is tried until one answers, and none for
/// longer than one wait; the whole of the connection begins with the first of these tries. Looking the host up is not bounded.
/// `InvalidInput` where the authority names no port behind its colon; `NotFound` where the host has no address.
pub fn connect<'a, R: Net + Clock>(
    rt: &'a R,
    authority: &str,
    limits: Limits,
) -> io::Result<TimedStream<'a, R::Stream, R>>
    ensures limits { IfOk result (λ s. s.timer.limits ≡ limits) }
{
    let Some(host_and_port) = host_and_port(authority) else {
        return Err(io::Error::from(ErrorKind::InvalidInput));
    };
    let Ok(addresses) = host_and_port.to_socket_addrs(rt) else {
        return Err(io::Error::from(ErrorKind::NotFound));
    };
    let timer = Timer::start(rt, limits)?;
    let mut last = io::Error::from(ErrorKind::NotFound);
    for address in addresses {
        match TcpStream::connect_timeout(rt, &address, timer.wait(limits.wait)?) {
            Ok(stream) => return Ok(TimedStream { stream, timer }),
            Err(error) => last = error,
        }
    }
    Err(last)
}
