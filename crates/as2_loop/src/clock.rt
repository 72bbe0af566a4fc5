//! The time of the loop, and that of the world.

use as2_text::Moment;
use std::io;
use std::time::{Instant, SystemTime};

/// Milliseconds since the loop began, as they were read last.
#[derive(Drop)]
pub(crate) struct Watch {
    began: Instant,
    pub now: u64,
}

impl Watch {
    /// It begins.
    pub(crate) fn start(rt: &HostRuntime) -> io::Result<Watch> {
        Ok(Watch {
            began: Instant::now(rt)?,
            now: 0,
        })
    }

    /// Reads the clock.
    pub(crate) fn read(&mut self, rt: &HostRuntime) -> io::Result<()> {
        let since = self.began.elapsed(rt)?;
        self.now = u64::try_from(since.as_millis()).unwrap_or(u64::MAX);
        Ok(())
    }
}

/// The seconds since 1970, where the clock tells them.
pub(crate) fn told_seconds(rt: &HostRuntime) -> Option<u64> {
    let now = SystemTime::now(rt).ok()?;
    let since = now.duration_since(SystemTime::UNIX_EPOCH).ok()?;
    Some(since.as_secs())
}

/// The moments of a station.
#[derive(Drop)]
pub(crate) struct Moments {
    rt: HostRuntime,
    given: Option<Moment>,
    last: Moment,
}

impl Moments {
    /// Always this one, where one is given; else those of the clock. Before it tells one it is `first`.
    pub(crate) fn new(rt: &HostRuntime, given: Option<Moment>, first: Moment) -> Moments {
        Moments {
            rt: *rt,
            given,
            last: first,
        }
    }

    /// The moment. Where the clock tells none it is the one before.
    pub(crate) fn now(&mut self) -> Moment {
        let told = match self.given {
            Some(moment) => Some(moment),
            None => told_seconds(&self.rt).and_then(Moment::new),
        };
        if let Some(moment) = told {
            self.last = moment;
        }
        self.last
    }
}
