//! How long a peer is waited for.
ghost use Rattle.std.specs.Prelude.{◌≡◌, ◌*◌, min, option_map};
ghost use Rattle.std.specs.Duration.{as_nanos, max_nanos};
ghost use Rattle.as2_sockets.specs.Waits.{nanoseconds, wait_left};

use std::time::Duration;

/// How many single waits the whole of a connection may last.
const WAITS: u32 = 10;

/// How long a peer is waited for.
#[derive(Clone, Copy, Debug, PartialEq, Eq)]
pub struct Limits {
    /// The longest single wait: for a connection to be made, for the next bytes, for room to write.
    pub wait: Duration,
    /// After how long a connection as a whole is over.
    pub whole: Duration,
}

impl Limits {
    /// Single waits of so many seconds, and ten times that for the whole.
    pub fn of_seconds(seconds: u64) -> Limits
        ensures wait { as_nanos result.wait ≡ nanoseconds seconds }
        ensures whole { as_nanos result.whole ≡ min (10 * nanoseconds seconds) max_nanos }
    {
        let wait = Duration::from_secs(seconds);
        Limits {
            wait,
            whole: wait.saturating_mul(WAITS),
        }
    }

    /// How long the next wait may last, so long after the connection began. None where nothing is left. A wait of no
    /// length is never given, since a socket takes it for one without an end.
    pub fn left(&self, elapsed: Duration) -> Option<Duration>
        ensures { option_map as_nanos result
            ≡ wait_left (as_nanos self.now.wait) (as_nanos self.now.whole) (as_nanos elapsed) }
    {
        let left = self.whole.saturating_sub(elapsed);
        let wait = if left < self.wait { left } else { self.wait };
        if wait.is_zero() { None } else { Some(wait) }
    }
}
