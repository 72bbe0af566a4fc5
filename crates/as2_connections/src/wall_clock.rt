//! The clock of this machine.

use std::time::SystemTime;

/// The seconds since 1970, where the clock can be read and does not stand before.
pub fn clock(rt: &HostRuntime) -> Option<u64> {
    let now = SystemTime::now(rt).ok()?;
    let since = now.duration_since(SystemTime::UNIX_EPOCH).ok()?;
    Some(since.as_secs())
}
