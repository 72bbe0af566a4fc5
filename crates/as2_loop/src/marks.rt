//! Which file stands at a path.

use std::os::unix::fs::MetadataExt;
use std::{fs, io};

/// What tells a file from every other one, as long as it is open: the number of its device, and its own there.
#[derive(Clone, Copy, Debug, PartialEq, Eq)]
pub(crate) struct FileMark {
    device: u64,
    number: u64,
}

impl FileMark {
    /// The mark of the file at that path. An error where none stands there.
    pub(crate) fn of(rt: &HostRuntime, path: &str) -> io::Result<FileMark> {
        let found = fs::metadata(rt, path)?;
        Ok(FileMark {
            device: found.dev(),
            number: found.ino(),
        })
    }
}
