//! Where a station that runs can be asked.

use std::io::ErrorKind;
use std::os::unix::net::UnixStream;
use std::{fs, io};

/// What the path of a store's file has behind it at which its station can be asked.
const END: &str = ".ctl";

/// What the path of a socket that stands elsewhere has behind it for a link to its store's file.
const STORE: &str = ".store";

/// The path of the store's file itself, where links lead. Where no file stands there by now, the path as it is.
fn file_path(rt: &HostRuntime, store: &str) -> io::Result<String> {
    match fs::canonicalize(rt, store) {
        Ok(file) => Ok(String::from_str(rt.alloc(), file.as_str())?),
        Err(_) => Ok(String::from_str(rt.alloc(), store)?),
    }
}

/// The path at which the station over a store can be asked, or of a link to it: beside the store's file itself, where links lead.
pub(crate) fn control_path(rt: &HostRuntime, store: &str) -> io::Result<String> {
    let mut path = file_path(rt, store)?;
    path.push_str(END)?;
    Ok(path)
}

/// The path of the link to its store's file that a socket at that path has which doesn't stand beside the store.
pub(crate) fn store_link_path(rt: &HostRuntime, path: &str) -> io::Result<String> {
    let mut link = String::from_str(rt.alloc(), path)?;
    link.push_str(STORE)?;
    Ok(link)
}

/// Whether the socket at that path is of this store's station, as the link beside the socket says. A station that was killed leaves its
/// link beside the store, and another's station may have taken over the path that it leads to.
fn is_of_store(rt: &HostRuntime, path: &str, store: &str) -> io::Result<bool> {
    let file = file_path(rt, store)?;
    let link = store_link_path(rt, path)?;
    let named = fs::read_link(rt, link.as_str())?;
    Ok(named.as_str() == file.as_str())
}

/// Connects to the station over a store. An error where none runs.
pub fn connect(rt: &HostRuntime, store: &str) -> io::Result<UnixStream> {
    let beside = control_path(rt, store)?;
    let Ok(path) = fs::read_link(rt, beside.as_str()) else {
        return UnixStream::connect(rt, beside.as_str());
    };
    if !is_of_store(rt, path.as_str(), store)? {
        return Err(io::Error::from(ErrorKind::NotFound));
    }
    UnixStream::connect(rt, path.as_str())
}
