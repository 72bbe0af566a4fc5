//! The socket at which a station can be asked: a file that is its owner's alone from the first moment at which it can be connected
//! to.

use crate::finding::{control_path, store_link_path};
use mio::net::UnixListener;
use std::alloc::Global;
use std::io::ErrorKind;
use std::os::unix::fs::{FileTypeExt, PermissionsExt, symlink};
use std::os::unix::net::UnixStream;
use std::{fs, io};

/// Who may use it: its owner.
const MODE: u32 = 0o600;

/// How many that connected before the mode was set are sent away.
const EARLY: u32 = 100_000;

/// What a path has behind it while something is made that is to stand there.
const DRAFT: &str = ".new";

/// Links between a socket that stands elsewhere and its store.
#[derive(Drop)]
struct Links {
    /// The path beside the store that leads to the socket.
    to_socket: String,
    /// The path beside the socket that leads to the store's file.
    to_store: String,
}

/// The control socket, the path at which it stands, and the paths of the links, where they are made.
#[derive(Drop)]
pub struct Control {
    pub(crate) socket: UnixListener,
    path: String,
    links: Option<Links>,
}

/// Whether a socket or a link may be made at a path: nothing stands there, or a socket or a link of an earlier station.
fn is_free(rt: &HostRuntime, path: &str) -> bool {
    match fs::symlink_metadata(rt, path) {
        Ok(found) => found.file_type().is_socket() || found.file_type().is_symlink(),
        Err(error) => error.kind() == ErrorKind::NotFound,
    }
}

/// The path that what is to stand at a path is made under first.
fn draft_of(rt: &HostRuntime, path: &str) -> io::Result<String> {
    let mut draft = String::from_str(rt.alloc(), path)?;
    draft.push_str(DRAFT)?;
    if !is_free(rt, path) || !is_free(rt, draft.as_str()) {
        return Err(io::Error::from(ErrorKind::AlreadyExists));
    }
    let _ = fs::remove_file(rt, draft.as_str());
    Ok(draft)
}

/// Whether a station answers at the socket of that path.
fn is_answered(rt: &HostRuntime, path: &str) -> bool {
    match fs::symlink_metadata(rt, path) {
        Ok(found) => found.file_type().is_socket() && UnixStream::connect(rt, path).is_ok(),
        Err(_) => false,
    }
}

/// A listening socket in a file of that path. Whoever connected to it before it was its owner's alone is sent away.
fn listen_at(rt: &HostRuntime, path: &str) -> io::Result<UnixListener> {
    if is_answered(rt, path) {
        return Err(io::Error::from(ErrorKind::AddrInUse));
    }
    let draft = draft_of(rt, path)?;
    let socket = UnixListener::bind(rt, draft.as_str())?;
    fs::set_permissions(rt, draft.as_str(), fs::Permissions::from_mode(MODE))?;
    for _ in 0..EARLY {
        match socket.accept() {
            Ok(_) => {}
            Err(error) if error.kind() == ErrorKind::Interrupted => {}
            Err(_) => break,
        }
    }
    fs::rename(rt, draft.as_str(), path)?;
    Ok(socket)
}

/// Makes a link of that path to the file at `to`.
fn link_at(rt: &HostRuntime, path: &str, to: &str) -> io::Result<()> {
    let to = fs::canonicalize(rt, to)?;
    let draft = draft_of(rt, path)?;
    symlink(rt, to.as_str(), draft.as_str())?;
    fs::rename(rt, draft.as_str(), path)
}

impl Control {
    /// Makes the socket for a store that is open: at `wanted`, and links from the store to it and back; or beside the store, where none
    /// is wanted. An error `AddrInUse` where a station answers at that path, `AlreadyExists` where something else stands there, or that of the
    /// system.
    pub fn make(rt: &HostRuntime, store: &str, wanted: Option<&str>) -> io::Result<Control> {
        let beside = control_path(rt, store)?;
        let Some(wanted) = wanted else {
            return Ok(Control {
                socket: listen_at(rt, beside.as_str())?,
                path: beside,
                links: None,
            });
        };
        let socket = listen_at(rt, wanted)?;
        let to_store = store_link_path(rt, wanted)?;
        link_at(rt, to_store.as_str(), store)?;
        link_at(rt, beside.as_str(), wanted)?;
        Ok(Control {
            socket,
            path: String::from_str(rt.alloc(), wanted)?,
            links: Some(Links {
                to_socket: beside,
                to_store,
            }),
        })
    }

    /// Takes the socket and the links away.
    pub(crate) fn remove(self, rt: &HostRuntime) {
        let Control { path, links, .. } = self;
        let _ = fs::remove_file(rt, path.as_str());
        if let Some(links) = links {
            let _ = fs::remove_file(rt, links.to_socket.as_str());
            let _ = fs::remove_file(rt, links.to_store.as_str());
        }
    }
}
