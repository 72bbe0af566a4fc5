//! Where the store of a path lies.
ghost use Rattle.std.specs.Prelude.{◌≡◌, ◌++◌, IfOk, string_bytes};
ghost use Rattle.as2_files.specs.Names.{file_name};
ghost use Rattle.as2_files.specs.Stores.{NeedsNoLog};

use crate::file_system::{FileSystem, MEMORY, fault_of};
use as2_host::OpenFault;
use sqlite_disk::{Disk, Files, Unknown};
use std::alloc::{AllocError, Global};
use std::fs;
use std::path::PathBuf;

/// What an address begins with, for SQLite.
const ADDRESS: &[u8] = b"file:";

/// What stands before a path, so that its file has a name and no address.
fn front(path: &str) -> &'static str
    ensures { result.now ++ path.now ≡ file_name path.now }
{
    if path.as_bytes().starts_with(ADDRESS) {
        return "./";
    }
    ""
}

/// The name of the file of that path, with that behind it.
fn named(alloc: Global, path: &str, behind: &str) -> Result<String, AllocError>
    ensures { IfOk result (λ name. string_bytes name ≡ file_name path.now ++ behind.now) }
{
    let mut name = String::new(alloc);
    name.push_str(front(path))?;
    name.push_str(path)?;
    name.push_str(behind)?;
    Ok(name)
}

/// Where a store lies. One is had only of a path under which a store stands, so that no other store's log is taken away.
#[derive(Drop)]
pub(crate) struct Place {
    /// The name of its file.
    name: String,
    /// The file itself, where a link leads.
    real: PathBuf,
    /// The name of its log, which lies beside the file itself.
    log: String,
    /// Whether its log lay there already, before the store was opened.
    had_log: bool,
}

impl Place {
    /// The name of its file.
    pub(crate) fn name(&self) -> &str
        ensures { result.now ≡ string_bytes self.now.name }
    {
        self.name.as_str()
    }

    /// The file itself, where a link leads.
    pub(crate) fn real(&self) -> &str {
        self.real.as_str()
    }

    /// The name of its log.
    pub(crate) fn log(&self) -> &str {
        self.log.as_str()
    }

    /// Whether its log lay there already, before the store was opened: a process that used the store has not closed it.
    pub(crate) fn had_log(&self) -> bool {
        self.had_log
    }
}

impl FileSystem<'_> {
    /// The name of the file of that path.
    pub(crate) fn name(&self, path: &str) -> Result<String, OpenFault>
        ensures { IfOk result (λ name. string_bytes name ≡ file_name path.now) }
    {
        self.beside(path, "")
    }

    /// The same with that behind it.
    pub(crate) fn beside(&self, path: &str, behind: &str) -> Result<String, OpenFault>
        ensures { IfOk result (λ name. string_bytes name ≡ file_name path.now ++ behind.now) }
    {
        match named(self.rt.alloc(), path, behind) {
            Ok(name) => Ok(name),
            Err(_) => Err(MEMORY),
        }
    }

    /// The file that stands under that path, where a link leads.
    fn real(&self, path: &str) -> Result<PathBuf, OpenFault> {
        fs::canonicalize(self.rt, &self.name(path)?).map_err(fault_of)
    }

    /// The name of the log of the store that stands under that path.
    pub(crate) fn log_of(&self, path: &str) -> Result<String, OpenFault> {
        self.beside(self.real(path)?.as_str(), "-wal")
    }

    /// How many bytes the files of the store that stands under that path take: its own, and its log, where they can be seen.
    pub(crate) fn size_of(&self, path: &str) -> u64 {
        let own = self.length_of(self.name(path));
        let log = self.length_of(self.log_of(path));
        own.saturating_add(log)
    }

    /// How many bytes the file of that name has, where it can be seen.
    fn length_of(&self, name: Result<String, OpenFault>) -> u64 {
        let Ok(name) = name else {
            return 0;
        };
        match fs::metadata(self.rt, &name) {
            Ok(found) => found.len(),
            Err(_) => 0,
        }
    }

    /// The place of the store that stands under that path.
    pub(crate) fn place_of(&self, path: &str) -> Result<Place, OpenFault>
        ensures { IfOk result (λ place. string_bytes place.name ≡ file_name path.now) }
    {
        let name = self.name(path)?;
        let real = self.real(path)?;
        let log = self.beside(real.as_str(), "-wal")?;
        let had_log = self.is_there(&log)?;
        Ok(Place {
            name,
            real,
            log,
            had_log,
        })
    }

    /// Takes away the log of the store of that place, which was closed into these files. They do without it, and are locked meanwhile.
    pub(crate) fn remove_log<D: Disk>(&self, place: &Place, _files: &Files<D>)
        requires { NeedsNoLog D.Disk _files.now }
    {
        self.remove(&place.log);
    }

    /// The store of that place couldn't be opened: a log that was begun meanwhile, and holds nothing, is taken away.
    pub(crate) fn leave_no_log(&self, place: &Place) {
        if !place.had_log {
            self.remove_empty_log(place);
        }
    }

    /// Takes away the log of the store of that place if it is empty. It is looked at while the store's files are locked, since no other
    /// process has begun with it then.
    fn remove_empty_log(&self, place: &Place) {
        if !self.is_empty_file(&place.log) {
            return;
        }
        let Ok(files) = sqlite_std_file::open(self.rt, place.real.as_str(), Unknown) else {
            return;
        };
        if self.is_empty_file(&place.log) {
            self.remove(&place.log);
        }
        drop(files);
    }

    /// Whether a file without a byte stands at that name.
    fn is_empty_file(&self, name: &str) -> bool {
        match fs::symlink_metadata(self.rt, name) {
            Ok(found) => found.is_file() && found.len() == 0,
            Err(_) => false,
        }
    }
}
