//! The file system: stores are looked at before they are opened, made under another name and then given their own, and closed
//! into their one file.
ghost use Rattle.std.specs.Prelude.{◌≡◌, IfOk, string_bytes};
ghost use Rattle.as2_files.specs.Names.{file_name};

use crate::closing::{opening_fault, with_tables};
use crate::fronts::{PAGE, Seen, has_mark, lists_no_meta, may_be_store};
use crate::places::Place;
use as2_commands::FirstNumber;
use as2_exchange::StoreFault;
use as2_host::{OpenFault, PathFault};
use sqlite::{Connection, Options};
use sqlite_disk::Disk;
use sqlite_std_file::{OpenError, Unknown};
use std::alloc::Global;
use std::hash::{BuildHasher, RandomState};
use std::io::{ErrorKind, Read};
use std::{fs, io};

pub(crate) const MEMORY: OpenFault = OpenFault::Store(StoreFault::Memory);

const DISK: OpenFault = OpenFault::Store(StoreFault::Disk);

/// The file system.
#[derive(Clone, Copy)]
pub struct FileSystem<'a> {
    pub rt: &'a HostRuntime,
}

/// What a failed call of the file system is to a store.
pub(crate) fn fault_of(error: io::Error) -> OpenFault {
    let fault = match error.kind() {
        ErrorKind::OutOfMemory => return MEMORY,
        ErrorKind::NotFound | ErrorKind::NotADirectory => PathFault::NoFolder,
        ErrorKind::PermissionDenied | ErrorKind::ReadOnlyFilesystem => PathFault::NoRight,
        ErrorKind::IsADirectory | ErrorKind::FilesystemLoop | ErrorKind::Unsupported => {
            PathFault::NoFile
        }
        ErrorKind::StorageFull | ErrorKind::QuotaExceeded => PathFault::NoRoom,
        _ => PathFault::Other,
    };
    OpenFault::Path(fault)
}

/// Why files can't be had.
fn unlocked(error: OpenError) -> OpenFault {
    match error {
        OpenError::Busy => OpenFault::Held,
        OpenError::OutOfMemory => MEMORY,
        OpenError::Io(error) => fault_of(error),
        OpenError::HotJournal => OpenFault::Path(PathFault::Journal),
    }
}

impl FileSystem<'_> {
    /// Whether something stands at that name, be it a link to nothing.
    pub(crate) fn is_there(&self, name: &str) -> Result<bool, OpenFault> {
        match fs::symlink_metadata(self.rt, name) {
            Ok(_) => Ok(true),
            Err(error) if error.kind() == ErrorKind::NotFound => Ok(false),
            Err(error) => Err(fault_of(error)),
        }
    }

    /// Takes a file away; what isn't there needs no taking away.
    pub(crate) fn remove(&self, name: &str) {
        let _ = fs::remove_file(self.rt, name);
    }

    /// A random number, for the salts of a log.
    fn seed(&self) -> Result<u64, OpenFault> {
        Ok(RandomState::new(self.rt).map_err(fault_of)?.hash_one(&0u8))
    }

    /// The file of that name, for reading. None where a pipe, a device or a socket stands there, since opening or reading it might
    /// wait for ever.
    pub(crate) fn unwaited(&self, name: &str) -> io::Result<Option<fs::File>> {
        let found = fs::metadata(self.rt, name)?;
        if found.is_file() || found.is_dir() {
            return Ok(Some(fs::File::open(self.rt, name)?));
        }
        Ok(None)
    }

    /// What stands under that path: a database where the file begins with SQLite's mark, and may be a store.
    fn look(&self, path: &str) -> Result<Seen, OpenFault> {
        let file = match self.unwaited(self.name(path)?.as_str()) {
            Ok(Some(file)) => file,
            Ok(None) => return Ok(Seen::Other),
            Err(error) if error.kind() == ErrorKind::NotFound => return Ok(Seen::Nothing),
            Err(error) => return Err(fault_of(error)),
        };
        let mut front = Vec::new(self.rt.alloc());
        file.take(PAGE as u64)
            .read_to_end(&mut front)
            .map_err(fault_of)?;
        if !has_mark(&front) {
            return Ok(Seen::Other);
        }
        if lists_no_meta(&front) && !self.is_there(&self.log_of(path)?)? {
            return Ok(Seen::Other);
        }
        Ok(Seen::Database)
    }

    /// Whether a store may stand under that path.
    fn is_store(&self, path: &str) -> Result<bool, OpenFault> {
        may_be_store(self.look(path)?).map_err(OpenFault::Store)
    }

    /// Makes a store whole under that path, and closes it; whether it was made, and nothing stood there by now.
    fn make_closed(
        &self,
        alloc: Global,
        path: &str,
        first: FirstNumber,
    ) -> Result<bool, OpenFault> {
        let name = self.name(path)?;
        let draft = self.beside(path, ".new")?;
        let draft_log = self.beside(path, ".new-wal")?;
        let mut files = match sqlite_std_file::open(self.rt, &draft, Unknown) {
            Ok(files) => files,
            Err(error) => return Err(unlocked(error)),
        };
        if self.is_there(&name)? {
            self.remove(&draft_log);
            self.remove(&draft);
            return Ok(false);
        }
        files.log.set_len(0).map_err(|_| DISK)?;
        files.db.set_len(0).map_err(|_| DISK)?;
        let options = Options::new(self.seed()?);
        let files = match Connection::open_files_with(alloc, files, options, true) {
            Ok(conn) => with_tables(conn, first)?,
            Err((error, _)) => return Err(opening_fault(error)),
        };
        self.remove(&draft_log);
        fs::rename(self.rt, &draft, &name).map_err(fault_of)?;
        drop(files);
        Ok(true)
    }

    /// Refuses a log that lies where no store stands: one that was made there would take it for its own.
    fn refuse_lone_log(&self, path: &str) -> Result<(), OpenFault> {
        if self.is_there(&self.beside(path, "-wal")?)? && !self.is_store(path)? {
            return Err(OpenFault::LogAlone);
        }
        Ok(())
    }

    /// Sees that a store stands under that path: where nothing does, one is made that begins with `first`. Gives its place.
    pub(crate) fn make_sure(
        &self,
        alloc: Global,
        path: &str,
        first: FirstNumber,
    ) -> Result<Place, OpenFault>
        ensures { IfOk result (λ place. string_bytes place.name ≡ file_name path.now) }
    {
        if self.is_store(path)? {
            return self.place_of(path);
        }
        self.refuse_lone_log(path)?;
        if self.make_closed(alloc, path, first)? || self.is_store(path)? {
            return self.place_of(path);
        }
        // (what stands there can't be seen: a link to nothing)
        Err(OpenFault::Path(PathFault::NoFile))
    }

    /// The place of the store of that path, where one may stand under it. NotAStore where nothing does.
    pub(crate) fn find(&self, path: &str) -> Result<Place, OpenFault>
        ensures { IfOk result (λ place. string_bytes place.name ≡ file_name path.now) }
    {
        if self.is_store(path)? {
            return self.place_of(path);
        }
        Err(OpenFault::Store(StoreFault::NotAStore))
    }
}
