//! Why the files of a store can't be opened. The library that opens them may say only that it couldn't. Then the file system is
//! asked.
ghost use Rattle.std.specs.Prelude.{◌≡◌, ◌⊎◌, ◌≢◌};
ghost use Rattle.as2_exchange.specs.declared.fault.StoreFault.TheVariants.{Refused};
ghost use Rattle.as2_host.specs.declared.stores.OpenFault.TheVariants.{Path, Store};
ghost use Rattle.as2_host.specs.declared.stores.PathFault.{PathFault as TheReason};

use crate::file_system::{FileSystem, fault_of};
use crate::places::Place;
use as2_exchange::StoreFault;
use as2_host::{OpenFault, PathFault};
use std::fs;
use std::io::ErrorKind;
use std::os::unix::fs::MetadataExt;

impl FileSystem<'_> {
    /// Why the file of that name can't be used, if that is so: it is no file, has a second name, or may not be read and written.
    fn file_fault(&self, name: &str) -> Option<PathFault> {
        let found = match fs::metadata(self.rt, name) {
            Ok(found) => found,
            Err(error) => return path_fault(fault_of(error)),
        };
        if !found.is_file() || found.nlink() > 1 {
            return Some(PathFault::NoFile);
        }
        match fs::OpenOptions::new()
            .read(true)
            .write(true)
            .open(self.rt, name)
        {
            Ok(_) => None,
            Err(error) => path_fault(fault_of(error)),
        }
    }

    /// Why no file can be made under that name, if that is so. An empty one is left where none stood and one can be made.
    fn making_fault(&self, name: &str) -> Option<PathFault> {
        match fs::OpenOptions::new()
            .write(true)
            .create_new(true)
            .open(self.rt, name)
        {
            Ok(_) => None,
            Err(error) if error.kind() == ErrorKind::AlreadyExists => self.file_fault(name),
            Err(error) => path_fault(fault_of(error)),
        }
    }

    /// Whether SQLite left a journal with something in it beside the store of that place.
    fn has_journal(&self, place: &Place) -> bool {
        let Ok(name) = self.beside(place.real(), "-journal") else {
            return false;
        };
        match fs::metadata(self.rt, &name) {
            Ok(found) => found.len() > 0,
            Err(_) => false,
        }
    }

    /// Why the store of that place can't be opened, as the file system has it, if it has a reason. Where nothing else is wrong, an empty
    /// log may be left, to be taken away by `leave_no_log`.
    fn reason(&self, place: &Place) -> Option<PathFault> {
        if let Some(fault) = self.file_fault(place.real()) {
            return Some(fault);
        }
        if self.has_journal(place) {
            return Some(PathFault::Journal);
        }
        self.making_fault(place.log())
    }

    /// The fault with the reason that the file system has, where the library said no more than that it refused.
    fn with_reason(&self, place: &Place, fault: OpenFault) -> OpenFault
        ensures same { fault ≢ Store Refused → result ≡ fault }
        ensures reason { fault ≡ Store Refused → (result ≡ fault) ⊎ ((reason : TheReason) × (result ≡ Path reason)) }
    {
        match fault {
            OpenFault::Store(StoreFault::Refused) => match self.reason(place) {
                Some(reason) => OpenFault::Path(reason),
                None => fault,
            },
            _ => fault,
        }
    }

    /// Why the store of that place couldn't be opened: the library's fault, or where it refused, the reason that the file system has. A log
    /// that was begun meanwhile is left only where it holds something.
    pub(crate) fn opening_failed(&self, place: &Place, fault: OpenFault) -> OpenFault
        ensures same { fault ≢ Store Refused → result ≡ fault }
        ensures reason { fault ≡ Store Refused → (result ≡ fault) ⊎ ((reason : TheReason) × (result ≡ Path reason)) }
    {
        let told = self.with_reason(place, fault);
        self.leave_no_log(place);
        told
    }
}

/// The reason that is told with a path, if it is one.
fn path_fault(fault: OpenFault) -> Option<PathFault> {
    match fault {
        OpenFault::Path(reason) => Some(reason),
        _ => None,
    }
}
