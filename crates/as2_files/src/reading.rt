//! Files that are read, up to a limit.
ghost use Rattle.as2_host.specs.FileContents.{untold};

use crate::file_system::FileSystem;
use as2_host::{FileFault, ReadFiles};
use std::alloc::Global;
use std::io::{ErrorKind, Read};

/// The most bytes that a file of agreements may have.
const AGREEMENTS_LIMIT: usize = 2_097_152;

impl ReadFiles for FileSystem<'_> {
    ghost content = { λ _ _. untold };

    fn read_file(&self, alloc: Global, path: &str) -> Result<Vec<u8>, FileFault> {
        let bytes = self.read_front(alloc, path, AGREEMENTS_LIMIT + 1)?;
        if bytes.len() > AGREEMENTS_LIMIT {
            return Err(FileFault::CannotRead);
        }
        Ok(bytes)
    }

    fn read_front(&self, alloc: Global, path: &str, most: usize) -> Result<Vec<u8>, FileFault> {
        let Ok(Some(file)) = self.unwaited(path) else {
            return Err(FileFault::CannotRead);
        };
        let mut bytes = Vec::new(alloc);
        match file.take(most as u64).read_to_end(&mut bytes) {
            Ok(_) => Ok(bytes),
            Err(error) if error.kind() == ErrorKind::OutOfMemory => Err(FileFault::Memory),
            Err(_) => Err(FileFault::CannotRead),
        }
    }
}
