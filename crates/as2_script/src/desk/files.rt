//! Files in memory: the texts whose names are their paths. A file that is made is noted, and no text.
ghost use Rattle.as2_host.specs.FileContents.{untold};
ghost use Rattle.std.specs.Prelude.{⊤};

use as2_evidence::NewFile;
use as2_host::{FileFault, MakeFiles, MakingFault, ReadFiles};
use script_lines::{Answer, Settings, Trouble, bytes_of};
use std::alloc::{AllocError, Global};
use std::cell::RefCell;

/// The texts of a script, as files.
#[derive(Clone, Copy)]
pub struct Files<'a> {
    pub settings: &'a Settings,
    /// Which files were made.
    pub made: &'a RefCell<Answer>,
}

impl ReadFiles for Files<'_> {
    ghost content = { λ _ _. untold };

    fn read_file(&self, alloc: Global, path: &str) -> Result<Vec<u8>, FileFault> {
        let Some(text) = self.settings.text(path) else {
            return Err(FileFault::CannotRead);
        };
        match bytes_of(alloc, text) {
            Ok(bytes) => Ok(bytes),
            Err(Trouble::Memory) => Err(FileFault::Memory),
            Err(Trouble::Unreadable(_)) => Err(FileFault::CannotRead),
        }
    }

    fn read_front(&self, alloc: Global, path: &str, most: usize) -> Result<Vec<u8>, FileFault> {
        let mut bytes = self.read_file(alloc, path)?;
        bytes.truncate(most);
        Ok(bytes)
    }
}

/// The path of a file in a folder.
fn path_of(alloc: Global, folder: &str, name: &str) -> Result<String, AllocError> {
    format!(in alloc; "{folder}/{name}")
}

impl Files<'_> {
    /// Whether a text stands under the path of one of the files.
    fn has_any(&self, alloc: Global, folder: &str, files: &[NewFile]) -> Result<bool, AllocError> {
        for file in files {
            let path = path_of(alloc, folder, &file.name)?;
            if self.settings.text(&path).is_some() {
                return Ok(true);
            }
        }
        Ok(false)
    }

    /// Notes a file that is made.
    fn note(&self, folder: &str, file: &NewFile) {
        if let Ok(mut made) = self.made.try_borrow_mut() {
            made.say(folder);
            made.say("/");
            made.say(&file.name);
            made.say(", ");
            made.say_number(file.bytes.len() as u64);
            made.say(" bytes\n");
            if let Ok(bytes) = file.bytes.joined() {
                made.say_bytes(&bytes);
            }
        }
    }
}

impl MakeFiles for Files<'_> {
    ghost makes = { λ _ _ _ _. ⊤ };

    ghost makes_none = { λ _ _ _ _ _. ⊤ };

    // the folder `full` takes none
    fn make_files(
        &mut self,
        alloc: Global,
        folder: &str,
        files: &[NewFile],
    ) -> Result<(), MakingFault> {
        if folder == "full" {
            return Err(MakingFault::CannotWrite);
        }
        match self.has_any(alloc, folder, files) {
            Ok(false) => {}
            Ok(true) => return Err(MakingFault::Exists),
            Err(_) => return Err(MakingFault::Memory),
        }
        for file in files {
            self.note(folder, file);
        }
        Ok(())
    }
}
