//! Files that are made in a folder, each of them or none.
ghost use Rattle.std.specs.Prelude.{◌≡◌, ◌++◌, IfOk, OnOk, map, string_bytes};
ghost use Rattle.std.specs.Io.KnownBytes.{Appends};
ghost use Rattle.as2_files.specs.Names.{front_of, paths_of};

use crate::file_system::FileSystem;
use as2_evidence::NewFile;
use as2_host::{MakeFiles, MakingFault};
use as2_mic::Pieces;
use std::alloc::{AllocError, Global};
use std::fs::OpenOptions;
use std::hash::{BuildHasher, RandomState};
use std::io::{ErrorKind, Write};
use std::{fs, io};

/// What a failed call of the file system is to files that are made.
fn making_fault(error: io::Error) -> MakingFault {
    match error.kind() {
        ErrorKind::AlreadyExists => MakingFault::Exists,
        ErrorKind::OutOfMemory => MakingFault::Memory,
        _ => MakingFault::CannotWrite,
    }
}

/// What stands between a folder and the name of a file in it. The folder "" is the one that the program runs in.
fn between(folder: &str) -> &'static str
    ensures { folder.now ++ result.now ≡ front_of folder.now }
{
    if folder.is_empty() {
        return "./";
    }
    if folder.as_bytes().ends_with(b"/") {
        return "";
    }
    "/"
}

/// The name of a file in that folder, as the file system knows it.
fn name_in(alloc: Global, folder: &str, file: &str) -> Result<String, AllocError>
    ensures { IfOk result (λ name. string_bytes name ≡ front_of folder.now ++ file.now) }
{
    let mut name = String::new(alloc);
    name.push_str(folder)?;
    name.push_str(between(folder))?;
    name.push_str(file)?;
    Ok(name)
}

/// The names of these files in that folder, in order.
fn names_in(alloc: Global, folder: &str, files: &[NewFile]) -> Result<Vec<String>, AllocError>
    ensures { IfOk result (λ names. map string_bytes names.items ≡ paths_of folder.now files.now) }
{
    let mut names = Vec::new(alloc);
    for file in files {
        names.push(name_in(alloc, folder, &file.name)?)?;
    }
    Ok(names)
}

/// Writes a content, one piece after the other.
fn write_pieces<W: Write>(content: &Pieces, to: &mut W) -> io::Result<()>
    ensures { OnOk result (Appends (W.contents to.old) (W.contents to.new) content.now) }
{
    for i in 0..content.count() {
        if let Some(piece) = content.piece(i) {
            to.write_all(piece)?;
        }
    }
    Ok(())
}

/// Writes a content into a file that was made for it, down to the disk.
fn fill(content: &Pieces, file: &mut fs::File) -> io::Result<()> {
    write_pieces(content, file)?;
    file.sync_all()
}

impl FileSystem<'_> {
    /// Refuses a name that is taken, be it by a link to nothing.
    fn refuse_one(&self, name: &str) -> Result<(), MakingFault> {
        match fs::symlink_metadata(self.rt, name) {
            Ok(_) => Err(MakingFault::Exists),
            Err(error) if error.kind() == ErrorKind::NotFound => Ok(()),
            Err(error) => Err(making_fault(error)),
        }
    }

    /// Refuses names of which one is taken.
    fn refuse_taken(&self, names: &[String]) -> Result<(), MakingFault> {
        for name in names {
            self.refuse_one(name.as_str())?;
        }
        Ok(())
    }

    /// The name under which a file is written before it gets its own: no other process has it.
    fn draft_name(&self, name: &str) -> Result<String, MakingFault> {
        let number = RandomState::new(self.rt)
            .map_err(making_fault)?
            .hash_one(&0u8);
        match format!(in self.rt.alloc(); "{name}.{number}.part") {
            Ok(draft) => Ok(draft),
            Err(_) => Err(MakingFault::Memory),
        }
    }

    /// Writes a file under its draft's name, down to the disk, and gives it its own, which nothing has.
    fn write_draft(&self, draft: &str, name: &str, content: &Pieces) -> Result<(), MakingFault> {
        let mut file = OpenOptions::new()
            .write(true)
            .create_new(true)
            .open(self.rt, draft)
            .map_err(making_fault)?;
        fill(content, &mut file).map_err(making_fault)?;
        self.refuse_one(name)?;
        fs::rename(self.rt, draft, name).map_err(making_fault)
    }

    /// Makes a file of that name, which nothing has. It is whole as soon as it has its name, whatever stops the program. If its content
    /// can't be written whole, no file is left.
    fn make_file(&self, name: &str, content: &Pieces) -> Result<(), MakingFault> {
        let draft = self.draft_name(name)?;
        let made = self.write_draft(draft.as_str(), name, content);
        if made.is_err() {
            self.remove(draft.as_str());
        }
        made
    }

    /// Takes away the files of the first of these names, so many.
    fn remove_first(&self, names: &[String], count: usize) {
        for name in names.iter().take(count) {
            self.remove(name);
        }
    }
}

/// A file is FOLDER/NAME; the folder "" is the one that the program runs in. The bytes of each are on the disk before the next is made; its entry
/// in the folder need not be.
impl MakeFiles for FileSystem<'_> {
    ghost use Rattle.std.specs.Prelude.{⊤};

    ghost makes = { λ it folder files after. ⊤ };

    ghost makes_none = { λ it folder files fault after. ⊤ };

    fn make_files(
        &mut self,
        alloc: Global,
        folder: &str,
        files: &[NewFile],
    ) -> Result<(), MakingFault> {
        let Ok(names) = names_in(alloc, folder, files) else {
            return Err(MakingFault::Memory);
        };
        self.refuse_taken(&names)?;
        for (i, file) in files.iter().enumerate() {
            if let Err(fault) = self.make_file(&names[i], &file.bytes) {
                self.remove_first(&names, i);
                return Err(fault);
            }
        }
        Ok(())
    }
}
