//! Files, as far as the program reads or makes them.
ghost use Rattle.std.specs.Prelude.{ℕ, List, IfErr, OnOk};
ghost use Rattle.as2_evidence.specs.Files.{File, files_of};
ghost use Rattle.as2_host.specs.FileContents.{Content, ReadsFile, front};
ghost use Rattle.as2_host.specs.declared.files.MakingFault.{MakingFault as TheMakingFault};

use as2_evidence::NewFile;
use std::alloc::Global;

/// Why a file gave no bytes.
#[derive(Clone, Copy, Debug, PartialEq, Eq)]
pub enum FileFault {
    /// There is no such file, or it can't be read.
    CannotRead,
    /// There was no memory for its bytes.
    Memory,
}

/// Files that are read. The file system is one, of which nothing is told; a table in memory another.
pub trait ReadFiles {
    // What stands under each path, as far as it is told.
    ghost content: { Self → List ℕ → Content };

    /// All bytes of the file of that path.
    fn read_file(&self, alloc: Global, path: &str) -> Result<Vec<u8>, FileFault>
        ensures { ReadsFile (λ bytes. bytes.items) (content self.now path.now) result };

    /// The first `most` bytes of the file of that path, or all where there are no more.
    fn read_front(&self, alloc: Global, path: &str, most: usize) -> Result<Vec<u8>, FileFault>
        ensures { ReadsFile (λ bytes. bytes.items) (front most (content self.now path.now)) result };
}

/// Why files weren't made.
#[derive(Clone, Copy, Debug, PartialEq, Eq)]
pub enum MakingFault {
    /// Something stands under the name of one already.
    Exists,
    /// One can't be written.
    CannotWrite,
    /// There was no memory for a name.
    Memory,
}

/// Files that are made in a folder, and never over others. The file system is one, of which nothing is told; a table in memory another.
pub trait MakeFiles {
    // asked for these files in that folder, it made each of them, whole; it is as that then
    ghost makes: { Self → List ℕ → List File → Self → Type 0 };

    // asked for these files in that folder, it made none of them, for that fault; it is as that then
    ghost makes_none: { Self → List ℕ → List File → TheMakingFault → Self → Type 0 };

    /// Makes these files in that folder, each of them or none. Exists where something stands under the name of one, be it a link to
    /// nothing. CannotWrite where there is no such folder, or one of them can't be written whole.
    fn make_files(
        &mut self,
        alloc: Global,
        folder: &str,
        files: &[NewFile],
    ) -> Result<(), MakingFault>
        ensures made { OnOk result (makes self.old folder.now (files_of files.now) self.new) }
        ensures none { IfErr result (λ fault. makes_none self.old folder.now (files_of files.now) fault self.new) };
}
