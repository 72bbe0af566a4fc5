//! The files that came with a command, and those that it makes.
ghost use Rattle.std.specs.Prelude.{◌≡◌, ◌++◌, IfOk, OnOk};
ghost use Rattle.as2_evidence.specs.Files.{file_of, files_of};
ghost use Rattle.as2_lent.specs.Sent.{made_file, made_files, sent_bytes};

use as2_control::MadeFile;
use as2_evidence::NewFile;
use as2_host::{FileFault, MakeFiles, MakingFault, ReadFiles};
use as2_text::Memory;
use std::alloc::Global;

/// The files that a command reads are those that came with it: the agreements, and the document of a submission. What it makes is kept,
/// for whoever typed it.
#[derive(Drop)]
pub(crate) struct SentFiles<'a> {
    pub agreements_path: &'a str,
    pub agreements: &'a [u8],
    pub content: &'a [u8],
    pub made: Vec<MadeFile>,
}

impl<'a> SentFiles<'a> {
    /// The bytes that stand under a path.
    fn bytes(&self, path: &str) -> &'a [u8]
        ensures { result.now ≡ sent_bytes self.now path.now }
    {
        if path == self.agreements_path {
            return self.agreements;
        }
        self.content
    }
}

impl ReadFiles for SentFiles<'_> {
    ghost use Rattle.as2_host.specs.FileContents.{file};
    ghost use Rattle.as2_lent.specs.Sent.{sent_bytes};

    ghost content = { λ f path. file (sent_bytes f path) };

    fn read_file(&self, alloc: Global, path: &str) -> Result<Vec<u8>, FileFault> {
        match Vec::from_slice(alloc, self.bytes(path)) {
            Ok(bytes) => Ok(bytes),
            Err(_) => Err(FileFault::Memory),
        }
    }

    fn read_front(&self, alloc: Global, path: &str, most: usize) -> Result<Vec<u8>, FileFault> {
        let bytes = self.bytes(path);
        match Vec::from_slice(alloc, &bytes[..most.min(bytes.len())]) {
            Ok(bytes) => Ok(bytes),
            Err(_) => Err(FileFault::Memory),
        }
    }
}

/// The same file, for whoever makes it.
fn to_be_made(file: &NewFile) -> Result<MadeFile, Memory>
    ensures { IfOk result (λ made. made_file made ≡ file_of file.now) }
{
    Ok(MadeFile {
        name: file.name.clone()?,
        content: file.bytes.joined()?,
    })
}

impl SentFiles<'_> {
    /// Keeps these files.
    fn keep(&mut self, files: &[NewFile]) -> Result<(), Memory>
        ensures read { (self.new.agreements_path ≡ self.old.agreements_path)
            × (self.new.agreements ≡ self.old.agreements) × (self.new.content ≡ self.old.content) }
        ensures made { OnOk result (made_files self.new.made.items ≡ made_files self.old.made.items ++ files_of files.now) }
    {
        for file in files {
            self.made.push(to_be_made(file)?)?;
        }
        Ok(())
    }
}

impl MakeFiles for SentFiles<'_> {
    ghost use Rattle.std.specs.Prelude.{◌≡◌, ◌++◌, ⊤};
    ghost use Rattle.as2_lent.specs.Sent.{made_files};

    ghost makes = { λ old folder files new. made_files new.made.items ≡ made_files old.made.items ++ files };

    ghost makes_none = { λ _ _ _ _ _. ⊤ };

    fn make_files(
        &mut self,
        _alloc: Global,
        _folder: &str,
        files: &[NewFile],
    ) -> Result<(), MakingFault> {
        match self.keep(files) {
            Ok(()) => Ok(()),
            Err(_) => Err(MakingFault::Memory),
        }
    }
}
