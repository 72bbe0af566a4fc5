//! The files that a command makes, each a name and a content.
ghost use Rattle.std.specs.Prelude.{◌≡◌, ℕ, ◌+◌, ◌^◌, ◌<◌, ◌++◌, List, IfNone, IfOk, IfSome, IsTrue, IsUtf8, OnOk, false, length, map};
ghost use Rattle.as2_control.specs.Outcomes.{AreFiles, FileValue, file_text, file_value, files_text, part_value};

use crate::fields::{first_field, put_field, room_behind};
use crate::words::made_word;
use std::alloc::{AllocError, Global};

/// A file that a command makes, in a folder of whoever typed it.
#[derive(Drop)]
pub struct MadeFile {
    /// Its name.
    pub name: String,
    /// Its bytes.
    pub content: Vec<u8>,
}

/// A file within a text, and what stands behind it.
#[derive(Clone, Copy)]
pub(crate) struct FilePart<'a> {
    name: &'a [u8],
    content: &'a [u8],
    behind: &'a [u8],
}

/// The first file of a text. None: the text begins with no file.
fn first_file(text: &[u8]) -> Option<FilePart<'_>>
    ensures found { IfSome result (λ part. text.now ≡ file_text (part_value part) ++ part.behind.now) }
    ensures none { IfNone result ((file : FileValue) (rest : List ℕ) → length (file_text file) < 2 ^ 32
        → ¬ (text.now ≡ file_text file ++ rest)) }
{
    let (name, rest) = first_field(text)?;
    let (content, behind) = first_field(rest)?;
    Some(FilePart {
        name,
        content,
        behind,
    })
}

/// What is left of a room behind files. None: they don't fit into it.
pub(crate) fn room_behind_files(room: u32, files: &[MadeFile]) -> Option<u32>
    ensures left { IfSome result (λ left. left + length (files_text (map file_value files.now)) ≡ room) }
    ensures none { IfNone result (room < length (files_text (map file_value files.now))) }
{
    let mut left = room;
    for file in files {
        left = room_behind(left, file.name.as_bytes())?;
        left = room_behind(left, file.content.as_slice())?;
    }
    Some(left)
}

/// Appends files to a text.
pub(crate) fn put_files(text: &mut Vec<u8>, files: &[MadeFile]) -> Result<(), AllocError>
    requires { length (files_text (map file_value files.now)) < 2 ^ 32 }
    ensures { OnOk result (text.new.items ≡ text.old.items ++ files_text (map file_value files.now)) }
{
    for file in files {
        put_field(text, file.name.as_bytes())?;
        put_field(text, file.content.as_slice())?;
    }
    Ok(())
}

/// Whether a text is files.
pub(crate) fn is_files(text: &[u8]) -> bool
    requires { length text.now < 2 ^ 32 }
    ensures yes { IsTrue result → (files : List FileValue) × AreFiles text.now files }
    ensures no { result ≡ false → (files : List FileValue) → ¬ AreFiles text.now files }
{
    let mut rest = text;
    while let Some(part) = first_file(rest) {
        if str::from_utf8(part.name).is_err() {
            return false;
        }
        rest = part.behind;
    }
    rest.is_empty()
}

/// The file of a part.
fn made_file(alloc: Global, name: &[u8], content: &[u8]) -> Result<MadeFile, AllocError>
    requires { IsUtf8 name.now }
    ensures { IfOk result (λ file. file_value file ≡ record { name = name.now; content = content.now }) }
{
    Ok(MadeFile {
        name: made_word(alloc, name)?,
        content: Vec::from_slice(alloc, content)?,
    })
}

/// The files of a text that is files.
pub(crate) fn read_files(alloc: Global, text: &[u8]) -> Result<Vec<MadeFile>, AllocError>
    requires short { length text.now < 2 ^ 32 }
    requires files { (files : List FileValue) × AreFiles text.now files }
    ensures { IfOk result (λ files. AreFiles text.now (map file_value files.items)) }
{
    let mut files = Vec::new(alloc);
    let mut rest = text;
    while let Some(part) = first_file(rest) {
        files.push(made_file(alloc, part.name, part.content)?)?;
        rest = part.behind;
    }
    Ok(files)
}
