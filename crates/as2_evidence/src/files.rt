//! Files that are to be made.
ghost use Rattle.std.specs.Prelude.{◌≡◌, ◌++◌, [], ◌∷◌, IfOk, OnOk};
ghost use Rattle.as2_evidence.specs.Evidence.{files_named, file_named, receipt_files};
ghost use Rattle.as2_evidence.specs.Files.{files_of};

use as2_mic::Pieces;
use as2_text::Memory;
use std::alloc::Global;

/// A file that is to be made.
#[derive(Drop)]
pub struct NewFile {
    /// Its name in a folder.
    pub name: String,
    /// Its bytes.
    pub bytes: Pieces,
}

/// Appends a file of that name and end. Memory where it runs out.
fn add_file(
    alloc: Global,
    files: &mut Vec<NewFile>,
    stem: &str,
    end: &str,
    bytes: Pieces,
) -> Result<(), Memory>
    ensures { OnOk result (files_of files.new.items
        ≡ files_of files.old.items ++ file_named stem.now end.now bytes ∷ []) }
{
    let name = format!(in alloc; "{stem}{end}")?;
    files.push(NewFile { name, bytes })?;
    Ok(())
}

/// The bytes in pieces.
pub fn in_pieces(alloc: Global, bytes: &[u8]) -> Result<Pieces, Memory>
    ensures { IfOk result (λ pieces. pieces ≡ bytes.now) }
{
    let mut pieces = Pieces::new(alloc);
    pieces.append(bytes)?;
    Ok(pieces)
}

/// Appends a receipt, where there is one.
fn add_receipt(
    alloc: Global,
    files: &mut Vec<NewFile>,
    stem: &str,
    receipt: Option<Pieces>,
) -> Result<(), Memory>
    ensures { OnOk result (files_of files.new.items ≡ files_of files.old.items ++ receipt_files stem.now receipt) }
{
    let Some(receipt) = receipt else {
        return Ok(());
    };
    add_file(alloc, files, stem, ".receipt", receipt)
}

/// The files of a content, of a receipt, where there is one, and of a page. Memory where it runs out.
pub fn files_in(
    alloc: Global,
    stem: &str,
    content: Pieces,
    receipt: Option<Pieces>,
    page: &[u8],
) -> Result<Vec<NewFile>, Memory>
    ensures { IfOk result (λ files. files_of files.items ≡ files_named stem.now content receipt page.now) }
{
    let mut files = Vec::new(alloc);
    add_file(alloc, &mut files, stem, ".content", content)?;
    add_receipt(alloc, &mut files, stem, receipt)?;
    add_file(alloc, &mut files, stem, ".txt", in_pieces(alloc, page)?)?;
    Ok(files)
}
