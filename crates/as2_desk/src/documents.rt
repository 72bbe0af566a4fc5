//! Documents in files.
ghost use Rattle.std.specs.Prelude.{◌≡◌, ◌+◌, IfErr, IfOk};
ghost use Rattle.as2_exchange.specs.State.{content_limit};
ghost use Rattle.as2_host.specs.FileContents.{front};
ghost use Rattle.as2_desk.specs.FileDocuments.{HasDocument};
ghost use Rattle.as2_desk.specs.declared.refusal.CommandFault.TheVariants.{Memory};

use crate::refusal::CommandFault;
use as2_exchange::CONTENT_LIMIT;
use as2_host::{FileFault, ReadFiles};
use as2_mic::Pieces;
use std::alloc::Global;

/// The bytes as a content.
fn in_pieces(alloc: Global, bytes: &[u8]) -> Result<Pieces, CommandFault>
    ensures whole { IfOk result (λ content. content ≡ bytes.now) }
    ensures fault { IfErr result (λ fault. fault ≡ Memory) }
{
    let mut content = Pieces::new(alloc);
    match content.append(bytes) {
        Ok(()) => Ok(content),
        Err(_) => Err(CommandFault::Memory),
    }
}

/// The document in the file of that path. Of a longer one than a content may be no more is read than shows that.
pub(crate) fn document_in<F: ReadFiles>(
    alloc: Global,
    files: &F,
    path: &str,
) -> Result<Pieces, CommandFault>
    ensures { HasDocument (front (content_limit + 1) (F.content files.now path.now)) result }
{
    match files.read_front(alloc, path, CONTENT_LIMIT + 1) {
        Ok(bytes) => in_pieces(alloc, &bytes),
        Err(FileFault::CannotRead) => Err(CommandFault::CannotRead),
        Err(FileFault::Memory) => Err(CommandFault::Memory),
    }
}
