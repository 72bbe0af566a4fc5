//! What the station answered, told here.

use as2_commands::Task;
use as2_control::{MadeFile, Outcome};
use as2_desk::{CommandFault, Console, Ran, refuse};
use as2_evidence::NewFile;
use as2_host::{MakeFiles, MakingFault};
use as2_http::{Sink, push_all};
use as2_mic::Pieces;
use as2_text::Memory;
use std::alloc::Global;
use std::io::Write;

/// Said where the station ended before it answered.
const LOST: &[u8] = b"hint: the station ended before it answered; what was asked may be done\n";

/// The folder that files are made in which a task comes to.
fn folder_of<'a>(task: &Task<'a>) -> &'a str {
    match task {
        Task::GatherEvidence(_, wanted) => wanted.folder,
        _ => ".",
    }
}

/// A file, to be made.
fn new_file(alloc: Global, file: &MadeFile) -> Result<NewFile, Memory> {
    let mut bytes = Pieces::new(alloc);
    bytes.append(&file.content)?;
    Ok(NewFile {
        name: file.name.clone()?,
        bytes,
    })
}

/// The files, to be made.
fn new_files(alloc: Global, files: &[MadeFile]) -> Result<Vec<NewFile>, Memory> {
    let mut made = Vec::new(alloc);
    for file in files {
        made.push(new_file(alloc, file)?)?;
    }
    Ok(made)
}

/// How it is told that files weren't made.
fn fault_of(fault: MakingFault) -> CommandFault {
    match fault {
        MakingFault::Exists => CommandFault::Exists,
        MakingFault::CannotWrite => CommandFault::CannotWrite,
        MakingFault::Memory => CommandFault::Memory,
    }
}

/// Makes the files that the station gave.
fn make<F: MakeFiles>(
    alloc: Global,
    files: &mut F,
    folder: &str,
    given: &[MadeFile],
) -> Result<(), CommandFault> {
    if given.is_empty() {
        return Ok(());
    }
    let Ok(made) = new_files(alloc, given) else {
        return Err(CommandFault::Memory);
    };
    match files.make_files(alloc, folder, &made) {
        Ok(()) => Ok(()),
        Err(fault) => Err(fault_of(fault)),
    }
}

/// Tells what the station answered, as the command tells it without one: what it hints or refuses comes before its output.
pub(crate) fn tell<F: MakeFiles, R, W: Sink, H, E: Sink>(
    alloc: Global,
    outcome: Outcome,
    task: &Task<'_>,
    files: &mut F,
    console: &mut Console<R, W, H, E>,
) -> Ran {
    if let Err(fault) = make(alloc, files, folder_of(task), &outcome.files) {
        return refuse(fault, &mut console.errors);
    }
    let told = push_all(&mut console.errors, &outcome.errors).is_ok();
    if push_all(&mut console.output, &outcome.output).is_err() {
        return refuse(CommandFault::CannotWrite, &mut console.errors);
    }
    Ran {
        status: outcome.status,
        told,
    }
}

/// Tells that the station ended before it answered.
pub(crate) fn tell_lost<R, W, H: Write, E: Sink>(console: &mut Console<R, W, H, E>) -> Ran {
    let ran = refuse(CommandFault::NoStation, &mut console.errors);
    let _ = console.hints.write_all(LOST);
    ran
}
